// Small programs of loops and jumps: all of a length, and longer ones by chance.
use crate::plain_loops::{BOOL, BREAK, EACH, HALT, JUMP, JUMP_IF_TRUE, KEEP, NEXT};
use bytecode_format::Instruction;

/// How many instructions the longest of them has.
pub const MOST: usize = 12;

/// An instruction of the small programs.
pub fn small(op: u8, a: u8, c: u32) -> Instruction {
    Instruction { op, a, b: 0, c }
}

// A place as an instruction names it.
fn as_field(place: usize) -> u32 {
    place.min(100_000) as u32
}

// How many instructions there are, where places are below a number, or one more.
fn alternatives(places: usize) -> usize {
    places.saturating_add(1).saturating_mul(4).saturating_add(6)
}

// The instruction of a number, which is looked at without what it has of their count.
fn any(places: usize, number: usize) -> Instruction {
    let digit = number.checked_rem(alternatives(places)).unwrap_or(0);
    match digit {
        0 => small(BREAK, 1, 0),
        1 => small(BREAK, 2, 0),
        2 => small(KEEP, 0, 0),
        3 => small(BOOL, 0, 0),
        4 => small(BOOL, 1, 0),
        5 => small(HALT, 0, 0),
        _ => {
            let place = as_field(digit.saturating_sub(6) / 4);
            match digit % 4 {
                0 => small(JUMP_IF_TRUE, 0, place),
                1 => small(JUMP, 0, place),
                2 => small(EACH, 0, place),
                _ => small(NEXT, 0, place),
            }
        }
    }
}

/// How many programs there are of so many instructions, of which the first ones are any.
pub fn count_of(length: usize, free: usize) -> usize {
    let mut number = 1usize;
    for _ in 0..free {
        number = number.wrapping_mul(alternatives(length));
    }
    number
}

/// Makes the first instructions of a program those that the digits of a number name.
pub fn spell(code: &mut [Instruction], free: usize, number: usize) {
    let places = code.len();
    let mut rest = number;
    for place in 0..free.min(places) {
        code[place] = any(places, rest);
        rest = rest.checked_div(alternatives(places)).unwrap_or(0);
    }
}

// The next number of a sequence without visible order.
fn next(state: u64) -> u64 {
    state
        .wrapping_mul(6_364_136_223_846_793_005)
        .wrapping_add(1_442_695_040_888_963_407)
}

// How a program by chance goes on: where it stands, how many loops are open there, and the state of the sequence.
#[derive(Clone, Copy)]
struct Writing {
    place: usize,
    depth: usize,
    state: u64,
}

// Puts an instruction, where there is a place for it.
fn put(code: &mut [Instruction], writing: &mut Writing, instruction: Instruction) {
    if writing.place < code.len() {
        code[writing.place] = instruction;
    }
    writing.place = writing.place.wrapping_add(1);
}

// Puts an EACH, or the NEXT of an open loop.
fn put_bracket(code: &mut [Instruction], writing: &mut Writing, opens: bool) {
    if opens {
        put(code, writing, small(EACH, 0, 0));
        writing.depth = writing.depth.wrapping_add(1);
    } else {
        put(code, writing, small(NEXT, 0, 0));
        writing.depth = writing.depth.saturating_sub(1);
    }
}

// Puts a truth value, and a jump by it.
fn put_jump_if_true(code: &mut [Instruction], writing: &mut Writing, value: u8, target: u32) {
    put(code, writing, small(BOOL, value, 0));
    put(code, writing, small(JUMP_IF_TRUE, 0, target));
}

// Puts what stands often in an accepted program, where so many places are left before its HALT.
fn put_any(code: &mut [Instruction], writing: &mut Writing, left: usize) {
    let target = as_field(writing.place.wrapping_add(2)).wrapping_add(
        (writing.state >> 40) as u32 % 4,
    );
    let odd = (writing.state >> 50) % 2 == 1;
    let has_room = left > writing.depth.wrapping_add(1);
    match (writing.state >> 33) % 8 {
        0 | 1 if has_room => put_bracket(code, writing, true),
        2 | 3 => put_bracket(code, writing, false),
        4 => put(code, writing, small(BREAK, if odd { 2 } else { 1 }, 0)),
        6 => put(code, writing, small(JUMP, 0, target)),
        7 if has_room => put_jump_if_true(code, writing, u8::from(odd), target.wrapping_add(1)),
        _ => put(code, writing, small(KEEP, 0, 0)),
    }
}

// Writes a program up to its last instruction, in which every loop is closed, and answers the state after it.
fn fill(code: &mut [Instruction], state: u64) -> u64 {
    let last = code.len().saturating_sub(1);
    let mut writing = Writing {
        place: 0,
        depth: 0,
        state,
    };
    for _ in 0..last {
        let left = last.saturating_sub(writing.place);
        writing.state = next(writing.state);
        if left > writing.depth {
            put_any(code, &mut writing, left);
        } else if left > 0 {
            put_bracket(code, &mut writing, false);
        }
    }
    writing.state
}

// The EACH that a NEXT at a place closes: the last one before it that is still open.
fn opened_before(code: &[Instruction], next: usize) -> Option<usize> {
    let mut closed = 0usize;
    let mut place = next;
    for _ in 0..next {
        place = place.saturating_sub(1);
        let op = code.get(place)?.op;
        if op == NEXT {
            closed = closed.wrapping_add(1);
        } else if op == EACH && closed == 0 {
            return Some(place);
        } else if op == EACH {
            closed = closed.saturating_sub(1);
        }
    }
    None
}

// Makes the brackets of a program name each other, where they can.
fn name_partners(code: &mut [Instruction]) {
    for place in 0..code.len() {
        if code[place].op == NEXT
            && let Some(each) = opened_before(code, place)
            && each < code.len()
        {
            code[place] = small(NEXT, 0, as_field(each));
            code[each] = small(EACH, 0, as_field(place));
        }
    }
}

// Makes the instructions of a program but the last any that there are, and answers the state after it.
fn fill_any(code: &mut [Instruction], state: u64) -> u64 {
    let places = code.len();
    let mut state = state;
    for place in 0..places.saturating_sub(1) {
        state = next(state);
        code[place] = any(places, (state >> 33) as usize);
    }
    state
}

/// Writes a program by chance up to its last instruction, and answers the state after it: of every two one is written so
/// that it is often accepted.
pub fn write_by_chance(code: &mut [Instruction], number: usize, state: u64) -> u64 {
    if number.is_multiple_of(2) {
        let after = fill(code, state);
        name_partners(code);
        after
    } else {
        fill_any(code, state)
    }
}
