// Small programs of loops and jumps, read and run plainly: by the rules' own words, without a stack of brackets.
use bytecode_format::Instruction;

// The operations of the small programs, and the rules that these may break. They have no fields out of their ranges, no index, and no
// operation on the current part.
pub const HALT: u8 = 0x01;

pub const BOOL: u8 = 0x07;

pub const JUMP: u8 = 0x09;

pub const JUMP_IF_TRUE: u8 = 0x0A;

pub const KEEP: u8 = 0x13;

pub const EACH: u8 = 0x17;

pub const NEXT: u8 = 0x18;

pub const BREAK: u8 = 0x19;

pub const END_RULE: u8 = 23;

pub const LOOP_RULE: u8 = 24;

pub const JUMP_RULE: u8 = 25;

pub const STACK_RULE: u8 = 27;

// Whether an EACH stands at the place.
fn is_each(code: &[Instruction], place: usize) -> bool {
    place < code.len() && code[place].op == EACH
}

// The NEXT that closes the EACH at a place, or the number of instructions where none does: up to there are as many NEXT as EACH.
fn partner(code: &[Instruction], each: usize) -> usize {
    let mut opened = 0usize;
    let mut closed = 0usize;
    for place in each..code.len() {
        if code[place].op == EACH {
            opened = opened.wrapping_add(1);
        }
        if code[place].op == NEXT {
            closed = closed.wrapping_add(1);
        }
        if opened == closed {
            return place;
        }
    }
    code.len()
}

// Whether the EACH at a place opens a loop that is open at another.
fn is_open(code: &[Instruction], each: usize, place: usize) -> bool {
    if !is_each(code, each) || each >= place {
        return false;
    }
    let next = partner(code, each);
    next < code.len() && place <= next
}

// How many loops are open at a place.
fn open_loops(code: &[Instruction], place: usize) -> usize {
    let mut loops = 0usize;
    for each in 0..code.len() {
        if is_open(code, each, place) {
            loops = loops.wrapping_add(1);
        }
    }
    loops
}

// Whether the same loops are open at both places.
fn same_loops(code: &[Instruction], one: usize, other: usize) -> bool {
    for each in 0..code.len() {
        if is_open(code, each, one) != is_open(code, each, other) {
            return false;
        }
    }
    true
}

fn breaks_loop(code: &[Instruction], place: usize, instruction: Instruction) -> bool {
    let named = instruction.c as usize;
    match instruction.op {
        EACH => {
            let next = partner(code, place);
            next >= code.len() || next != named || open_loops(code, place) > 2
        }
        NEXT => !is_each(code, named) || partner(code, named) != place,
        BREAK => open_loops(code, place) < usize::from(instruction.a),
        _ => false,
    }
}

fn jumps(instruction: Instruction) -> bool {
    instruction.op == JUMP || instruction.op == JUMP_IF_TRUE
}

fn breaks_jump(code: &[Instruction], place: usize, instruction: Instruction) -> bool {
    let target = instruction.c as usize;
    jumps(instruction)
        && (target <= place || code.len() <= target || !same_loops(code, place, target))
}

fn is_target(code: &[Instruction], place: usize) -> bool {
    for instruction in code {
        if jumps(*instruction) && instruction.c as usize == place {
            return true;
        }
    }
    false
}

// Whether an instruction can't take so many truth values from the stack, or leaves some that nothing may be.
fn breaks_stack(code: &[Instruction], place: usize, op: u8, values: usize) -> bool {
    if values > 0 && is_target(code, place) {
        return true;
    }
    match op {
        KEEP | BOOL => false,
        JUMP_IF_TRUE => values != 1,
        _ => values != 0,
    }
}

// The first place where the shape fails.
fn stack_fault(code: &[Instruction]) -> Option<usize> {
    let mut values = 0usize;
    for (place, instruction) in code.iter().enumerate() {
        if breaks_stack(code, place, instruction.op, values) {
            return Some(place);
        }
        if instruction.op == BOOL {
            values = values.wrapping_add(1);
        } else if instruction.op != KEEP {
            values = 0;
        }
    }
    None
}

// The first place where the rule of loops is broken.
fn loop_fault(code: &[Instruction]) -> Option<usize> {
    for (place, instruction) in code.iter().enumerate() {
        if breaks_loop(code, place, *instruction) {
            return Some(place);
        }
    }
    None
}

// The first place where that of jumps is.
fn jump_fault(code: &[Instruction]) -> Option<usize> {
    for (place, instruction) in code.iter().enumerate() {
        if breaks_jump(code, place, *instruction) {
            return Some(place);
        }
    }
    None
}

/// The first rule that a program breaks, and the first place where it does.
pub fn fault(code: &[Instruction]) -> Option<(u8, usize)> {
    match code.last() {
        Some(last) if last.op == HALT => {}
        _ => return Some((END_RULE, code.len().saturating_sub(1))),
    }
    if let Some(place) = loop_fault(code) {
        return Some((LOOP_RULE, place));
    }
    if let Some(place) = jump_fault(code) {
        return Some((JUMP_RULE, place));
    }
    match stack_fault(code) {
        Some(place) => Some((STACK_RULE, place)),
        None => None,
    }
}

// An open loop: the place of its NEXT, its current part, and the part after its last one. Parts in preorder lie one after the other.
#[derive(Clone, Copy)]
struct Turn {
    next: usize,
    part: usize,
    end: usize,
}

// The open loops, the innermost one last, of which an accepted program has three at most.
#[derive(Clone, Copy)]
struct Turns {
    turns: [Turn; 3],
    number: usize,
}

impl Turns {
    fn none() -> Turns {
        let turn = Turn {
            next: 0,
            part: 0,
            end: 0,
        };
        Turns {
            turns: [turn; 3],
            number: 0,
        }
    }

    fn last(&self) -> Option<Turn> {
        self.turns[..self.number.min(3)].last().copied()
    }

    fn pop(&mut self) -> Option<Turn> {
        let last = self.last();
        self.number = self.number.saturating_sub(1);
        last
    }

    // Whether there is a place for one more.
    fn push(&mut self, turn: Turn) -> bool {
        if self.number >= 3 {
            return false;
        }
        self.turns[self.number] = turn;
        self.number += 1;
        true
    }
}

// The first part that a loop visits and the one after its last, of so many parts, each with so many below it.
fn visited(below: &[usize], outer: Option<Turn>) -> (usize, usize) {
    match outer {
        Some(turn) => {
            let first = turn.part.wrapping_add(1);
            let number = below.get(turn.part).copied().unwrap_or(0);
            (first, first.wrapping_add(number))
        }
        None => (0, below.len()),
    }
}

// No place of a program.
const NOWHERE: usize = 1_000_000;

// Where the run goes on after an EACH that names a place: nowhere, where too many loops are open.
fn after_each(below: &[usize], turns: &mut Turns, place: usize, next: usize) -> usize {
    let (part, end) = visited(below, turns.last());
    if part >= end {
        return next.wrapping_add(1);
    }
    if turns.push(Turn { next, part, end }) {
        place.wrapping_add(1)
    } else {
        NOWHERE
    }
}

// Where it goes on after a NEXT: nowhere, where no loop is open.
fn after_next(turns: &mut Turns, place: usize, each: usize) -> usize {
    let Some(turn) = turns.pop() else {
        return NOWHERE;
    };
    let part = turn.part.wrapping_add(1);
    if part < turn.end && turns.push(Turn { part, ..turn }) {
        each.wrapping_add(1)
    } else {
        place.wrapping_add(1)
    }
}

// Where it goes on after so many loops are left: nowhere, where fewer are open.
fn after_break(turns: &mut Turns, place: usize, number: u8) -> usize {
    let mut after = place.wrapping_add(1);
    for _ in 0..number {
        after = match turns.pop() {
            Some(turn) => turn.next.wrapping_add(1),
            None => NOWHERE,
        };
    }
    after
}

// Where it goes on after an instruction, with the truth value that there is.
fn after(
    below: &[usize],
    turns: &mut Turns,
    place: usize,
    instruction: Instruction,
    value: bool,
) -> usize {
    let named = instruction.c as usize;
    match instruction.op {
        EACH => after_each(below, turns, place, named),
        NEXT => after_next(turns, place, named),
        BREAK => after_break(turns, place, instruction.a),
        JUMP => named,
        JUMP_IF_TRUE if value => named,
        _ => place.wrapping_add(1),
    }
}

/// What an accepted program charges on a message, of whose parts so many are below each; none where it doesn't end.
pub fn run_plainly(code: &[Instruction], below: &[usize]) -> Option<u128> {
    let mut place = 0usize;
    let mut value = false;
    let mut turns = Turns::none();
    for charged in 1..100_000u32 {
        let instruction = *code.get(place)?;
        if instruction.op == HALT {
            return Some(u128::from(charged));
        }
        place = after(below, &mut turns, place, instruction, value);
        if instruction.op == BOOL {
            value = instruction.a == 1;
        }
    }
    None
}
