// The line of a step.
ghost use Rattle.std.specs.Prelude.{◌≡◌, [], ◌∷◌, ◌++◌, suc, true, IfOk, OnOk, Some, codes, option_map};
ghost use Rattle.std.specs.Fmt.{decimal};
ghost use Rattle.sieve_vm.specs.Lent.{value_of};
ghost use Rattle.sieve_vm.specs.Moment.{goes_on, state_at, turn_at};
ghost use Rattle.sieve_vm.specs.State.{State};
ghost use Rattle.bytecode_trace.specs.Printed.{column, part_text, value_text};
ghost use Rattle.bytecode_trace.specs.Private.{line_at, told_after, told_before};

use crate::telling::{Told, told_of};
use bytecode_format::Operation;
use bytecode_listing::put_instruction;
use itoa::Buffer;
use readable_text::quoting::put_quoted_start;
use sieve_vm::{Progress, StackValue};
use std::alloc::{AllocError, Global};

// Appends a number in decimal digits.
fn put_number(out: &mut Vec<u8>, number: u128) -> Result<(), AllocError>
    ensures { OnOk result (out.new.items ≡ out.old.items ++ decimal number) }
{
    out.extend_from_slice(Buffer::new().format(number).as_bytes())
}

// Appends what a step charged and the sum up to then, after a stroke.
fn put_charge(out: &mut Vec<u8>, charge: u128, sum: u128) -> Result<(), AllocError>
    ensures { OnOk result (out.new.items ≡ out.old.items
        ++ (codes " | " ++ decimal charge ++ codes " " ++ decimal sum)) }
{
    out.extend_from_slice(b" | ")?;
    put_number(out, charge)?;
    out.extend_from_slice(b" ")?;
    put_number(out, sum)
}

// Appends a value.
fn put_value(out: &mut Vec<u8>, value: StackValue<'_>) -> Result<(), AllocError>
    ensures { OnOk result (out.new.items ≡ out.old.items ++ value_text (value_of value.entry)) }
{
    match value {
        StackValue::Truth(true) => out.extend_from_slice(b"yes"),
        StackValue::Truth(false) => out.extend_from_slice(b"no"),
        StackValue::Text(octets) => put_quoted_start(out, octets),
    }
}

// Appends a value after a stroke, if there is one.
fn put_told(out: &mut Vec<u8>, value: Option<StackValue<'_>>) -> Result<(), AllocError>
    ensures { OnOk result (out.new.items ≡ out.old.items
        ++ column (option_map value_text (option_map value_of value.entry))) }
{
    let Some(value) = value else {
        return Ok(());
    };
    out.extend_from_slice(b" | ")?;
    put_value(out, value)
}

// Appends a part after a stroke, if there is one.
fn put_part(out: &mut Vec<u8>, part: Option<usize>) -> Result<(), AllocError>
    ensures { OnOk result (out.new.items ≡ out.old.items ++ column (option_map part_text part)) }
{
    let Some(number) = part else {
        return Ok(());
    };
    out.extend_from_slice(b" | part ")?;
    put_number(out, number as u128)
}

// The text of the value that the next instruction takes from the stack, if that is printed.
fn taken_text(alloc: Global, run: &Progress<'_, '_, '_>, told: Told) -> Result<Vec<u8>, AllocError>
    ensures { IfOk result (λ text. (before : State) → state_at run.now ≡ Some before
        → text.items ≡ told_before told before) }
{
    let mut text = Vec::new(alloc);
    if let Told::Taken = told {
        put_told(&mut text, run.top())?;
    }
    Ok(text)
}

// Appends the value that an instruction left on the stack or gave to a variable, if that is printed.
fn put_left(
    out: &mut Vec<u8>,
    run: &Progress<'_, '_, '_>,
    told: Told,
    variable: usize,
) -> Result<(), AllocError>
    ensures { OnOk result ((after : State) → state_at run.now ≡ Some after
        → out.new.items ≡ out.old.items ++ told_after told variable after) }
{
    match told {
        Told::Left => put_told(out, run.top()),
        Told::Set => put_told(out, run.variable(variable).map(StackValue::Text)),
        Told::Taken | Told::Nothing => Ok(()),
    }
}

// Appends what a step charged, the sum up to then, and the part after it.
fn put_sum(
    out: &mut Vec<u8>,
    charge: u128,
    sum: u128,
    part: Option<usize>,
) -> Result<(), AllocError>
    ensures { OnOk result (out.new.items ≡ out.old.items
        ++ (codes " | " ++ decimal charge ++ codes " " ++ decimal sum) ++ column (option_map part_text part)) }
{
    put_charge(out, charge, sum)?;
    put_part(out, part)
}

// Appends the text of a value that the instruction took, or the value that it left or gave to a variable, and ends the
// line.
fn put_end(
    out: &mut Vec<u8>,
    taken: &[u8],
    run: &Progress<'_, '_, '_>,
    told: Told,
    variable: usize,
) -> Result<(), AllocError>
    ensures { OnOk result ((after : State) → state_at run.now ≡ Some after
        → out.new.items ≡ out.old.items ++ taken.now ++ told_after told variable after ++ 10 ∷ []) }
{
    out.extend_from_slice(taken)?;
    put_left(out, run, told, variable)?;
    out.extend_from_slice(b"\n")
}

/// Takes the next step of a run, and makes `line` the line of this step. Only the memory of what `line` held is used
/// again.
///
/// # Requires
///
/// The run isn't over.
///
/// # Errors
///
/// `AllocError` if memory is refused, which ends the run.
pub fn take_step<'p, 's, 'm>(
    alloc: Global,
    run: Progress<'p, 's, 'm>,
    line: &mut Vec<u8>,
) -> Result<Progress<'p, 's, 'm>, AllocError>
    requires { goes_on (turn_at run) ≡ true }
    ensures went { IfOk result (λ next. next ≡ record run.entry { steps = suc run.entry.steps }) }
    ensures line { OnOk result (line.new.items
        ≡ line_at run.entry.code run.entry.mail run.entry.steps) }
{
    let instruction = run.instruction();
    let told = told_of(Operation::of(instruction.op));
    let charged = run.charged();
    line.clear();
    put_instruction(line, run.place(), instruction)?;
    let taken = taken_text(alloc, &run, told)?;
    let run = run.advance(alloc)?;
    let sum = run.charged();
    put_sum(line, sum.saturating_sub(charged), sum, run.part())?;
    put_end(line, &taken, &run, told, instruction.c as usize)?;
    Ok(run)
}
