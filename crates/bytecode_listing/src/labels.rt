// The places that names and strings refer to.
ghost use Rattle.std.specs.Prelude.{◌≡◌, ℕ, List, [], None, Some, MatchResult};
ghost use Rattle.bytecode_listing.specs.Labels.{place_of, double_after, looked_up, c_of, instruction_of, instructions_in, resolved};
ghost use Rattle.bytecode_listing.specs.declared.drafts.Line.{Line};
ghost use Rattle.bytecode_listing.specs.declared.error.ReadError.TheVariants.{At};
ghost use Rattle.bytecode_listing.specs.Readers.{Gives, IsPlaces};

use crate::drafts::{Draft, Line, Target};
use crate::error::ReadError;
use crate::strings::strings_in;
use bytecode_format::{Instruction, StringTable};
use octets::Octets;
use std::alloc::Global;
use std::collections::BTreeMap;

/// The place of each name that is a label.
pub type Places<'a> = BTreeMap<&'a [u8], usize>;

/// The place of each label among the lines; or the first label that appears a second time.
pub fn places_of(alloc: Global, lines: &[Line]) -> Result<Places<'_>, ReadError>
    ensures { MatchResult result
        (λ places. (double_after [] lines.now ≡ None) × IsPlaces places lines.now)
        (λ e. (left : ℕ) → e ≡ At left → double_after [] lines.now ≡ Some left) }
{
    let mut places = BTreeMap::new(alloc);
    let mut place: usize = 0;
    'lines: for line in lines {
        match line {
            Line::Label(name, left) => {
                let name = name.as_slice();
                if places.contains_key(name) {
                    return Err(ReadError::At(*left));
                }
                places.insert(name, place)?;
            }
            Line::Step(_) => place += 1,
        }
    }
    Ok(places)
}

// A place that was found, if it fits into 32 bits; it is looked for at the point with so many bytes left.
fn looked_up(place: Option<usize>, left: usize) -> Result<u32, ReadError>
    ensures { Gives (λ c. c) result (looked_up place left) }
{
    match place {
        Some(place) if place <= u32::MAX as usize => Ok(place as u32),
        _ => Err(ReadError::At(left)),
    }
}

// The place that a name refers to; the name is at the point with so many bytes left.
fn place_named(places: &Places<'_>, name: &[u8], left: usize) -> Result<u32, ReadError>
    ensures { (lines : List Line) → IsPlaces places.now lines
        → Gives (λ c. c) result (looked_up (place_of lines name.now) left) }
{
    looked_up(places.get(name).copied(), left)
}

// The number that c of an instruction is.
fn c_of(strings: &StringTable<'_>, places: &Places<'_>, target: &Target) -> Result<u32, ReadError>
    ensures { (lines : List Line) → IsPlaces places.now lines
        → Gives (λ c. c) result (c_of strings.now lines target.now) }
{
    match target {
        Target::Number(number) => Ok(*number),
        Target::Name(name, left) => place_named(places, name.as_slice(), *left),
        Target::Quoted(text, left) => looked_up(strings.get(text.as_slice()), *left),
    }
}

// The instruction that a draft is.
fn instruction_of(
    strings: &StringTable<'_>,
    places: &Places<'_>,
    draft: &Draft,
) -> Result<Instruction, ReadError>
    ensures { (lines : List Line) → IsPlaces places.now lines
        → Gives (λ i. i) result (instruction_of strings.now lines draft.now) }
{
    let c = c_of(strings, places, &draft.c)?;
    Ok(Instruction {
        op: draft.op,
        a: draft.a,
        b: draft.b,
        c,
    })
}

// The instructions among lines, with the place of each name and string.
fn instructions_in(
    alloc: Global,
    strings: &StringTable<'_>,
    places: &Places<'_>,
    lines: &[Line],
) -> Result<Vec<Instruction>, ReadError>
    requires places { IsPlaces places.now lines.now }
    requires single { double_after [] lines.now ≡ None }
    ensures { Gives (λ v. v.items) result (instructions_in strings.now lines.now) }
{
    let mut instructions = Vec::new(alloc);
    'lines: for line in lines {
        if let Line::Step(draft) = line {
            instructions.push(instruction_of(strings, places, draft)?)?;
        }
    }
    Ok(instructions)
}

/// The strings and the instructions of a program whose labels have these places.
pub fn resolved(
    alloc: Global,
    table: &[Octets],
    places: &Places<'_>,
    lines: &[Line],
) -> Result<(Vec<Octets>, Vec<Instruction>), ReadError>
    requires places { IsPlaces places.now lines.now }
    requires single { double_after [] lines.now ≡ None }
    ensures { Gives (λ x. (x.0.items, x.1.items)) result (resolved table.now lines.now) }
{
    let strings = strings_in(alloc, table, lines)?;
    let instructions = instructions_in(alloc, &strings, places, lines)?;
    Ok((strings.to_list(alloc)?, instructions))
}
