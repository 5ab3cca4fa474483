// Programs as bytes.
ghost use Rattle.std.specs.Prelude.{◌≡◌, ◌+◌, ◌*◌, ◌<◌, ◌≤◌, ◌^◌, ◌++◌, length, All, OnOk, IfOk};
ghost use Rattle.std.specs.List.{flat_map};
ghost use Rattle.octets.specs.Limits.{max_string};
ghost use Rattle.bytecode_format.specs.Spelling.{eight_octets, string, instruction, spelling};

use crate::instruction::Instruction;
use crate::program::{OPENING, Program};
use octets::Octets;
use std::alloc::{AllocError, Global};

fn put_numbers(out: &mut Vec<u8>, numbers: &[u64]) -> Result<(), AllocError>
    ensures { OnOk result (out.new.items ≡ out.old.items ++ flat_map eight_octets numbers.now) }
{
    'table: for number in numbers {
        out.extend_from_slice(&number.to_be_bytes())?;
    }
    Ok(())
}

fn put_strings(out: &mut Vec<u8>, strings: &[Octets]) -> Result<(), AllocError>
    requires { All (λ text. length text ≤ max_string) strings.now }
    ensures { OnOk result (out.new.items ≡ out.old.items ++ flat_map string strings.now) }
{
    'table: for text in strings {
        out.extend_from_slice(&(text.len() as u16).to_be_bytes())?;
        out.extend_from_slice(text.as_slice())?;
    }
    Ok(())
}

fn put_instructions(out: &mut Vec<u8>, instructions: &[Instruction]) -> Result<(), AllocError>
    ensures { OnOk result (out.new.items ≡ out.old.items ++ flat_map instruction instructions.now) }
{
    'table: for i in instructions {
        out.push(i.op)?;
        out.push(i.a)?;
        out.extend_from_slice(&i.b.to_be_bytes())?;
        out.extend_from_slice(&i.c.to_be_bytes())?;
    }
    Ok(())
}

impl Program {
    /// Returns the bytes that spell the program. [`Program::read`] reads them as the same program.
    ///
    /// # Errors
    ///
    /// `AllocError` if memory is refused.
    pub fn write(&self, alloc: Global) -> Result<Vec<u8>, AllocError>
        ensures { IfOk result (λ v. v.items ≡ spelling self.now) }
    {
        let mut out = Vec::new(alloc);
        out.extend_from_slice(&OPENING)?;
        out.push(self.version())?;
        out.extend_from_slice(&self.variables().to_be_bytes())?;
        out.extend_from_slice(&(self.numbers().len() as u16).to_be_bytes())?;
        out.extend_from_slice(&(self.strings().len() as u16).to_be_bytes())?;
        out.extend_from_slice(&(self.instructions().len() as u32).to_be_bytes())?;
        put_numbers(&mut out, self.numbers())?;
        put_strings(&mut out, self.strings())?;
        put_instructions(&mut out, self.instructions())?;
        Ok(out)
    }
}
