// The name of a script, as lines begin with it.
ghost use Rattle.std.specs.Prelude.{◌≡◌, ◌++◌, IfOk, OnOk};
ghost use Rattle.sieve_trace.specs.Printed.{is_plain, named, named_octet};

use readable_text::quoting::escape;
use std::alloc::{AllocError, Global};

// The last character of ASCII, a control character.
const DELETE: u8 = 127;

// Whether a byte of a name is printed unchanged.
fn is_plain(octet: u8) -> bool
    ensures { result ≡ is_plain octet }
{
    octet >= b' ' && octet != DELETE
}

// Appends a byte of a name.
#[tactic(auto, unfolding(crate::specs::Printed::named_octet))]
fn push_octet(out: &mut Vec<u8>, octet: u8) -> Result<(), AllocError>
    ensures { OnOk result (out.new.items ≡ out.old.items ++ named_octet octet) }
{
    if is_plain(octet) {
        out.extend_from_slice(&[octet])
    } else {
        out.extend_from_slice(&escape(octet))
    }
}

// Appends a name.
fn push_name(out: &mut Vec<u8>, name: &[u8]) -> Result<(), AllocError>
    ensures { OnOk result (out.new.items ≡ out.old.items ++ named name.now) }
{
    for octet in name {
        push_octet(out, *octet)?;
    }
    Ok(())
}

/// The name of a script, as lines begin with it.
///
/// # Errors
///
/// `AllocError` if memory is refused.
pub fn label_of(alloc: Global, name: &str) -> Result<Vec<u8>, AllocError>
    ensures { IfOk result (λ label. label.items ≡ named name.now) }
{
    let mut label = Vec::new(alloc);
    push_name(&mut label, name.as_bytes())?;
    Ok(label)
}
