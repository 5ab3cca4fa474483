ghost use Rattle.std.specs.Prelude.{◌≡◌, IfOk};
ghost use Rattle.octet_lanes.specs.Encoding.{encoding_of};
ghost use Rattle.octet_lanes.specs.declared.alphabet.Alphabet.TheVariants.{Base32, Base32Hex};

use octet_lanes::{Alphabet, encode};
use std::alloc::{AllocError, Global};

/// Returns the base32 text of `octets`, with its padding (RFC 4648, section 6). For example, `foo` becomes
/// `MZXW6===`.
///
/// # Errors
///
/// `AllocError` if memory is refused.
pub fn encode32(alloc: Global, octets: &[u8]) -> Result<Vec<u8>, AllocError>
    ensures { IfOk result (λ text. text.items ≡ encoding_of Base32 octets.now) }
{
    encode(alloc, octets, Alphabet::Base32)
}

/// Returns the base32hex text of `octets`, with its padding (RFC 4648, section 7). For example, `foo` becomes
/// `CPNMU===`.
///
/// # Errors
///
/// `AllocError` if memory is refused.
pub fn encode32hex(alloc: Global, octets: &[u8]) -> Result<Vec<u8>, AllocError>
    ensures { IfOk result (λ text. text.items ≡ encoding_of Base32Hex octets.now) }
{
    encode(alloc, octets, Alphabet::Base32Hex)
}
