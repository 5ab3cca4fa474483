// Text that people chose, as a JSON value.
ghost use Rattle.std.specs.Prelude.{◌≡◌, IfOk};
ghost use Rattle.serde_json.specs.View.{view};
ghost use Rattle.catalog.specs.Texts.{base64_value, text_value};

use base64::engine::general_purpose::STANDARD;
use serde_json::{Value, json};
use std::alloc::{AllocError, Global};

/// Returns the bytes as a JSON value: a string if they are UTF-8; otherwise an object whose member `base64` encodes them.
///
/// # Errors
///
/// `AllocError` if memory is refused.
pub fn text_value(alloc: Global, octets: &[u8]) -> Result<Value, AllocError>
    ensures { IfOk result (λ value. view value ≡ text_value octets.now) }
{
    match str::from_utf8(octets) {
        Ok(text) => Value::try_from_str(alloc, text),
        Err(_) => base64_value(alloc, octets),
    }
}

// An object whose member `base64` has the text of the bytes in base64.
fn base64_value(alloc: Global, octets: &[u8]) -> Result<Value, AllocError>
    ensures { IfOk result (λ value. view value ≡ base64_value octets.now) }
{
    let text = STANDARD.encode(alloc, octets)?;
    json!(in alloc; {"base64": text})
}
