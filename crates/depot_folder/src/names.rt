//! The names of the volumes of a depot in a folder.
ghost use Rattle.std.specs.Prelude.{◌≡◌, ◌<◌, ◌^◌, IfOk, IfSome, None, ℕ};
ghost use Rattle.std.specs.String.{string_bytes};
ghost use Rattle.depot_folder.specs.Names.{IsOnlyNameOf, IsVolumeName, IsVolumePath};

use std::alloc::{AllocError, Global};

/// The largest number of a volume: eight digits write no larger one.
pub const MAX_NUMBER: u32 = 99_999_999;

/// Returns the path of the volume with a number, at most [`MAX_NUMBER`], in a folder.
///
/// # Errors
///
/// `AllocError` if memory is refused.
pub fn path_of(alloc: Global, folder: &str, number: u32) -> Result<String, AllocError>
    ensures { IfOk result
        (λ path. number < 10 ^ 8 → IsVolumePath folder.now number (string_bytes path)) }
{
    format!(in alloc; "{folder}/{number:08}.depot")
}

/// Returns the number of the volume that has this name in its folder, or `None` if no volume has such a name.
pub fn number_of(name: &str) -> Option<u32>
    ensures found { IfSome result (λ number. IsOnlyNameOf number name.now) }
    ensures none { result ≡ None → (number : ℕ) → IsVolumeName number name.now → ⊥ }
{
    let Some(digits) = name.strip_suffix(".depot") else {
        return None;
    };
    let octets = digits.as_bytes();
    if octets.len() != 8 || octets[0] == b'+' {
        return None;
    }
    match digits.parse::<u32>() {
        Ok(number) => Some(number),
        Err(_) => None,
    }
}
