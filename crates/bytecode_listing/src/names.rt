// Operations by their names.
ghost use Rattle.std.specs.Prelude.{◌≡◌};
ghost use Rattle.bytecode_listing.specs.Names.{octet_named};

use bytecode_format::Operation;

/// The byte of the operation that has this name in a listing.
pub(crate) fn octet_named(name: &[u8]) -> Option<u8>
    ensures { result ≡ octet_named name.now }
{
    let mut octet = 1;
    'table: while let Some(operation) = Operation::of(octet) {
        if operation.name() == name {
            return Some(octet);
        }
        octet += 1;
    }
    None
}
