// The listing of a program, and the program that it says. What the program prints of listings, and takes for one, is in
// `cases/listings.t`.
use bytecode_format::Program;
use bytecode_listing::disassemble;
use bytecode_listing::laws::read_again;
use std::alloc::Global;

/// A program with a number, a string and three instructions, of which the last one is none.
const OCTETS: &[u8] = b"SVBC\x02\0\x01\0\x01\0\x01\0\0\0\x03\0\0\0\0\0\x10\0\0\0\x05a\0a\"b\
    \x02\0\0\0\0\0\0\0\x0c\x01\0\x02\0\0\0\x03\xff\0\0\0\0\0\0\0";

/// Its listing.
const LISTING: &[u8] = b"version 2\nvariables 1\nnumber 1048576\nstring \"a\\00a\\22b\"\n\
    0 LIT ; \"a\\00a\\22b\"\n\
    1 HEADER a 1 b 2 c 3 ; a contains casemap message value c 0 params 3 keys\n2 OP ff\n";

// Whether this is a program's listing.
fn is_listing_of(alloc: Global, program: &Program) -> bool {
    match disassemble(alloc, program) {
        Ok(listing) => listing.as_slice() == LISTING,
        Err(_) => false,
    }
}

// Whether it is that of the program that a program's listing says.
fn is_listing_again(alloc: Global, program: &Program) -> bool {
    match read_again(alloc, program) {
        Ok(again) => is_listing_of(alloc, &again),
        Err(_) => false,
    }
}

fn is_listing_of_octets(alloc: Global) -> bool {
    match Program::read(alloc, OCTETS) {
        Ok(program) => is_listing_of(alloc, &program) && is_listing_again(alloc, &program),
        Err(_) => false,
    }
}

#[test]
fn small_program(rt: HostRuntime) {
    assert!(rt; is_listing_of_octets(rt.alloc()));
}
