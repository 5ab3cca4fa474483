// The values of fields.
use header_fields::{Field, Header, unfold};
use std::alloc::Global;
use std::borrow::CowSlice;

// Whether the value of a field is lent, and is this one.
fn is_lent(alloc: Global, field: &Field<'_>, want: &[u8]) -> bool {
    match unfold(alloc, field) {
        Ok(CowSlice::Borrowed(value)) => value == want,
        _ => false,
    }
}

// Whether the value of a field is made in memory of its own.
fn is_made(alloc: Global, field: &Field<'_>) -> bool {
    matches!(unfold(alloc, field), Ok(CowSlice::Owned(_)))
}

// Whether there are three fields, of which the last one is folded, and only its value isn't lent.
fn are_lent(alloc: Global, fields: &[Field<'_>]) -> bool {
    fields.len() == 3
        && is_lent(alloc, &fields[0], b"1")
        && is_lent(alloc, &fields[1], b"")
        && is_made(alloc, &fields[2])
}

// A value that isn't folded is lent.
#[test]
fn unfolded_values_are_lent(rt: HostRuntime) {
    let are_as_wanted = match Header::read(rt.alloc(), b"a: 1 \nb:\nc: 1\n 2\n") {
        Ok(header) => are_lent(rt.alloc(), header.fields()),
        Err(_) => false,
    };
    assert!(rt; are_as_wanted);
}
