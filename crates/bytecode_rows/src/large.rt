// Lists of actions and texts as large as they may be, with ample memory: none is refused. The largest programs are in
// `cases/listings.t`.
use bytecode_format::{Action, ActionList, final_actions};
use octets::{Octets, to_lowercase, to_uppercase};
use std::alloc::{AllocError, Global};
use std::test::Fail;

// The action that stores a part in a folder.
fn store(alloc: Global, part: usize) -> Result<Action, AllocError> {
    let folder = b"att".to_vec(alloc)?;
    Ok(Action::Store(Octets::from_vec(folder), part))
}

// A list to which two actions for each of 10,000 parts were added.
fn list_of_stores(alloc: Global) -> Result<ActionList, AllocError> {
    let mut list = ActionList::new(alloc);
    for part in 0..20_000 {
        list.push(store(alloc, part % 10_000)?)?;
    }
    Ok(list)
}

// Those actions.
fn stores(alloc: Global) -> Result<Vec<Action>, AllocError> {
    let mut actions = Vec::new(alloc);
    for part in 0..20_000 {
        actions.push(store(alloc, part % 10_000)?)?;
    }
    Ok(actions)
}

// Whether a final list has so many actions.
fn has(actions: Result<Vec<Action>, AllocError>, number: usize) -> bool {
    match actions {
        Ok(actions) => actions.len() == number,
        Err(_) => false,
    }
}

// Whether the first action on each part is kept, and the implicit keep.
fn keeps_all(alloc: Global) -> bool {
    match list_of_stores(alloc) {
        Ok(list) => has(list.into_final(true), 10_001),
        Err(_) => false,
    }
}

// Whether it is where the list is made at once, without the implicit keep.
fn keeps_all_at_once(alloc: Global) -> bool {
    match stores(alloc) {
        Ok(actions) => has(final_actions(alloc, actions, false), 10_000),
        Err(_) => false,
    }
}

#[test]
fn many_actions(rt: HostRuntime) {
    assert!(rt; keeps_all(rt.alloc()));
    assert!(rt; keeps_all_at_once(rt.alloc()));
}

// Whether a text in upper case is another, and that is this in lower case.
fn are_cases(alloc: Global, lower: &[u8], upper: &[u8]) -> bool {
    is_uppercase(alloc, lower, upper) && is_lowercase(alloc, upper, lower)
}

fn is_uppercase(alloc: Global, text: &[u8], want: &[u8]) -> bool {
    match to_uppercase(alloc, text) {
        Ok(upper) => upper.as_slice() == want,
        Err(_) => false,
    }
}

fn is_lowercase(alloc: Global, text: &[u8], want: &[u8]) -> bool {
    match to_lowercase(alloc, text) {
        Ok(lower) => lower.as_slice() == want,
        Err(_) => false,
    }
}

#[test]
fn case_of_long_texts(rt: HostRuntime) -> Result<(), Fail> {
    let lower = vec![in rt.alloc(); b'q'; 1_000_000]?;
    let upper = vec![in rt.alloc(); b'Q'; 1_000_000]?;
    assert!(rt; are_cases(rt.alloc(), b"", b""));
    assert!(rt; are_cases(rt.alloc(), b"q", b"Q"));
    assert!(rt; are_cases(rt.alloc(), &lower, &upper));
    Ok(())
}
