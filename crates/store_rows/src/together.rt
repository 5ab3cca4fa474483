// Deliveries that are committed together: if one is refused, all is as it was.
use crate::samples::{MESSAGE, SCRIPT};
use depot_actions::{Delivery, Depot, Refusal};
use sqlite::{Alter, MemStore};
use std::alloc::Global;
use std::test::Fail;

const USERS: [&str; 3] = ["ann", "bob", "cat"];

const MESSAGES: [&[u8]; 4] = [MESSAGE, b"Subject: a\n\nb\n", b"", b"Subject: c\n\nd\n"];

// A depot in which one of the users has a filter.
fn depot_of(alloc: Global) -> Result<Depot<MemStore>, Refusal> {
    let mut depot = Depot::in_memory(alloc)?;
    depot.set_script(alloc, "ann", SCRIPT)?;
    Ok(depot)
}

// So many deliveries to the users in turn. The one at a place is for nobody.
fn deliveries_of(
    alloc: Global,
    count: usize,
    nobody: usize,
) -> Result<Vec<Delivery<'static>>, Fail> {
    let mut deliveries = Vec::new(alloc);
    for place in 0..count {
        let user = if place == nobody {
            "No"
        } else {
            USERS[place % 3]
        };
        deliveries.push(Delivery {
            user,
            message: MESSAGES[place % 4],
        })?;
    }
    Ok(deliveries)
}

// Whether a group is refused for the user of the delivery at this place.
fn is_refused_at<S: Alter>(
    alloc: Global,
    depot: &mut Depot<S>,
    deliveries: &[Delivery<'_>],
    place: usize,
) -> bool {
    match depot.deliver_all(alloc, deliveries) {
        Ok(_) => false,
        Err(refused) => refused.place == place && matches!(refused.refusal, Refusal::UserName),
    }
}

// Whether ann has one entry, and bob has none.
fn holds_one<S: Alter>(depot: &mut Depot<S>) -> Result<bool, Refusal> {
    Ok(depot.list("ann")?.len() == 1 && depot.list("bob")?.is_empty())
}

// Delivers the message to ann, and says whether this makes one entry of this number.
fn makes<S: Alter>(alloc: Global, depot: &mut Depot<S>, number: u32) -> Result<bool, Refusal> {
    let rows = depot.deliver(alloc, "ann", MESSAGE)?;
    Ok(rows.len() == 1 && rows[0].number == number)
}

// What comes of a delivery, of a group that is refused, and of one more delivery.
#[derive(Clone, Copy)]
struct Came {
    makes_the_first: bool,
    is_refused: bool,
    holds_one: bool,
    makes_the_second: bool,
}

// What comes of a group of these, which is refused at a place, in an empty depot.
fn came_of<S: Alter>(
    alloc: Global,
    depot: &mut Depot<S>,
    deliveries: &[Delivery<'_>],
    place: usize,
) -> Result<Came, Refusal> {
    Ok(Came {
        makes_the_first: makes(alloc, depot, 1)?,
        is_refused: is_refused_at(alloc, depot, deliveries, place),
        holds_one: holds_one(depot)?,
        makes_the_second: makes(alloc, depot, 2)?,
    })
}

// The same of three deliveries, of which the one at the place is for nobody.
fn came_at(alloc: Global, place: usize) -> Result<Came, Fail> {
    let deliveries = deliveries_of(alloc, 3, place)?;
    let mut depot = depot_of(alloc)?;
    Ok(came_of(alloc, &mut depot, &deliveries, place)?)
}

#[test]
fn a_refused_one_leaves_all_as_it_was(rt: HostRuntime) -> Result<(), Fail> {
    for place in [0, 1, 2] {
        let came = came_at(rt.alloc(), place)?;
        assert!(rt; came.makes_the_first, "{place}");
        assert!(rt; came.is_refused, "{place}");
        assert!(rt; came.holds_one, "{place}");
        assert!(rt; came.makes_the_second, "{place}");
    }
    Ok(())
}
