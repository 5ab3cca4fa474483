// What inspecting prints of a file that is no depot, for each reason.
use depot_cli::{NoDepot, tell_no_depot};
use devices::OfWrite;
use std::alloc::Global;

static WHYS: [(NoDepot, &str); 13] = [
    (NoDepot::NoFile, "no depot: there is no such file\n"),
    (NoDepot::NoFolder, "no depot: there is no such folder\n"),
    (
        NoDepot::NoPath,
        "no depot: a part of the path is no folder\n",
    ),
    (
        NoDepot::NoRights,
        "no depot: this user may not read and write it\n",
    ),
    (NoDepot::Directory, "no depot: it is a directory\n"),
    (NoDepot::Special, "no depot: it is no regular file\n"),
    (NoDepot::SecondName, "no depot: it has a second name\n"),
    (NoDepot::Empty, "no depot: it is empty\n"),
    (NoDepot::Held, "no depot: another process holds it\n"),
    (
        NoDepot::Closed,
        "no depot: its log or its journal can't be opened\n",
    ),
    (
        NoDepot::Damaged,
        "no depot: it is no database, or it is damaged\n",
    ),
    (
        NoDepot::OtherTables,
        "no depot: it has other tables, or none\n",
    ),
    (NoDepot::Disk, "no depot: the disk failed\n"),
];

// Whether a reason is told in this line, with status 1 and nothing on standard error.
fn is_told(alloc: Global, why: NoDepot, line: &str) -> bool {
    let mut out = OfWrite::new(Vec::new(alloc));
    let mut err = OfWrite::new(Vec::new(alloc));
    let status = tell_no_depot(&mut out, &mut err, why);
    status == 1 && out.inner.as_slice() == line.as_bytes() && err.inner.is_empty()
}

#[test]
fn each_reason(rt: HostRuntime) {
    for (why, line) in &WHYS {
        assert!(rt; is_told(rt.alloc(), *why, line), "{line}");
    }
}
