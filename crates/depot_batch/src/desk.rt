// What a batch is served with.

use crate::format::Format;
use depot_actions::Depot;
use depot_jobs::Host;
use devices::OfWrite;
use sqlite::Alter;
use std::alloc::Global;
use std::io::Write;

/// What the lines of a batch are done and answered with.
#[derive(Drop)]
pub struct Desk<'n, 'd, 'h, 'o, S: Alter, H: Host, W: Write + Drop> {
    /// What memory is taken from.
    pub alloc: Global,
    /// The name of the depot's file.
    pub name: &'n str,
    /// How the answers are written.
    pub format: Format,
    /// The depot.
    pub depot: &'d mut Depot<S>,
    /// The host, whose files lines name.
    pub host: &'h mut H,
    /// Where the answers go.
    pub out: &'o mut OfWrite<W>,
}
