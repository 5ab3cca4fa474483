// Tasks that wait for their depot.
use depot_jobs::Task;

/// A command on a depot that isn't open. [`crate::run`] makes it after reading the command's file; the program opens
/// the depot and gives both to [`crate::carry`].
#[derive(Drop)]
pub struct PendingTask<'a> {
    /// The name of the depot's file.
    pub name: &'a str,
    /// The command, with the bytes of its file.
    pub task: Task<'a>,
}
