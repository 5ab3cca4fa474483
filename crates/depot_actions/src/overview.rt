// What a depot holds, as `depot inspect` reports it.

use part_store::ContentTotal;
use refusals::Refusal;

/// What a depot holds. [`crate::Depot::inspect`] makes it for operators; `depot inspect` prints it.
#[derive(Drop)]
pub struct Overview {
    /// The depot's users, in the order of their names.
    pub users: Vec<UserOverview>,
    /// How many contents it stores and how many bytes they have together; a content that several entries share counts
    /// once.
    pub contents: ContentTotal,
}

/// What a depot holds for one user: a line of `depot inspect`.
#[derive(Drop)]
pub struct UserOverview {
    /// The user's name.
    pub user: String,
    /// The last number that an entry of the user was given; 0 if there was none.
    pub last: u32,
    /// The number of entries.
    pub entries: u64,
    /// The number of bytes that the entries have together; shared contents count for each entry.
    pub octets: u64,
    /// The state of the user's filter.
    pub program: ProgramState,
}

/// The state of a user's filter. A migration changes nothing as long as some user's program is refused.
#[derive(Drop)]
pub enum ProgramState {
    /// The user has no filter, so each message is kept.
    Missing,
    /// The program is accepted and has this version.
    Accepted(u8),
    /// The program no longer reads and verifies; this is why.
    Refused(Refusal),
}
