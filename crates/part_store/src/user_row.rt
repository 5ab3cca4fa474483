//! Users as callers see them.
//!
//! A delivery changes only its user's last number, by an UPDATE, or an INSERT if there is no row. It neither reads the
//! user's program for that nor binds it to the statement.
/// A user that a store knows, because a program or an entry was stored under that name. [`crate::PartStore::users`]
/// returns one for each row of the table of users, and [`crate::PartStore::put_users`] puts such users in.
#[derive(Drop)]
pub struct UserRow {
    /// The user's name.
    pub user: String,
    /// The last number that an entry of the user was given; 0 if there was none.
    pub last: u32,
    /// The bytes of the user's filter program, if there is one.
    pub program: Option<Vec<u8>>,
}
