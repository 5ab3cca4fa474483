//! The words of a command line: which commands there are, which arguments they take, and their help.
//!
//! A command is a row of the table in `src/commands.rt`: its word, its arguments in order, and its help.
//! [`depot_command`] describes the rows to clap. The list `commands` of `specs/Commands` describes them to contracts;
//! the contract says that both are the same. What clap takes and refuses is defined from that list. The crates above
//! define what the words ask for. [`asked_text`] has the version, and what each refusal means, for words that ask for
//! these and are no command.
//!
//! # Promises
//!
//! ## Arguments of commands
//!
//! The command line follows the definition of the commands. If `clap` takes words as those of a command, each argument
//! of the command is there and in its range: NUMBER is the number of an entry, OCTETS and PARTS are as many as a
//! message can have, and ENCODING is the name of an encoding. Only NUMBER of `catalog` can be left out.
//!
//! By `depot_command`; law `arguments_are_in_range`.
#![tactic(auto)]

mod arguments;
mod asked;
mod commands;
mod help;
pub mod laws;
mod meanings;

pub use asked::asked_text;
pub use commands::depot_command;
