//! A depot in a folder of files, its volumes.
//!
//! [`Folder`] implements the trait `Volumes` of the crate `volumes` over a folder of the system, and [`make_folder`] makes
//! one with its first volume. The names of volumes are in `specs/Names`.
//!
//! What is done with volumes is promised for any that follow one another ("Depots in volumes"). That the files of a folder
//! are such volumes can't be promised: what a file of the system holds is in no contract. So the bodies of `Folder`, and
//! tests, show which files a command opens, in which order, and that a volume is begun as the trait says.
//!
//! # Promises
//!
//! ## Names of volumes
//!
//! The path of a volume is that of its folder, and a name of eight decimal digits, which write its number, and
//! `.depot`. Each number has one such name, and a name has at most one number; any other name is none.
//!
//! By `path_of`, `number_of`.
#![tactic(auto)]

mod folder;
mod making;
mod names;
mod volume;

pub use folder::Folder;
pub use making::make_folder;
pub use names::{MAX_NUMBER, number_of, path_of};
pub use volume::Volume;
