//! The refusals, in one place.
//!
//! A [`Refusal`] has a number, a name and, if it names one, a place; its line is made of them (`specs/Lines`). The
//! crates below have small errors of their own, each of which is the refusal of its name (`specs/Causes`). From the
//! engine on this is the one error, and each contract says which of its cases can come. `specs/Scripts` defines when
//! each comes from a script.
//!
//! The words of the small errors below the engine, and what `Debug` writes, are neither proved nor tested one by one:
//! the program prints none of it.
//!
//! # Promises
//!
//! ## Refusals
//!
//! A refusal has its number, its name and its place, by one table, and its `Display` writes its line. Each error of
//! the crates below the engine is the refusal of its name.
//!
//! By `Refusal`.
#![tactic(auto)]

mod causes;
mod fault_kind;
mod refusal;

pub use fault_kind::FaultKind;
pub use refusal::Refusal;
