//! How people read the octets of a text and find a place in it: octets between quotes (`specs/Quoted`), and the line
//! and the column of a place (`specs/Places`).
#![tactic(auto)]

pub mod places;
pub mod quoting;
