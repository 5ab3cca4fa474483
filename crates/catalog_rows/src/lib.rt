//! Tests of catalogs over their public calls, next to texts that Python's `json` and `base64` wrote.
#![tactic(auto)]

#[cfg(test)]
mod catalogs;
#[cfg(test)]
mod index;
#[cfg(test)]
mod lines;
#[cfg(test)]
mod mails;
#[cfg(test)]
mod many;
#[cfg(test)]
mod names;
