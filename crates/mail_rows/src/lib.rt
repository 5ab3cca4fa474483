//! Tests of the mail crates, of matching and of the codecs, over their public calls: all small inputs, compared with
//! plain definitions or read back, texts in pieces, and what is lent.
#![tactic(auto)]

#[cfg(test)]
mod base_lanes;
#[cfg(test)]
mod base_pieces;
#[cfg(test)]
mod base_texts;
#[cfg(test)]
mod every_pair;
#[cfg(test)]
mod headers;
#[cfg(test)]
mod lines;
#[cfg(test)]
mod quoted;
#[cfg(test)]
mod quoted_pieces;
#[cfg(test)]
mod recursion;
#[cfg(test)]
mod tree;
