//! The values of the MIME header fields (RFC 2045, sections 5 and 6; RFC 2183).
//!
//! [`read_type`] and [`read_disposition`] read a value by `specs/MediaValue`, or find that it has no reading. Reading
//! stops at the first malformed parameter, and keeps those before it. [`parameters_of`] gives the parameters of any
//! field's value, [`param`] the value of one. Comments can be nested to any depth.
//!
//! A value can have millions of parameters. [`type_names`] and [`disposition_name`] read none of them, [`type_param`]
//! and [`disposition_param`] keep only one; [`LentParameters`] gives them one after the other, as they are written.
//! The beginning of a long value can be enough: [`settles_type`] and [`settles_disposition`] find out. [`type_text`]
//! and [`disposition_text`] give a short text that has the same type.
//!
//! # Promises
//!
//! ## MIME values
//!
//! A media type, a disposition, parameters and a transfer encoding are read by their definitions. If a value has no
//! reading, or no parameter of the name, that is the answer; memory is never refused. The parameters of a value are
//! given one after another as they are written, without a copy. If the answer is that the beginning of a value settles
//! its type or disposition, every value with that beginning has the same one as the beginning, or has none if the
//! beginning has none. A media type is written in lower case.
//!
//! By `MediaType::append_text`, `read_type`, `type_names`, `type_param`, `read_disposition`, `disposition_name`,
//! `disposition_param`, `parameters_of`, `param`, `LentParameters`, `LentParameter`, `settles_type`,
//! `settles_disposition`, `TransferEncoding::of`.
#![tactic(auto)]

mod beginning;
mod encoding;
mod gap;
mod lent;
mod lookup;
mod media;
mod params;
mod short_text;
mod words;

pub use beginning::{settles_disposition, settles_type};
pub use encoding::TransferEncoding;
pub use lent::{LentParameter, LentParameters};
pub use media::{
    Disposition, MediaType, disposition_name, disposition_param, read_disposition, read_type,
    type_names, type_param,
};
pub use params::{Parameter, Params, param, parameters_of};
pub use short_text::{disposition_text, type_text};
