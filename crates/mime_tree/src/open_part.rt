// The parts that are open at the reader's place in a message.
ghost use Rattle.std.specs.Prelude.{◌≡◌, ◌<◌, IfOk, length, option_map};
ghost use Rattle.octets.specs.Limits.{max_depth};
ghost use Rattle.mime_tree.specs.OpenParts.{opening};
ghost use Rattle.mime_tree.specs.PartTree.{default_media};
ghost use Rattle.mime_tree.specs.Reading.{mark_in};

use crate::delimiter::{Mark, mark_of};
use crate::media::DefaultType;
use crate::part::Part;
use std::alloc::{AllocError, Global};
use std::marker::Model;

/// A part that hasn't ended.
#[derive(Drop)]
pub(crate) struct OpenPart {
    // Its place among the parts.
    at: usize,
    // How many levels of parts there can be below its children.
    levels: usize,
    // The media type of a child that has no Content-Type.
    default: DefaultType,
    // The boundary between its children, if more of them can come.
    boundary: Option<Vec<u8>>,
}

impl Model for OpenPart {
    ghost use Rattle.std.specs.Option.{option_map};
    ghost use Rattle.mime_tree.specs.PartTree.{default_media};
    ghost use Rattle.mime_tree.specs.OpenParts.{OpenPart};

    ghost Value = { OpenPart };

    ghost view = { λ p. record {
      at = p.at;
      levels = p.levels;
      default = default_media p.default;
      boundary = option_map (λ v. v.items) p.boundary;
    } };

    ghost use Rattle.std.specs.Prelude.{◌<◌};
    ghost use Rattle.octets.specs.Limits.{max_depth};

    ghost invariant = { λ p. p.levels < max_depth };
}

impl OpenPart {
    /// A part that was read and has this place among the parts, with at most so many levels of parts below it.
    pub(crate) fn new(
        alloc: Global,
        part: &Part,
        at: usize,
        levels: usize,
    ) -> Result<OpenPart, AllocError>
        requires { levels < max_depth }
        ensures { IfOk result (λ opened. opened ≡ opening at levels part.now) }
    {
        if levels == 0 {
            return Ok(OpenPart {
                at,
                levels: 0,
                default: part.default_below(),
                boundary: None,
            });
        }
        Ok(OpenPart {
            at,
            levels: levels - 1,
            default: part.default_below(),
            boundary: part.boundary(alloc)?,
        })
    }

    /// Its place among the parts.
    pub(crate) fn at(&self) -> usize
        ensures { result ≡ self.now.at }
    {
        self.at
    }

    /// How many levels of parts there can be below its children.
    pub(crate) fn levels(&self) -> usize
        ensures levels { result ≡ self.now.levels }
        ensures few { result < max_depth }
    {
        self.levels
    }

    /// The media type of a child that has no Content-Type.
    pub(crate) fn default(&self) -> DefaultType
        ensures { default_media result ≡ self.now.default }
    {
        self.default
    }

    /// How many bytes the boundary between its children has, if more of them can come.
    pub(crate) fn boundary_length(&self) -> Option<usize>
        ensures { result ≡ option_map length self.now.boundary }
    {
        match &self.boundary {
            Some(boundary) => Some(boundary.len()),
            None => None,
        }
    }

    /// The meaning of a line with this name for the part, which can be before its first delimiter.
    #[inline]
    pub(crate) fn mark(&self, name: &[u8], preamble: bool) -> Option<Mark>
        ensures { result ≡ mark_in preamble self.now.boundary name.now }
    {
        match &self.boundary {
            Some(boundary) => mark_of(name, boundary.as_slice(), preamble),
            None => None,
        }
    }

    /// Ends its children.
    pub(crate) fn close(&mut self)
        ensures { self.new ≡ record self.old { boundary = None } }
    {
        self.boundary = None;
    }
}
