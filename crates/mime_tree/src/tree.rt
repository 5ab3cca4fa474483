// The tree of a message's parts.
//
// `Tree::media` takes memory, because the tree has no parameters: each call reads the type again, with all of them.
// `Tree::media_param` reads one by its name; `Tree::media_without_params` lends what the tree keeps, and can't fail.
// To lend a whole media type the tree would have to keep the parameters. A mail of 64 MiB can have 16,777,211 of four
// bytes (`;a=b`): by calculation 4.5 times the mail in one buffer with four places of 32 bits each, and 28 times as
// an owned answer; the mail and its tree are 1.04 times the mail, measured.
ghost use Rattle.std.specs.Prelude.{◌≡◌, ◌<◌, length, IfOk, IfErr, IsErrAnd};
ghost use Rattle.std.specs.List.{HoldsAt};
ghost use Rattle.octets.specs.Limits.{max_message};
ghost use Rattle.mime_params.specs.MediaValue.{value_named};
ghost use Rattle.mime_tree.specs.PartTree.{tree_of, body_of, without_params};
ghost use Rattle.mime_tree.specs.Readable.{IsReadable, IsTree};
ghost use Rattle.mime_tree.specs.TypeTexts.{AreTypeTexts};
ghost use Rattle.mime_tree.specs.Refusals.{IsTreeRefusal};
ghost use Rattle.mime_tree.specs.declared.error.MessageError.TheVariants.{MessageTooLarge};

use crate::MAX_MESSAGE;
use crate::error::MessageError;
use crate::media::DefaultType;
use crate::part::Part;
use crate::reader::message_parts;
use crate::type_texts::TypeTexts;
use header_fields::Header;
use mime_params::{MediaType, TransferEncoding};
use octets::Octets;
use std::alloc::{AllocError, Global};
use std::marker::Model;

/// The tree of a message's parts (RFC 2046, section 5), over bytes that are lent: it copies types, subtypes and
/// boundaries, but no headers or bodies. Parameters aren't kept.
///
/// [`Tree::read`] makes it. Parts are numbered from 0, each before the parts below it; part 0 is the message itself.
/// A contract sees the list of the definition's parts.
#[derive(Drop)]
pub struct Tree<'a> {
    parts: Vec<Part<'a>>,
    // The two types that parts without a Content-Type have.
    text: MediaType,
    message: MediaType,
}

impl<'a> Model for Tree<'a> {
    ghost use Rattle.std.specs.Prelude.{List};
    ghost use Rattle.mime_tree.specs.PartTree.{Part};
    ghost use Rattle.mime_tree.specs.Readable.{IsTree};

    ghost Value = { List Part };

    ghost view = { λ t. t.parts.items };

    ghost use Rattle.std.specs.Prelude.{◌≡◌};
    ghost use Rattle.mime_tree.specs.PartTree.{text_plain, message_rfc822};

    ghost invariant = { λ t. IsTree t.parts.items × (t.text ≡ text_plain)
        × (t.message ≡ message_rfc822) };
}

impl<'a> Tree<'a> {
    /// Reads a message as a tree of parts.
    ///
    /// For example, if the header has the type `multipart/mixed; boundary=b` and the lines of the body are `--b`,
    /// `--b` and `--b--`, there are three parts: part 0 is the message, and parts 1 and 2 are its empty children.
    ///
    /// # Errors
    ///
    /// - `MessageError::MessageTooLarge` if the message has more than [`MAX_MESSAGE`] bytes, whatever memory there
    ///   is.
    /// - `MessageError::TooManyParts` if it isn't too large and has more than [`MAX_PARTS`] parts.
    /// - `MessageError::Memory` if memory is refused.
    pub fn read(alloc: Global, octets: &'a [u8]) -> Result<Tree<'a>, MessageError>
        ensures read { IfOk result (λ tree. IsReadable octets.now × (tree ≡ tree_of octets.now)) }
        ensures refused { IfErr result (λ e. IsTreeRefusal octets.now e) }
        ensures large { max_message < length octets.now
            → IsErrAnd result (λ e. e ≡ MessageTooLarge) }
    {
        if octets.len() > MAX_MESSAGE {
            return Err(MessageError::MessageTooLarge);
        }
        let parts = message_parts(alloc, octets)?;
        Ok(Tree {
            parts,
            text: DefaultType::Text.media(alloc)?,
            message: DefaultType::Message.media(alloc)?,
        })
    }

    /// Returns the number of parts, from 1 to [`MAX_PARTS`].
    pub fn parts(&self) -> usize
        ensures parts { result ≡ length self.now }
        ensures tree { IsTree self.now }
    {
        self.parts.len()
    }

    /// Returns how many parts are below a part, at any depth. They are the parts right after it.
    ///
    /// # Requires
    ///
    /// The part is in the tree: `part < parts()`.
    pub fn below(&self, part: usize) -> usize
        requires { part < length self.now }
        ensures { HoldsAt (λ p. result ≡ p.below) self.now part }
    {
        self.parts[part].below()
    }

    /// Returns the depth of a part, from 1 to [`MAX_DEPTH`](crate::MAX_DEPTH). The message itself has depth 1, its
    /// children have depth 2.
    ///
    /// # Requires
    ///
    /// The part is in the tree: `part < parts()`.
    pub fn depth(&self, part: usize) -> usize
        requires { part < length self.now }
        ensures { HoldsAt (λ p. result ≡ p.depth) self.now part }
    {
        self.parts[part].depth()
    }

    /// Returns the header of a part.
    ///
    /// # Requires
    ///
    /// The part is in the tree: `part < parts()`.
    pub fn header(&self, part: usize) -> &Header<'a>
        requires { part < length self.now }
        ensures { HoldsAt (λ p. result.now ≡ p.header) self.now part }
    {
        self.parts[part].header()
    }

    /// Returns the bytes of a part, including its header, as they are in the message.
    ///
    /// # Requires
    ///
    /// The part is in the tree: `part < parts()`.
    pub fn raw(&self, part: usize) -> &'a [u8]
        requires { part < length self.now }
        ensures { HoldsAt (λ p. result.now ≡ p.raw) self.now part }
    {
        self.parts[part].raw()
    }

    /// Returns the bytes of a part after its header, as they are encoded.
    ///
    /// # Requires
    ///
    /// The part is in the tree: `part < parts()`.
    pub fn body(&self, part: usize) -> &'a [u8]
        requires { part < length self.now }
        ensures { HoldsAt (λ p. result.now ≡ body_of p) self.now part }
    {
        self.parts[part].body()
    }

    /// Returns the media type of a part with all its parameters: that of its first Content-Type, or its default (RFC
    /// 2045, section 5.2). Each call reads it again, and there can be millions of parameters.
    ///
    /// # Requires
    ///
    /// The part is in the tree: `part < parts()`.
    ///
    /// # Errors
    ///
    /// `AllocError` if memory is refused.
    pub fn media(&self, alloc: Global, part: usize) -> Result<MediaType, AllocError>
        requires { part < length self.now }
        ensures { HoldsAt (λ p. IfOk result (λ media. media ≡ p.media)) self.now part }
    {
        self.parts[part].media(alloc)
    }

    /// Returns the media type of a part without its parameters, which aren't read. It takes no memory.
    ///
    /// # Requires
    ///
    /// The part is in the tree: `part < parts()`.
    pub fn media_without_params(&self, part: usize) -> &MediaType
        requires { part < length self.now }
        ensures { HoldsAt (λ p. result.now ≡ without_params p.media) self.now part }
    {
        self.parts[part].media_without_params(&self.text, &self.message)
    }

    /// Returns the value of the first parameter of a part's media type with this name; `None` if there is none. ASCII
    /// case of the name is ignored. Other parameters aren't kept.
    ///
    /// # Requires
    ///
    /// The part is in the tree: `part < parts()`.
    ///
    /// # Errors
    ///
    /// `AllocError` if memory is refused.
    pub fn media_param(
        &self,
        alloc: Global,
        part: usize,
        name: &[u8],
    ) -> Result<Option<Octets>, AllocError>
        requires { part < length self.now }
        ensures { HoldsAt (λ p. IfOk result (λ value. value ≡ value_named name.now p.media.params))
            self.now part }
    {
        self.parts[part].media_param(alloc, name)
    }

    /// Returns the short texts that the tree keeps for the types of a part's long fields.
    ///
    /// # Requires
    ///
    /// The part is in the tree: `part < parts()`.
    pub fn type_texts(&self, part: usize) -> &TypeTexts
        requires { part < length self.now }
        ensures { HoldsAt (λ p. AreTypeTexts p.header.fields result.now) self.now part }
    {
        self.parts[part].type_texts()
    }

    /// Returns how the body of a part is encoded: as its first Content-Transfer-Encoding says, or 7bit if there is
    /// none (RFC 2045, section 6.1).
    ///
    /// # Requires
    ///
    /// The part is in the tree: `part < parts()`.
    pub fn encoding(&self, part: usize) -> TransferEncoding
        requires { part < length self.now }
        ensures { HoldsAt (λ p. result ≡ p.encoding) self.now part }
    {
        self.parts[part].encoding()
    }
}
