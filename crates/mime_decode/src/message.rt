// A message that was read.
//
// A message is its bytes and its parts, in the order in which they begin. Its tree is read at once; contents are
// decoded when they are asked for.
ghost use Rattle.std.specs.Prelude.{◌≡◌, ◌<◌, ◌≤◌, ◌-◌, length, false, IfSome, IfOk, IfErr, IsErrAnd, IsOk};
ghost use Rattle.std.specs.List.{HoldsAt};
ghost use Rattle.std.specs.Cow.{cow_slice_items, IsBorrowedSlice};
ghost use Rattle.octets.specs.Limits.{max_message};
ghost use Rattle.mime_tree.specs.PartTree.{tree_of};
ghost use Rattle.mime_decode.specs.Content.{digest_of, is_decoded};
ghost use Rattle.mime_decode.specs.Mail.{IsMail, IsReadable, mail_of, size_of};
ghost use Rattle.mime_decode.specs.Visited.{numbers_from, visited};
ghost use Rattle.mime_decode.specs.Refusals.{IsMessageRefusal};
ghost use Rattle.mime_tree.specs.declared.error.MessageError.TheVariants.{MessageTooLarge};

use crate::content::{decoded, digest_of};
use mime_params::TransferEncoding;
use mime_tree::{MessageError, Tree};
use std::alloc::{AllocError, Global};
use std::borrow::CowSlice;
use std::marker::Model;
use std::ops::Range;

/// A mail message, over bytes that are lent: bodies aren't copied, and a content is decoded when it is asked for.
///
/// [`Message::read`] makes it. A run of a program takes it, and so does a delivery, which stores the contents of its
/// parts. Parts are numbered from 0; part 0 is the message itself. A contract sees the mail of the definition.
#[derive(Drop)]
pub struct Message<'a> {
    octets: &'a [u8],
    tree: Tree<'a>,
}

impl<'a> Model for Message<'a> {
    ghost use Rattle.std.specs.Prelude.{◌≡◌};
    ghost use Rattle.mime_tree.specs.PartTree.{tree_of};
    ghost use Rattle.mime_decode.specs.Mail.{Mail, IsReadable, mail_of};

    ghost Value = { Mail };

    ghost view = { λ m. mail_of m.octets.now };

    ghost invariant = { λ m. IsReadable m.octets.now × (m.tree ≡ tree_of m.octets.now) };
}

impl<'a> Message<'a> {
    /// Reads bytes as a message. All bytes are a message, unless there are too many of them or of its parts.
    ///
    /// For example, `Content-Transfer-Encoding: base64`, an empty line, `Zm9v` and `YmFy` are a message with one
    /// part, whose content is `foobar`.
    ///
    /// # Errors
    ///
    /// - `MessageError::MessageTooLarge` if there are more than [`MAX_MESSAGE`](crate::MAX_MESSAGE) bytes, whatever
    ///   memory there is.
    /// - `MessageError::TooManyParts` if there aren't, and the message has more than [`MAX_PARTS`](crate::MAX_PARTS)
    ///   parts.
    /// - `MessageError::Memory` if memory is refused.
    pub fn read(alloc: Global, octets: &'a [u8]) -> Result<Message<'a>, MessageError>
        ensures read { IfOk result (λ m. IsReadable octets.now × (m ≡ mail_of octets.now)) }
        ensures mail { IfOk result (λ m. IsMail m) }
        ensures refused { IfErr result (λ e. IsMessageRefusal octets.now e) }
        ensures large { max_message < length octets.now
            → IsErrAnd result (λ e. e ≡ MessageTooLarge) }
    {
        let tree = Tree::read(alloc, octets)?;
        Ok(Message { octets, tree })
    }

    /// Returns the tree of the message's parts.
    pub fn tree(&self) -> &Tree<'a>
        ensures tree { result.now ≡ tree_of self.now.octets }
        ensures mail { self.now ≡ mail_of self.now.octets }
    {
        &self.tree
    }

    /// Returns the number of bytes, at most [`MAX_MESSAGE`](crate::MAX_MESSAGE).
    pub fn size(&self) -> usize
        ensures value { result ≡ size_of self.now }
        ensures mail { IsMail self.now }
    {
        self.octets.len()
    }

    /// Returns the number of parts, from 1 to [`MAX_PARTS`](crate::MAX_PARTS).
    pub fn parts(&self) -> usize
        ensures value { result ≡ length self.now.parts }
        ensures mail { IsMail self.now }
    {
        self.tree.parts()
    }

    /// Returns the numbers of the parts that a loop visits: the parts below `part`, or all parts if `part` is `None`,
    /// which means that the loop isn't inside another one (RFC 5703, section 3).
    ///
    /// # Requires
    ///
    /// The part, if there is one, is in the message: `part < parts()`.
    pub fn visited(&self, part: Option<usize>) -> Range<usize>
        requires { IfSome part (λ part. part < length self.now.parts) }
        ensures parts { numbers_from result.start (result.end - result.start)
            ≡ visited part self.now }
        ensures within { result.end ≤ length self.now.parts }
        ensures ordered { result.start ≤ result.end }
        ensures mail { IsMail self.now }
    {
        match part {
            None => 0..self.parts(),
            Some(part) => {
                let first = part + 1;
                first..first + self.tree.below(part)
            }
        }
    }

    /// Returns how the body of a part is encoded (RFC 2045, section 6.1).
    ///
    /// # Requires
    ///
    /// The part is in the message: `part < parts()`.
    pub fn encoding(&self, part: usize) -> TransferEncoding
        requires { part < length self.now.parts }
        ensures { HoldsAt (λ p. result ≡ p.encoding) self.now.parts part }
    {
        self.tree.encoding(part)
    }

    /// Returns the content of a part: its body, decoded (RFC 2045, section 6).
    ///
    /// A body that isn't in base64 or quoted-printable is lent, and takes no memory.
    ///
    /// # Requires
    ///
    /// The part is in the message: `part < parts()`.
    ///
    /// # Errors
    ///
    /// `AllocError` if memory is refused; never if the body isn't in base64 or quoted-printable.
    pub fn content(&self, alloc: Global, part: usize) -> Result<CowSlice<'a, u8>, AllocError>
        requires { part < length self.now.parts }
        ensures content { HoldsAt (λ p. IfOk result (λ content. cow_slice_items content
            ≡ p.content)) self.now.parts part }
        ensures lent { HoldsAt (λ p. is_decoded p.encoding ≡ false
            → IfOk result (λ content. IsBorrowedSlice content)) self.now.parts part }
        ensures no_memory { HoldsAt (λ p. is_decoded p.encoding ≡ false
            → IsOk result) self.now.parts part }
    {
        decoded(alloc, self.tree.encoding(part), self.tree.body(part))
    }

    /// Returns the digest of a part's content: its SHA-256 as 64 hexadecimal digits in lower case (FIPS 180-4; RFC
    /// 4648, section 8).
    ///
    /// # Requires
    ///
    /// The part is in the message: `part < parts()`.
    ///
    /// # Errors
    ///
    /// `AllocError` if memory is refused; never if the body isn't in base64 or quoted-printable.
    pub fn digest(&self, alloc: Global, part: usize) -> Result<[u8; 64], AllocError>
        requires { part < length self.now.parts }
        ensures digest { HoldsAt (λ p. IfOk result (λ digest. digest ≡ digest_of p.content))
            self.now.parts part }
        ensures no_memory { HoldsAt (λ p. is_decoded p.encoding ≡ false
            → IsOk result) self.now.parts part }
    {
        let content = self.content(alloc, part)?;
        Ok(digest_of(content.as_slice()))
    }
}
