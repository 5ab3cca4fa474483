// Reading keeps no values from block to block. Whole quanta go to the output, and the next block starts where the
// first value is left. A block without stray characters goes as a whole. One whose first stray character is between
// two quanta goes up to it, and on after it. One in which it interrupts a quantum, or with more than three, has its
// values closed up. A quantum that the text's end interrupts goes byte by byte, each looked up in a table of 256
// classes, which the proof computes. Pieces are read by one body: `Held` of octet_lanes keeps the values of an open
// quantum and whether a `=` came, and `Decoder` shows it as the bits left over, less than a byte; `decode_mime` is
// one piece. Every byte that the text up to there determines goes to the output at once, and a refused piece leaves
// decoder and output as they were. `decode_mime` can't know its length beforehand, so its output has room for the
// whole text's bits. Not taken: writing all lanes of a block and cutting the output back (a fifth slower); a quantum
// byte by byte wherever stray characters are many (a sixth of the speed of closing up).
ghost use Rattle.std.specs.Prelude.{◌≡◌, ◌+◌, ◌%◌, ◌<◌, ◌≤◌, ◌++◌, IfOk, OnErr, OnOk, length};
ghost use Rattle.octet_lanes.specs.Encoding.{octets_of};
ghost use Rattle.lanes_base64_mime.specs.MimeBase64.{mime_decoding_of};
ghost use Rattle.lanes_base64_mime.specs.Pieces.{bits_with, kept_with, nothing_kept};

use octet_lanes::{Alphabet, Held};
use std::alloc::{AllocError, Global};
use std::marker::Model;

/// A decoder of a MIME base64 text that comes in pieces. It keeps the bits that are left over after whole bytes, and
/// whether a `=` has come, after which nothing counts.
///
/// Make one with [`Decoder::new`], give it each piece with [`Decoder::feed`], and call [`Decoder::finish`] after the
/// last.
#[derive(Drop)]
pub struct Decoder {
    held: Held,
}

impl Model for Decoder {
    ghost use Rattle.octet_lanes.specs.Held.{IsHeld, kept_bits};
    ghost use Rattle.octet_lanes.specs.declared.alphabet.Alphabet.TheVariants.{Base64};
    ghost use Rattle.lanes_base64_mime.specs.Pieces.{Kept};

    ghost Value = { Kept };

    ghost view = { λ d. record { bits = kept_bits Base64 d.held; ended = d.held.ended } };

    ghost invariant = { λ d. IsHeld Base64 d.held };
}

impl Decoder {
    /// Returns a decoder before the first piece.
    pub fn new() -> Decoder
        ensures { result ≡ nothing_kept }
    {
        Decoder { held: Held::new() }
    }

    /// Decodes a piece: appends the whole bytes of the bits that are kept and of the piece's bits, and keeps the bits
    /// that are left over.
    ///
    /// # Errors
    ///
    /// `AllocError` if memory is refused. The decoder and `out` are then as they were before.
    pub fn feed(&mut self, piece: &[u8], out: &mut Vec<u8>) -> Result<(), AllocError>
        ensures octets { OnOk result (out.new.items ≡ out.old.items ++ octets_of
            (bits_with self.old piece.now)) }
        ensures kept { OnOk result (self.new ≡ kept_with self.old piece.now) }
        ensures refused { OnErr result ((self.new ≡ self.old) × (out.new.items ≡ out.old.items)) }
    {
        self.held.take_in(piece, Alphabet::Base64, out)
    }

    /// Ends the text and returns how many bits were left over: 0, 2, 4 or 6. The decoder drops them.
    pub fn finish(self) -> u8
        ensures number { result ≡ length self.bits }
        ensures even { (result < 8) × (result % 2 ≡ 0) }
    {
        self.held.bits_left(Alphabet::Base64)
    }
}

/// Returns the bytes of a MIME base64 text (RFC 2045, section 6.8): the bits of the base64 symbols before the first
/// `=`, as whole bytes.
///
/// No text is refused: other characters are ignored, and 2, 4 or 6 bits that are left over at the end are dropped.
/// For example, `Zm9v` and `Ym!Fy` on two lines are read as `foobar`.
///
/// # Errors
///
/// `AllocError` if memory is refused.
pub fn decode_mime(alloc: Global, text: &[u8]) -> Result<Vec<u8>, AllocError>
    ensures { IfOk result (λ octets. octets.items ≡ mime_decoding_of text.now) }
{
    let mut out = Vec::with_capacity(alloc, decoding_room(text))?;
    let mut decoder = Decoder::new();
    decoder.feed(text, &mut out)?;
    decoder.finish();
    Ok(out)
}

/// Returns a capacity for the bytes of a text: never less than [`decode_mime`] returns for it, and at most 6 more
/// than the length of the text.
pub fn decoding_room(text: &[u8]) -> usize
    ensures enough { length (mime_decoding_of text.now) ≤ result }
    ensures few { result ≤ length text.now + 6 }
{
    (text.len() / 8 + 1) * 6
}
