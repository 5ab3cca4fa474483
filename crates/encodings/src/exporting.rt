// Writing bytes and their texts to a sink.
//
// An export is encoded and written in pieces of 4,560 bytes, a multiple of 3, 5 and 57, so that the texts of the
// pieces, one after another, are the text of the whole. In quoted-printable a piece is a line, and because standard
// output isn't buffered, each line is a system call. So a `1 Memory` can come after some of the text was written.
ghost use Rattle.std.specs.Prelude.{◌≡◌, ◌≢◌, ◌<◌, ◌++◌, length, IfErr, IfOk};
ghost use Rattle.devices.specs.Device.{HasPut, HasPutUnless, HasStopped};
ghost use Rattle.encodings.specs.Texts.{text_of};
ghost use Rattle.encodings.specs.declared.encoding.Encoding.TheVariants.{Qp, Raw};
ghost use Rattle.refusals.specs.declared.refusal.Refusal.TheVariants.{Write};

use crate::encoding::{Encoding, encode};
use devices::{DeviceFailed, Sink, put};
use quoted_printable::encode_qp_line;
use refusals::Refusal;
use std::alloc::{AllocError, Global};

/// How many bytes are encoded and written together: 80 lines of MIME base64 with 57 bytes each, 1,520 groups of 3 bytes
/// or 912 groups of 5. So the texts of such pieces, one after another, are the text of the whole.
const PIECE_OCTETS: usize = 4_560;

/// The length in bytes of the longest line of quoted-printable, with its soft line break.
const LINE_OCTETS: usize = 78;

/// Writes the text of the bytes. At most the text of one piece is in memory: a piece of [`PIECE_OCTETS`] bytes, or a
/// line of quoted-printable.
///
/// # Errors
///
/// The sink has then taken the first of the text.
///
/// - `Write` if a call of the sink fails.
/// - `Memory` if memory is refused; this never happens for [`Encoding::Raw`].
pub fn put_text<W: Sink>(
    alloc: Global,
    encoding: Encoding,
    octets: &[u8],
    writer: &mut W,
) -> Result<(), Refusal>
    ensures put { HasPutUnless HasStopped result (text_of encoding octets.now)
        (W.output writer.old) (W.output writer.new) }
    ensures raw { encoding ≡ Raw → IfErr result (λ e. e ≡ Write) }
{
    match encoding {
        Encoding::Raw => Ok(put_pieces(octets, writer)?),
        Encoding::Qp => put_lines(alloc, octets, writer),
        _ => put_groups(alloc, encoding, octets, writer),
    }
}

// Writes the bytes unchanged, piece by piece.
fn put_pieces<W: Sink>(octets: &[u8], writer: &mut W) -> Result<(), DeviceFailed>
    ensures { HasPut result octets.now (W.output writer.old) (W.output writer.new) }
{
    let mut rest = octets;
    'pieces: while !rest.is_empty() {
        let (piece, after) = rest.split_at(rest.len().min(PIECE_OCTETS));
        put(writer, piece)?;
        rest = after;
    }
    Ok(())
}

// Writes the quoted-printable text of the bytes, line by line.
fn put_lines<W: Sink>(alloc: Global, octets: &[u8], writer: &mut W) -> Result<(), Refusal>
    ensures { HasPutUnless HasStopped result (text_of Qp octets.now) (W.output writer.old)
        (W.output writer.new) }
{
    let mut line = Vec::with_capacity(alloc, LINE_OCTETS)?;
    let mut rest = octets;
    'lines: while !rest.is_empty() {
        line.clear();
        let taken = encode_qp_line(rest, &mut line)?;
        put(writer, &line)?;
        let (_, after) = rest.split_at(taken);
        rest = after;
    }
    Ok(())
}

// Writes the text of the bytes in an encoding other than quoted-printable, piece by piece.
fn put_groups<W: Sink>(
    alloc: Global,
    encoding: Encoding,
    octets: &[u8],
    writer: &mut W,
) -> Result<(), Refusal>
    requires { encoding ≢ Qp }
    ensures { HasPutUnless HasStopped result (text_of encoding octets.now) (W.output writer.old)
        (W.output writer.new) }
{
    let mut rest = octets;
    'pieces: while !rest.is_empty() {
        let (text, after) = first_groups(alloc, encoding, rest)?;
        put(writer, &text)?;
        rest = after;
    }
    Ok(())
}

// The text of the first piece of the bytes, and the bytes after it. The encoding isn't quoted-printable.
fn first_groups<'a>(
    alloc: Global,
    encoding: Encoding,
    octets: &'a [u8],
) -> Result<(Vec<u8>, &'a [u8]), AllocError>
    requires { encoding ≢ Qp }
    ensures text { IfOk result (λ first. text_of encoding octets.now ≡ first.0.items
        ++ text_of encoding first.1.now) }
    ensures shorter { IfOk result
        (λ first. 0 < length octets.now → length first.1.now < length octets.now) }
{
    let (piece, rest) = octets.split_at(octets.len().min(PIECE_OCTETS));
    Ok((encode(alloc, encoding, piece)?, rest))
}
