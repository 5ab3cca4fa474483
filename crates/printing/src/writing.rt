// Values that are printed as one text, and writing such a text to a sink.
ghost use Rattle.std.specs.Prelude.{List, ℕ};
ghost use Rattle.devices.specs.Device.{HasPut};
ghost use Rattle.devices.specs.Pages.{Wrote};
ghost use Rattle.printing.specs.Printed.{line, refusal_line, wrote_text};

use crate::printing::{print_refusal, print_wrote};
use devices::{DeviceFailed, Page, Sink};
use refusals::Refusal;

/// A value that is printed as one text. [`put_printed`] writes it to a sink.
pub trait Printable {
    ghost text: { Self → List ℕ };

    /// Prints the text of the value.
    fn print_on<O: Sink>(&self, page: &mut Page<'_, O>)
        ensures { Wrote (text self.now) page.old page.new };
}

impl Printable for Refusal {
    ghost text = { refusal_line };

    fn print_on<O: Sink>(&self, page: &mut Page<'_, O>) {
        print_refusal(page, self);
    }
}

/// A file that was written, of which its length is printed: for example `wrote 31 octets`.
#[derive(Clone, Copy)]
pub struct WroteFile {
    /// How many bytes it has.
    pub octets: usize,
}

impl Printable for WroteFile {
    ghost text = { λ file. line (wrote_text file.octets) };

    fn print_on<O: Sink>(&self, page: &mut Page<'_, O>) {
        print_wrote(page, self.octets);
    }
}

/// Writes the text of a value, on a page of its own: up to 65,536 bytes are one write.
///
/// # Errors
///
/// `DeviceFailed` if a call of `out` fails; the beginning of the text was written.
pub fn put_printed<P: Printable, O: Sink>(out: &mut O, value: &P) -> Result<(), DeviceFailed>
    ensures { HasPut result (P.text value.now) (O.output out.old) (O.output out.new) }
{
    let mut page = Page::new(out);
    value.print_on(&mut page);
    page.flush()
}
