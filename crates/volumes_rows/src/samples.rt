// A message, a script and a program that several tests use.

/// A message with an attachment of the name a.txt, whose content is `foobar`.
pub const MESSAGE: &[u8] =
    b"Content-Type: multipart/mixed; boundary=b\n\n--b\nContent-Disposition: attachment; filename=\"a.txt\"\nContent-Transfer-Encoding: base64\n\nZm9vYmFy\n--b--\n";

/// A script that stores the attachments of that name.
pub const SCRIPT: &[u8] =
    b"require [\"foreverypart\", \"mime\", \"vnd.depot\"]; foreverypart { if header :mime :param \"filename\" \"Content-Disposition\" \"a.txt\" { store \"att\"; } } discard;";

/// A program of version 1 that keeps every message.
pub const KEEP: &[u8] = b"SVBC\x01\0\0\0\0\0\0\0\0\0\x02\x13\0\0\0\0\0\0\0\x01\0\0\0\0\0\0\0";
