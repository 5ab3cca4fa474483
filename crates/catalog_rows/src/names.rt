// Names in lines.
use catalog::{Entry, Place, part_line};
use std::alloc::{AllocError, Global};
use std::test::Fail;

const BEFORE_NAME: &[u8] =
    b"{\"folder\":\"Documents\",\"kind\":\"part\",\"media\":\"application/pdf\",\"name\":";

const AFTER_NAME: &[u8] =
    b",\"number\":2,\"octets\":9016,\"of\":[{\"number\":1,\"part\":4}],\"sha256\":\"abababababababababababababababababababababababababababababababab\"}";

// Names, and what lines have for them.
const NAMES: [(&[u8], &[u8]); 8] = [
    (b"", b"\"\""),
    (
        b"\x00\x01\x02\x03\x04\x05\x06\x07\x08\x09\x0a\x0b\x0c\x0d\x0e\x0f\x10\x11\x12\x13\x14\x15\x16\x17\x18\x19\x1a\x1b\x1c\x1d\x1e\x1f !\"#$%&'()*+,-./0123456789:;<=>?@ABCDEFGHIJKLMNOPQRSTUVWXYZ[\\]^_`abcdefghijklmnopqrstuvwxyz{|}~\x7f",
        b"\"\\u0000\\u0001\\u0002\\u0003\\u0004\\u0005\\u0006\\u0007\\b\\t\\n\\u000b\\f\\r\\u000e\\u000f\\u0010\\u0011\\u0012\\u0013\\u0014\\u0015\\u0016\\u0017\\u0018\\u0019\\u001a\\u001b\\u001c\\u001d\\u001e\\u001f !\\\"#$%&'()*+,-./0123456789:;<=>?@ABCDEFGHIJKLMNOPQRSTUVWXYZ[\\\\]^_`abcdefghijklmnopqrstuvwxyz{|}~\x7f\"",
    ),
    (
        b"\x00\x01\x02\x03\x04\x05\x06\x07\x08\x09\x0a\x0b\x0c\x0d\x0e\x0f\x10\x11\x12\x13\x14\x15\x16\x17\x18\x19\x1a\x1b\x1c\x1d\x1e\x1f !\"#$%&'()*+,-./0123456789:;<=>?@ABCDEFGHIJKLMNOPQRSTUVWXYZ[\\]^_`abcdefghijklmnopqrstuvwxyz{|}~\x7f\x80\x81\x82\x83\x84\x85\x86\x87\x88\x89\x8a\x8b\x8c\x8d\x8e\x8f\x90\x91\x92\x93\x94\x95\x96\x97\x98\x99\x9a\x9b\x9c\x9d\x9e\x9f\xa0\xa1\xa2\xa3\xa4\xa5\xa6\xa7\xa8\xa9\xaa\xab\xac\xad\xae\xaf\xb0\xb1\xb2\xb3\xb4\xb5\xb6\xb7\xb8\xb9\xba\xbb\xbc\xbd\xbe\xbf\xc0\xc1\xc2\xc3\xc4\xc5\xc6\xc7\xc8\xc9\xca\xcb\xcc\xcd\xce\xcf\xd0\xd1\xd2\xd3\xd4\xd5\xd6\xd7\xd8\xd9\xda\xdb\xdc\xdd\xde\xdf\xe0\xe1\xe2\xe3\xe4\xe5\xe6\xe7\xe8\xe9\xea\xeb\xec\xed\xee\xef\xf0\xf1\xf2\xf3\xf4\xf5\xf6\xf7\xf8\xf9\xfa\xfb\xfc\xfd\xfe\xff",
        b"{\"base64\":\"AAECAwQFBgcICQoLDA0ODxAREhMUFRYXGBkaGxwdHh8gISIjJCUmJygpKissLS4vMDEyMzQ1Njc4OTo7PD0+P0BBQkNERUZHSElKS0xNTk9QUVJTVFVWV1hZWltcXV5fYGFiY2RlZmdoaWprbG1ub3BxcnN0dXZ3eHl6e3x9fn+AgYKDhIWGh4iJiouMjY6PkJGSk5SVlpeYmZqbnJ2en6ChoqOkpaanqKmqq6ytrq+wsbKztLW2t7i5uru8vb6/wMHCw8TFxsfIycrLzM3Oz9DR0tPU1dbX2Nna29zd3t/g4eLj5OXm5+jp6uvs7e7v8PHy8/T19vf4+fr7/P3+/w==\"}",
    ),
    (b"\xed\xa0\x80\xed\xbf\xbf", b"{\"base64\":\"7aCA7b+/\"}"),
    (b"a\x00b", b"\"a\\u0000b\""),
    (
        b"\xc3\xbcber \xf0\x9f\x98\x80 \xe2\x80\xa8",
        b"\"\xc3\xbcber \xf0\x9f\x98\x80 \xe2\x80\xa8\"",
    ),
    (b"\xc3", b"{\"base64\":\"ww==\"}"),
    (b"\"\\/", b"\"\\\"\\\\/\""),
];

// The line of a part with this name.
fn line_of(alloc: Global, name: &[u8]) -> Result<Vec<u8>, AllocError> {
    let entry = Entry {
        number: 2,
        folder: b"Documents",
        name,
        media: b"application/pdf",
        octets: 9016,
        digest: [0xab; 32],
    };
    part_line(alloc, &entry, &[Place { number: 1, part: 4 }])
}

// What a line has for the name, if nothing else is different.
fn name_in(line: &[u8]) -> Option<&[u8]> {
    match line.strip_prefix(BEFORE_NAME) {
        Some(rest) => rest.strip_suffix(AFTER_NAME),
        None => None,
    }
}

// Whether a line has this text for the name, and nothing else is different.
fn has_name(line: &[u8], want: &[u8]) -> bool {
    match name_in(line) {
        Some(text) => text == want,
        None => false,
    }
}

// Whether the line of a part with this name has this text for it.
fn is_written(alloc: Global, name: &[u8], want: &[u8]) -> Result<bool, AllocError> {
    let line = line_of(alloc, name)?;
    Ok(has_name(&line, want))
}

// Whether all these names are written so.
fn are_written(alloc: Global, names: &[(&[u8], &[u8])]) -> Result<bool, AllocError> {
    for (name, want) in names {
        if !is_written(alloc, name, want)? {
            return Ok(false);
        }
    }
    Ok(true)
}

#[test]
fn names_of_any_bytes(rt: HostRuntime) -> Result<(), Fail> {
    assert!(rt; are_written(rt.alloc(), &NAMES)?);
    Ok(())
}

// Bytes between two texts: one byte so many times.
#[derive(Clone, Copy)]
struct Filled {
    before: &'static [u8],
    octet: u8,
    times: usize,
    after: &'static [u8],
}

// Whether a text is this.
fn is_filled(text: &[u8], want: Filled) -> bool {
    match text.strip_prefix(want.before) {
        Some(rest) => is_filled_before(rest, want),
        None => false,
    }
}

fn is_filled_before(text: &[u8], want: Filled) -> bool {
    match text.strip_suffix(want.after) {
        Some(middle) => is_all(middle, want.octet, want.times),
        None => false,
    }
}

fn is_all(text: &[u8], octet: u8, times: usize) -> bool {
    text.len() == times && text.iter().all(|one| *one == octet)
}

// Whether a line has this for the name, and nothing else is different.
fn has_filled(line: &[u8], want: Filled) -> bool {
    match name_in(line) {
        Some(text) => is_filled(text, want),
        None => false,
    }
}

// The line of a part whose name is 16,384 such bytes.
fn line_of_long(alloc: Global, octet: u8) -> Result<Vec<u8>, AllocError> {
    let name = vec![in alloc; octet; 16384]?;
    line_of(alloc, &name)
}

// Whether a name of 16,384 such bytes is written so.
fn is_long_written(alloc: Global, octet: u8, want: Filled) -> Result<bool, AllocError> {
    let line = line_of_long(alloc, octet)?;
    Ok(has_filled(&line, want))
}

const LETTERS: Filled = Filled {
    before: b"\"",
    octet: b'a',
    times: 16384,
    after: b"\"",
};

const ENCODED: Filled = Filled {
    before: b"{\"base64\":\"",
    octet: b'/',
    times: 21844,
    after: b"/w==\"}",
};

#[test]
fn long_names(rt: HostRuntime) -> Result<(), Fail> {
    assert!(rt; is_long_written(rt.alloc(), b'a', LETTERS)?);
    assert!(rt; is_long_written(rt.alloc(), 255, ENCODED)?);
    Ok(())
}
