// A line of the list. Bytes outside printable ASCII, and the backslash, are spelled, so no two entries have the same line. Where it is
// asked for, UTF-8 is printed as it is.
use digits::hex::encode;
use slices::part::part_of;
use utf8::character::character_length;

// Puts a byte at the index, where there is room, and answers the next index.
fn put(out: &mut [u8], at: usize, byte: u8) -> usize {
    if at < out.len() {
        out[at] = byte;
        return at + 1;
    }
    at
}

// The same with several bytes.
fn put_each(out: &mut [u8], at: usize, bytes: &[u8]) -> usize {
    let mut next = at;
    for byte in bytes {
        next = put(out, next, *byte);
    }
    next
}

fn put_escaped(out: &mut [u8], at: usize, byte: u8) -> usize {
    match byte {
        b'\\' => put_each(out, at, b"\\\\"),
        b' '..=b'~' => put(out, at, byte),
        _ => {
            let mut digits = [0; 2];
            let _ = encode(&[byte], &mut digits);
            put_each(out, at, &[b'\\', b'x', digits[0], digits[1]])
        }
    }
}

// How many bytes from here on are printed as they are: what is left of a character, or the one that starts here.
fn plain_at(rest: &[u8], left: usize, utf8: bool) -> usize {
    if (left == 0) & utf8 {
        return character_length(rest).unwrap_or(0);
    }
    left
}

// Puts bytes as they are shown, from an index on, and answers the next index.
pub(crate) fn put_all(out: &mut [u8], from: usize, bytes: &[u8], utf8: bool) -> usize {
    let mut at = from;
    let mut left: usize = 0;
    for (i, byte) in bytes.iter().enumerate() {
        let plain = plain_at(part_of(bytes, i, 4), left, utf8);
        at = if plain == 0 {
            put_escaped(out, at, *byte)
        } else {
            put(out, at, *byte)
        };
        left = plain.saturating_sub(1);
    }
    at
}

// An entry and what ends it, at the buffer's start: how long that is.
pub(crate) fn line_of(key: &[u8], value: &[u8], utf8: bool, last: u8, out: &mut [u8]) -> usize {
    let a = put_all(out, 0, key, utf8);
    let b = put(out, a, b'\t');
    let c = put_all(out, b, value, utf8);
    put(out, c, last)
}
