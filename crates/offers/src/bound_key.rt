// A bound's key, as an argument has it: \xNN is a byte, \\ a backslash, any other byte itself.
use desk::arguments::ARGUMENT_ROOM;
use desk::say::{Said, wrong};
use digits::hex::decode;
use slices::part::part_of;
use std::env::Env;
use std::ops::Bound;

// One byte, and how many bytes of the argument tell it.
#[derive(Clone, Copy)]
struct Spelled {
    byte: u8,
    used: usize,
}

fn spelled_in_hex(digits: &[u8]) -> Option<Spelled> {
    let mut byte = [0; 1];
    decode(digits, &mut byte).ok()?;
    Some(Spelled {
        byte: byte[0],
        used: 4,
    })
}

// What stands at the start of the rest of a key.
fn first_of(rest: &[u8]) -> Option<Spelled> {
    match rest {
        [b'\\', b'\\', ..] => Some(Spelled {
            byte: b'\\',
            used: 2,
        }),
        [b'\\', b'x', high, low, ..] => spelled_in_hex(&[*high, *low]),
        [] | [b'\\', ..] => None,
        [byte, ..] => Some(Spelled {
            byte: *byte,
            used: 1,
        }),
    }
}

fn unescape(text: &[u8], out: &mut [u8]) -> Option<usize> {
    let mut rest = text;
    for (n, place) in out.iter_mut().enumerate() {
        if rest.is_empty() {
            return Some(n);
        }
        let Spelled { byte, used } = first_of(rest)?;
        *place = byte;
        rest = part_of(rest, used, rest.len());
    }
    if rest.is_empty() {
        Some(out.len())
    } else {
        None
    }
}

// The key of an end of the list, at the buffer's start; no bytes where there is no end.
pub(crate) fn key_of(rt: &HostRuntime, end: Bound<usize>, out: &mut [u8]) -> Result<usize, Said> {
    let (Bound::Included(key) | Bound::Excluded(key)) = end else {
        return Ok(0);
    };
    let mut space = [0; ARGUMENT_ROOM];
    let Ok(n) = rt.arg(key, &mut space) else {
        wrong(
            rt,
            b"offers",
            b"a key is longer than 4096 bytes",
            part_of(&space, 0, 60),
        );
        return Err(Said);
    };
    let text = &space[..n];
    unescape(text, out).ok_or_else(|| {
        wrong(
            rt,
            b"offers",
            b"a backslash in a key is \\\\, or \\x and two of 0-9a-f",
            text,
        );
        Said
    })
}
