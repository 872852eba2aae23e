// The walk over a page's chunks, as a new reader makes it (`found-is-walk`).
use crate::line::{line_end, number, text};
use page::chunk::checked_at;
use page::walk::all_erased;
use slices::part::part_of;
use std::cmp::Ord;
use std::io;
use types::config::{ERASE_VALUE, MAX_HEADER_SIZE, PAGE_HEADER_SIZE, PAGE_SIZE};
use types::refusal::{Corrupted, Refusal};

// More steps than a page has chunks.
pub(crate) const STEPS: usize = 512;

#[derive(Clone, Copy)]
pub(crate) struct Walk {
    chunks: usize,
    bytes: usize,
    // Where the walk ends, and whether it is refused there.
    pub at: usize,
    end: Result<(), Corrupted>,
}

// Where the chunks start behind a higher header of h bytes.
pub(crate) fn chunks_start(h: usize) -> usize {
    PAGE_HEADER_SIZE + h.min(MAX_HEADER_SIZE)
}

pub(crate) fn walked(page: &[u8], start: usize) -> Walk {
    let mut walk = Walk {
        chunks: 0,
        bytes: 0,
        at: start,
        end: Ok(()),
    };
    for _ in 0..STEPS {
        match checked_at(page, walk.at) {
            Ok(None) => return walk,
            Err(why) => {
                walk.end = Err(why);
                return walk;
            }
            Ok(Some(chunk)) => {
                walk.chunks += 1;
                walk.bytes += chunk.len.min(PAGE_SIZE);
                walk.at = chunk.next;
            }
        }
    }
    walk
}

pub(crate) fn say_walk(rt: &HostRuntime, page: &[u8], walk: Walk) -> io::Result<()> {
    text(rt, b"chunks ");
    number(rt, walk.chunks);
    text(rt, b", bytes ");
    number(rt, walk.bytes);
    text(rt, b", ");
    if let Err(why) = walk.end {
        let _ = rt.print(Refusal::from(why));
        text(rt, b" at ");
        number(rt, walk.at);
        return line_end(rt, b"\n");
    }
    text(rt, b"end at ");
    number(rt, walk.at);
    if all_erased(part_of(page, walk.at, PAGE_SIZE), ERASE_VALUE) {
        return line_end(rt, b"\n");
    }
    line_end(rt, b", not erased behind it\n")
}
