// How a reader moves on its page. It checks the sum of a chunk when it arrives there; rehydrate_from checks that of a kept reader again.
ghost use Rattle.std.specs.Prelude.{◌≡◌, ◌+◌, ◌^◌, ◌<◌};
ghost use Rattle.types.specs.Build.{chunk_header_size};
ghost use Rattle.page.specs.Chunks.{checked_at};
ghost use Rattle.reader.specs.Moves.{Whole, arriving, moved, ready, rest_of, past, skipped};

use crate::page_reader::PageReader;
use page::chunk::{align_up, checked_at, payload_at};
use slices::part::part_of;
use types::config::CHUNK_HEADER_SIZE;
use types::refusal::Corrupted;

// The reader after a skip, and how many of the bytes were missing.
#[derive(Clone, Copy)]
pub(crate) struct Passed {
    pub reader: PageReader,
    pub left: usize,
}

// Moves the reader to `at`: the start of a chunk, or the end of the page's chunks. The reader goes in and out by value, so that a call
// that is not inlined copies it at every chunk.
#[inline(always)]
pub(crate) fn arriving(r: PageReader, page: &[u8], at: usize) -> Result<PageReader, Corrupted>
    ensures answers { result ≡ arriving r at (checked_at page.now at) }
{
    Ok(match checked_at(page, at)? {
        None => PageReader {
            ended: true,
            offset: at,
            ..r
        },
        Some(chunk) => PageReader {
            page: r.page,
            ended: false,
            offset: at,
            len: chunk.len,
            crc: chunk.crc,
            position: 0,
        },
    })
}

// Moves the reader to the chunk after its own.
fn moved(r: PageReader, page: &[u8]) -> Result<PageReader, Corrupted>
    requires { r.offset + chunk_header_size + r.len < 2 ^ 32 }
    ensures answers { result ≡ moved page.now r }
{
    arriving(
        r,
        page,
        align_up((r.offset + CHUNK_HEADER_SIZE + r.len) as u32),
    )
}

// Makes the reader ready to read: if its chunk is used up, it moves to the next one, once.
#[tactic(auto, unfolding(crate::specs::Moves::ready))]
pub(crate) fn ready(r: PageReader, page: &[u8]) -> Result<PageReader, Corrupted>
    requires { Whole r }
    ensures answers { result ≡ ready page.now r }
{
    if !r.ended && r.position == r.len {
        moved(r, page)
    } else {
        Ok(r)
    }
}

// What is left of the present chunk's payload.
pub(crate) fn rest_of(page: &[u8], r: PageReader) -> &[u8]
    ensures answers { result.now ≡ rest_of page.now r }
{
    let payload = payload_at(page, r.offset, r.len);
    if r.ended {
        part_of(payload, 0, 0)
    } else {
        part_of(payload, r.position, payload.len())
    }
}

// The reader n bytes further in its chunk.
pub(crate) fn past(r: PageReader, n: usize) -> PageReader
    requires { r.position + n < 2 ^ 64 }
    ensures answers { result ≡ past r n }
{
    PageReader {
        position: r.position + n,
        ..r
    }
}

// Passes `count` bytes, or goes to the end.
pub(crate) fn skipped(reader: PageReader, page: &[u8], count: usize) -> Result<Passed, Corrupted>
    requires { Whole reader }
    ensures answers { result ≡ skipped page.now count reader }
{
    let mut r = reader;
    let mut want = count;
    loop {
        if r.ended {
            return Ok(Passed {
                reader: r,
                left: want,
            });
        }
        let left = rest_of(page, r).len();
        if want <= left {
            return Ok(Passed {
                reader: past(r, want),
                left: 0,
            });
        }
        r = moved(past(r, left), page)?;
        want -= left;
    }
}
