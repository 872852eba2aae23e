// The chunk header: mark, length and sum of the payload that follows it.
ghost use Rattle.std.specs.Prelude.{◌≡◌};
ghost use Rattle.page.specs.Chunks.{align_up, chunk_header, chunk_at, payload_at, checked_at};

use crc::crc32;
use slices::field::{get16, get32, put16, put32};
use slices::part::part_of;
use types::config::{ALIGN, CHUNK_HEADER_SIZE, MAX_CHUNK_SIZE, PAGE_SIZE};
use types::refusal::Corrupted;

pub const CHUNK_MAGIC: u16 = 0x59C5;

// A chunk: its length, its sum, and where the next one starts.
#[derive(Clone, Copy)]
pub struct ChunkAt {
    pub len: usize,
    pub crc: u32,
    pub next: usize,
}

// What stands at an offset of a page: a chunk, or none where the page's chunks end. It is refused where a chunk's length cannot be, its
// payload is not all there, or its sum is wrong.
pub type Step = Result<Option<ChunkAt>, Corrupted>;

// A number of bytes rounded up to whole groups.
pub fn align_up(n: u32) -> usize
    ensures answers { result ≡ align_up n }
{
    (n as usize + (ALIGN - 1)) / ALIGN * ALIGN
}

// The header of a chunk of this length and sum.
#[tactic(auto, unfolding(crate::specs::Chunks::chunk_header, types::specs::Bytes::bytes_of))]
pub fn chunk_header(len: u16, crc: u32) -> [u8; CHUNK_HEADER_SIZE]
    ensures answers { result ≡ chunk_header len crc }
{
    let m = put16(CHUNK_MAGIC);
    let n = put16(len);
    let s = put32(crc);
    [m[0], m[1], n[0], n[1], s[0], s[1], s[2], s[3]]
}

// What stands at an offset, by the chunk's header alone.
#[tactic(auto, unfolding(crate::specs::Chunks::chunk_at))]
pub fn chunk_at(page: &[u8], at: usize) -> Step
    ensures answers { result ≡ chunk_at page.now at }
{
    if PAGE_SIZE - CHUNK_HEADER_SIZE < at {
        return Ok(None);
    }
    if page.len() < at + CHUNK_HEADER_SIZE {
        return Ok(None);
    }
    if get16(page, at) != CHUNK_MAGIC {
        return Ok(None);
    }
    let len = get16(page, at + 2) as usize;
    if MAX_CHUNK_SIZE < len {
        return Err(Corrupted);
    }
    let end = at + CHUNK_HEADER_SIZE + len;
    if PAGE_SIZE < end {
        return Err(Corrupted);
    }
    if page.len() < end {
        return Err(Corrupted);
    }
    Ok(Some(ChunkAt {
        len,
        crc: get32(page, at + 4),
        next: align_up(end as u32),
    }))
}

// The payload of a chunk at an offset.
pub fn payload_at(page: &[u8], at: usize, len: usize) -> &[u8]
    ensures answers { result.now ≡ payload_at page.now at len }
{
    part_of(part_of(page, at, page.len()), CHUNK_HEADER_SIZE, len)
}

// What stands at an offset, by the chunk's header and then its sum. Inlined, so that nothing is copied at every chunk.
#[tactic(auto, unfolding(crate::specs::Chunks::checked_at))]
#[inline(always)]
pub fn checked_at(page: &[u8], at: usize) -> Step
    ensures answers { result ≡ checked_at page.now at }
{
    let Some(chunk) = chunk_at(page, at)? else {
        return Ok(None);
    };
    let payload = payload_at(page, at, chunk.len);
    if payload.len() == chunk.len && crc32(payload) == chunk.crc {
        Ok(Some(chunk))
    } else {
        Err(Corrupted)
    }
}
