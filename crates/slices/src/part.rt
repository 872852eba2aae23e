// Parts of lent bytes: any part can be asked for, and bytes are put over a part as far as they fit.
ghost use Rattle.std.specs.Prelude.{◌≡◌, length, take, drop};
ghost use Rattle.slices.specs.Parts.{part_to};
ghost use Rattle.slices.specs.Patch.{over, patch, blank};

use std::cmp::Ord;

// At most `count` bytes starting at `from`; fewer if the slice ends first.
pub fn part_of(bytes: &[u8], from: usize, count: usize) -> &[u8]
    ensures answers { result.now ≡ take count (drop from bytes.now) }
{
    let start = from.min(bytes.len());
    let end = start + count.min(bytes.len().saturating_sub(start));
    &bytes[start..end]
}

// The bytes from `from` up to `to`, as far as they are there.
#[tactic(auto, unfolding(crate::specs::Parts::part_to))]
pub fn part_to(bytes: &[u8], from: usize, to: usize) -> &[u8]
    ensures answers { result.now ≡ part_to bytes.now from to }
{
    part_of(bytes, from, to.saturating_sub(from))
}

// Puts the bytes over the part's start, as far as they fit.
pub fn put(part: &mut [u8], bytes: &[u8])
    ensures bytes { part.new ≡ over bytes.now part.old }
{
    // Byte by byte: the library's copy becomes a memmove, which an archive for C would need from outside.
    let n = bytes.len().min(part.len());
    for i in 0..n {
        part[i] = bytes[i];
    }
}

// Puts the bytes into the buffer from an index on, as far as they fit.
pub fn put_at(buffer: &mut [u8], at: usize, bytes: &[u8])
    ensures bytes { buffer.new ≡ patch at bytes.now buffer.old }
{
    let from = at.min(buffer.len());
    put(&mut buffer[from..], bytes);
}

// Sets every byte of the part.
#[tactic(auto, unfolding(crate::specs::Patch::blank))]
pub fn wipe(part: &mut [u8], value: u8)
    ensures bytes { part.new ≡ blank value (length part.old) }
{
    part.fill(value);
}
