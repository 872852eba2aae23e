// The group buffer: bytes that are too few for a store wait in it.
ghost use Rattle.std.specs.Prelude.{◌≡◌};
ghost use Rattle.slices.specs.Patch.{patch};
ghost use Rattle.writer.specs.Writes.{lacking, to_group, to_whole, group_of, buffer_of};

use crate::page_writer::PageWriter;
use slices::part::put_at;
use types::config::ALIGN;

// How many bytes complete the current group.
pub(crate) fn lacking(w: PageWriter) -> usize
    ensures answers { result ≡ lacking w }
{
    (ALIGN - w.pending % ALIGN) % ALIGN
}

// How many of n bytes go to that group.
pub(crate) fn to_group(w: PageWriter, n: usize) -> usize
    ensures answers { result ≡ to_group w n }
{
    lacking(w).min(n)
}

// How many of n bytes go to the whole groups behind it.
pub(crate) fn to_whole(w: PageWriter, n: usize) -> usize
    ensures answers { result ≡ to_whole w n }
{
    (n - to_group(w, n)) / ALIGN * ALIGN
}

// The buffer with bytes put into it, as far as they fit.
fn filled(buf: [u8; ALIGN], at: usize, bytes: &[u8]) -> [u8; ALIGN]
    ensures answers { result ≡ patch at bytes.now buf }
{
    let mut b = buf;
    put_at(&mut b, at, bytes);
    b
}

// The current group with the first bytes in it.
#[tactic(auto, unfolding(crate::specs::Writes::group_of))]
pub(crate) fn group_of(w: PageWriter, bytes: &[u8]) -> [u8; ALIGN]
    ensures answers { result ≡ group_of w bytes.now }
{
    let n = to_group(w, bytes.len());
    filled(w.buf, w.pending % ALIGN, &bytes[..n])
}

// The group buffer after the whole groups are stored: the bytes left over are in it.
#[tactic(auto, using(crate::proofs::GroupLaws::take_rest, crate::proofs::GroupLaws::patch_start), unfolding(crate::specs::Writes::buffer_of))]
pub(crate) fn buffer_of(w: PageWriter, bytes: &[u8]) -> [u8; ALIGN]
    ensures answers { result ≡ buffer_of w bytes.now }
{
    let n = bytes.len();
    let from = to_group(w, n) + to_whole(w, n);
    filled(group_of(w, bytes), 0, &bytes[from..])
}
