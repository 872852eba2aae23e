// Taking bytes.
ghost use Rattle.std.specs.Prelude.{◌≡◌, true, ◌+◌, ◌≤◌, length};
ghost use Rattle.types.specs.Build.{page_size, max_chunk_size, erase_value};
ghost use Rattle.flash.specs.Geometry.{page_start};
ghost use Rattle.flash.specs.Operations.{spent, allowed, all_lie_on};
ghost use Rattle.writer.specs.States.{Small};
ghost use Rattle.writer.specs.Duties.{write_duty, hands_back, leaves};
ghost use Rattle.writer.specs.Outcomes.{wrote};
ghost use Rattle.writer.specs.Writes.{takes, grown, closed, taking_ops};

use crate::answers::Ended;
use crate::checks::check_writer;
use crate::commit::{finish_chunk, next_chunk};
use crate::group::{buffer_of, group_of, lacking, to_group, to_whole};
use crate::outcome::ended_by;
use crate::page_writer::PageWriter;
use crc::register::Crc32;
use flash::ops::{Spent, erase_if, store_if};
use slices::part::part_of;
use types::config::{ALIGN, CHUNK_HEADER_SIZE, ERASE_VALUE, MAX_CHUNK_SIZE, PAGE_SIZE};

// How many of n bytes are taken.
fn takes(n: usize, w: PageWriter) -> usize
    requires small { Small w }
    ensures answers { result ≡ takes n w }
{
    let page = PAGE_SIZE.saturating_sub(w.offset + CHUNK_HEADER_SIZE + w.pending);
    let chunk = MAX_CHUNK_SIZE - w.pending;
    n.min(page.min(chunk))
}

// The writer after it took these bytes.
fn grown(w: PageWriter, bytes: &[u8]) -> PageWriter
    requires total_le_page_size { w.total ≤ page_size }
    requires bytes_bound { w.pending + length bytes.now ≤ max_chunk_size }
    ensures answers { result ≡ grown w bytes.now }
{
    PageWriter {
        armed: false,
        crc: Crc32(w.crc).update(bytes).0,
        buf: buffer_of(w, bytes),
        total: w.total + bytes.len(),
        pending: w.pending + bytes.len(),
        ..w
    }
}

// The writer after its chunk, if that is full.
fn closed(w: PageWriter) -> PageWriter
    requires small { Small w }
    ensures answers { result ≡ closed w }
{
    if w.pending == MAX_CHUNK_SIZE {
        next_chunk(w)
    } else {
        w
    }
}

// The operations of a write that takes these bytes, where `next` is the writer with them. They lie on the flash. If one is cut, none
// is left, so the later ones make nothing.
fn take_bytes(w: PageWriter, next: PageWriter, flash: &mut [u8], bytes: &[u8], left: usize) -> Spent
    requires small { Small next }
    requires next_value { next ≡ grown w bytes.now }
    requires bytes_value { all_lie_on (length flash.old) w.page.0 (taking_ops erase_value w bytes.now) ≡ true }
    ensures answers { result ≡ spent left (taking_ops erase_value w bytes.now) }
    ensures bytes { flash.new ≡ allowed (page_start w.page.0) left (taking_ops erase_value w bytes.now) flash.old }
{
    let n = bytes.len();
    let page = w.page;
    let lack = lacking(w);
    let first = to_group(w, n);
    let many = to_whole(w, n);
    let group = group_of(w, bytes);
    let from = w.offset + CHUNK_HEADER_SIZE;
    let a = erase_if(w.armed, flash, page, ERASE_VALUE, left);
    let b = store_if(
        (lack != 0) & (lack <= n),
        flash,
        page,
        from + (w.pending - w.pending % ALIGN),
        &group,
        a.left,
    );
    let c = store_if(
        many != 0,
        flash,
        page,
        from + (w.pending + first),
        part_of(bytes, first, many),
        b.left,
    );
    let d = finish_chunk(next.pending == MAX_CHUNK_SIZE, next, flash, c.left);
    Spent {
        ok: a.ok & b.ok & c.ok & d.ok,
        left: d.left,
    }
}

impl PageWriter {
    // Takes as many of the bytes as there is room for.
    #[tactic(auto, using(crate::proofs::CheckLaws::checked_small))]
    pub fn write(self, flash: &mut [u8], bytes: &[u8], left: usize) -> Ended<usize>
        ensures answers { result ≡ wrote (takes (length bytes.now) self) (hands_back (write_duty erase_value flash.old self bytes.now) self left) }
        ensures bytes { flash.new ≡ leaves (write_duty erase_value flash.old self bytes.now) self left flash.old }
    {
        if let Err(why) = check_writer(flash.len(), self) {
            return self.answers(Err(why), left);
        }
        let n = takes(bytes.len(), self);
        if n == 0 {
            return self.answers(Ok(n), left);
        }
        let part = &bytes[..n];
        let next = grown(self, part);
        let stores = take_bytes(self, next, flash, part, left);
        ended_by(stores, n, closed(next), self)
    }
}
