// Finishing a chunk.
ghost use Rattle.std.specs.Prelude.{◌≡◌, cond, true, [], length};
ghost use Rattle.types.specs.Build.{erase_value};
ghost use Rattle.flash.specs.Geometry.{page_start};
ghost use Rattle.flash.specs.Operations.{spent, allowed, all_lie_on};
ghost use Rattle.writer.specs.Commits.{chunk_ops, next_chunk};
ghost use Rattle.writer.specs.States.{Small};
ghost use Rattle.writer.specs.Duties.{commit_duty, hands_back, leaves};

use crate::answers::Ended;
use crate::checks::check_writer;
use crate::outcome::ended_by;
use crate::page_writer::PageWriter;
use crc::register::Crc32;
use flash::ops::{Spent, erase_if, store_if};
use page::chunk::{align_up, chunk_header};
use types::config::{ALIGN, CHUNK_HEADER_SIZE, ERASE_VALUE};

// The operations that finish a chunk, if that is due. They lie on the flash. If one is cut, none is left, so the later ones make
// nothing.
pub(crate) fn finish_chunk(due: bool, w: PageWriter, flash: &mut [u8], left: usize) -> Spent
    requires small { Small w }
    requires w_value { all_lie_on (length flash.old) w.page.0 (cond due (chunk_ops erase_value w) []) ≡ true }
    ensures answers { result ≡ spent left (cond due (chunk_ops erase_value w) []) }
    ensures bytes { flash.new ≡ allowed (page_start w.page.0) left (cond due (chunk_ops erase_value w) []) flash.old }
{
    let page = w.page;
    let rest = w.pending % ALIGN;
    let at = w.offset + CHUNK_HEADER_SIZE + (w.pending - rest);
    let head = chunk_header(w.pending as u16, Crc32(w.crc).finish());
    let a = erase_if(due & w.armed, flash, page, ERASE_VALUE, left);
    let b = store_if(due & (rest != 0), flash, page, at, &w.buf, a.left);
    let c = store_if(due, flash, page, w.offset, &head, b.left);
    Spent {
        ok: a.ok & b.ok & c.ok,
        left: c.left,
    }
}

// The writer after a finished chunk.
pub(crate) fn next_chunk(w: PageWriter) -> PageWriter
    requires small { Small w }
    ensures answers { result ≡ next_chunk w }
{
    let end = w.offset + CHUNK_HEADER_SIZE + w.pending;
    PageWriter {
        armed: false,
        crc: Crc32::new().0,
        offset: align_up(end as u32),
        pending: 0,
        ..w
    }
}

impl PageWriter {
    // Makes the pending bytes a chunk.
    #[tactic(auto, using(crate::proofs::CheckLaws::checked_small))]
    pub fn commit(self, flash: &mut [u8], left: usize) -> Ended<()>
        ensures answers { result ≡ hands_back (commit_duty erase_value flash.old self) self left }
        ensures bytes { flash.new ≡ leaves (commit_duty erase_value flash.old self) self left flash.old }
    {
        if let Err(why) = check_writer(flash.len(), self) {
            return self.answers(Err(why), left);
        }
        if self.pending == 0 {
            return self.answers(Ok(()), left);
        }
        let stores = finish_chunk(true, self, flash, left);
        ended_by(stores, (), next_chunk(self), self)
    }
}
