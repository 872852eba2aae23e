// Opening a page, to write it anew or to add to it.
ghost use Rattle.std.specs.Prelude.{◌≡◌, length};
ghost use Rattle.types.specs.Build.{erase_value};
ghost use Rattle.writer.specs.Openings.{anew, behind, replaced_by, opened, resume_at, appended};

use crate::answers::Ended;
use crate::page_writer::PageWriter;
use flash::geometry::page_of;
use page::checks::check_open;
use page::walk::{all_erased, walk_end};
use slices::part::part_of;
use types::config::{ERASE_VALUE, PAGE_HEADER_SIZE, PAGE_SIZE};
use types::page_id::PageID;
use types::refusal::Refusal;

// The offset at which a page whose chunks end at `end` is added to.
fn resume_at(page: &[u8], end: usize) -> usize
    ensures answers { result ≡ resume_at erase_value page.now end }
{
    if all_erased(part_of(page, end, page.len()), ERASE_VALUE) {
        end
    } else {
        PAGE_SIZE
    }
}

// A writer that writes a page anew. The page is erased before the first store.
#[tactic(auto, using(crate::proofs::OpeningLaws::open_small), unfolding(crate::specs::Openings::anew))]
fn anew(flash: &[u8], page: PageID, h: usize) -> Result<PageWriter, Refusal>
    ensures answers { result ≡ anew (length flash.now) page h }
{
    check_open(flash.len(), h, page)?;
    Ok(PageWriter::fresh(true, page, h, PAGE_HEADER_SIZE + h))
}

// A writer behind the chunks that a page has.
#[tactic(auto, using(crate::proofs::OpeningLaws::open_small), unfolding(crate::specs::Openings::behind))]
fn behind(flash: &[u8], page: PageID, h: usize) -> Result<PageWriter, Refusal>
    ensures answers { result ≡ behind erase_value flash.now page h }
{
    check_open(flash.len(), h, page)?;
    let bytes = page_of(flash, page);
    let end = walk_end(bytes, PAGE_HEADER_SIZE + h)?;
    Ok(PageWriter::fresh(false, page, h, resume_at(bytes, end)))
}

impl PageWriter {
    // The writer that an opening made, or this one where it is refused.
    fn replaced_by(self, made: Result<PageWriter, Refusal>, left: usize) -> Ended<()>
        ensures answers { result ≡ replaced_by self left made }
    {
        match made {
            Ok(writer) => writer.answers(Ok(()), left),
            Err(why) => self.answers(Err(why), left),
        }
    }

    // Opens a page to write it anew. It is erased before the first store.
    #[tactic(auto, using(crate::proofs::OpeningLaws::open_replaced))]
    pub fn open(self, flash: &[u8], page: PageID, h: usize, left: usize) -> Ended<()>
        ensures answers { result ≡ opened flash.now page h self left }
    {
        self.replaced_by(anew(flash, page, h), left)
    }

    // Opens a page to add chunks behind those that it has.
    #[tactic(auto, using(crate::proofs::OpeningLaws::append_replaced))]
    pub fn open_append(self, flash: &[u8], page: PageID, h: usize, left: usize) -> Ended<()>
        ensures answers { result ≡ appended erase_value flash.now page h self left }
    {
        self.replaced_by(behind(flash, page, h), left)
    }
}
