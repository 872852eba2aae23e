// The range of a reader, and the checks before a call's work, in their order, 5, 11, 4 (docs/RULES.md, Ranges, Order of checks).
ghost use Rattle.std.specs.Prelude.{◌≡◌};
ghost use Rattle.reader.specs.Checks.{in_range, chunk_in_range, state_check, reader_check};

use crate::page_reader::PageReader;
use flash::geometry::check_flash;
use page::checks::check_page;
use types::config::{ALIGN, CHUNK_HEADER_SIZE, MAX_PAGE_COUNT, PAGE_HEADER_SIZE, PAGE_SIZE};
use types::refusal::Refusal;

fn chunk_in_range(offset: usize, len: usize, position: usize) -> bool
    ensures answers { result ≡ chunk_in_range offset len position }
{
    let last = PAGE_SIZE - CHUNK_HEADER_SIZE;
    offset % ALIGN == 0
        && PAGE_HEADER_SIZE <= offset
        && offset <= last
        && len <= last - offset
        && position <= len
}

fn in_range(r: PageReader) -> bool
    ensures answers { result ≡ in_range r }
{
    r.page.index() < MAX_PAGE_COUNT && (r.ended || chunk_in_range(r.offset, r.len, r.position))
}

pub(crate) fn check_state(r: PageReader) -> Result<(), Refusal>
    ensures answers { result ≡ state_check r }
{
    if in_range(r) {
        Ok(())
    } else {
        Err(Refusal::BadState)
    }
}

#[tactic(auto, unfolding(crate::specs::Checks::reader_check))]
pub(crate) fn check_reader(bytes: usize, r: PageReader) -> Result<(), Refusal>
    ensures answers { result ≡ reader_check bytes r }
{
    check_flash(bytes)?;
    check_state(r)?;
    check_page(bytes, r.page)
}
