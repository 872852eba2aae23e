// The checks before a call's work, in their order, 5, 6, 11, 4 (docs/RULES.md, Order of checks).
ghost use Rattle.std.specs.Prelude.{◌≡◌};
ghost use Rattle.writer.specs.States.{in_range};
ghost use Rattle.writer.specs.Checks.{state_check, length_check, writer_check, heading_check};

use crate::page_writer::PageWriter;
use flash::geometry::check_flash;
use page::checks::check_page;
use page::header::check_header;
use types::config::{
    ALIGN, CHUNK_HEADER_SIZE, MAX_CHUNK_SIZE, MAX_PAGE_COUNT, PAGE_HEADER_SIZE, PAGE_SIZE,
};
use types::refusal::Refusal;

// Whether the state is in its ranges.
#[tactic(auto, unfolding(crate::specs::States::in_range))]
fn in_range(w: PageWriter) -> bool
    ensures answers { result ≡ in_range w }
{
    check_header(w.h).is_ok()
        && w.page.index() < MAX_PAGE_COUNT
        && w.offset % ALIGN == 0
        && PAGE_HEADER_SIZE + w.h <= w.offset
        && w.offset <= PAGE_SIZE
        && w.pending <= MAX_CHUNK_SIZE.min((PAGE_SIZE - CHUNK_HEADER_SIZE).saturating_sub(w.offset))
        && w.total <= w.offset - (PAGE_HEADER_SIZE + w.h) + w.pending
}

pub(crate) fn check_state(w: PageWriter) -> Result<(), Refusal>
    ensures answers { result ≡ state_check w }
{
    if in_range(w) {
        Ok(())
    } else {
        Err(Refusal::BadState)
    }
}

fn check_length(m: usize, h: usize) -> Result<(), Refusal>
    ensures answers { result ≡ length_check m h }
{
    if m == h {
        check_header(m)
    } else {
        Err(Refusal::BadHeader)
    }
}

// The checks of write and commit.
#[tactic(auto, unfolding(crate::specs::Checks::writer_check))]
pub(crate) fn check_writer(bytes: usize, w: PageWriter) -> Result<(), Refusal>
    ensures answers { result ≡ writer_check bytes w }
{
    check_flash(bytes)?;
    check_state(w)?;
    check_page(bytes, w.page)
}

// The checks of write_header with m bytes.
#[tactic(auto, unfolding(crate::specs::Checks::heading_check))]
pub(crate) fn check_heading(bytes: usize, w: PageWriter, m: usize) -> Result<(), Refusal>
    ensures answers { result ≡ heading_check bytes w m }
{
    check_flash(bytes)?;
    check_length(m, w.h)?;
    check_state(w)?;
    check_page(bytes, w.page)
}
