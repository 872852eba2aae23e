// Reading a page's higher header alone (page.rs, read_header).
ghost use Rattle.std.specs.Prelude.{◌≡◌, length};
ghost use Rattle.reader.specs.Calls.{read_header, read_header_bytes};

use flash::geometry::page_of;
use page::checks::check_open;
use page::header::{header_of, page_header_fine};
use slices::part;
use types::page_id::PageID;
use types::refusal::Refusal;

// Fine where this page has its header, with this magic, its own number and the sum of its h bytes.
#[tactic(auto, unfolding(crate::specs::Calls::read_header))]
pub(crate) fn check_page_header(
    flash: &[u8],
    magic: u32,
    page: PageID,
    h: usize,
) -> Result<(), Refusal>
    ensures answers { result ≡ read_header flash.now magic page h }
{
    check_open(flash.len(), h, page)?;
    if page_header_fine(page_of(flash, page), magic, page, h) {
        Ok(())
    } else {
        Err(Refusal::Corrupted)
    }
}

// If the call succeeds, the h bytes of the higher header are put into the buffer, whose length is h.
#[tactic(auto, unfolding(crate::specs::Calls::read_header_bytes))]
pub fn read_header(flash: &[u8], magic: u32, page: PageID, header: &mut [u8]) -> Result<(), Refusal>
    ensures answers { result ≡ read_header flash.now magic page (length header.old) }
    ensures bytes { header.new ≡ read_header_bytes flash.now magic page header.old }
{
    let h = header.len();
    check_page_header(flash, magic, page, h)?;
    part::put(header, header_of(page_of(flash, page), h));
    Ok(())
}
