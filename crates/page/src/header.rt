// The page header: magic, page number and sum, then the higher header's h bytes.
ghost use Rattle.std.specs.Prelude.{◌≡◌};
ghost use Rattle.page.specs.Headers.{header_check, header_of, page_header_fine};

use crc::crc32;
use slices::field::get32;
use slices::part::part_of;
use types::config::{ALIGN, MAX_HEADER_SIZE, PAGE_HEADER_SIZE};
use types::page_id::PageID;
use types::refusal::Refusal;

// Fine, or 6 where h is not a multiple of 4 from 0 to 64.
pub fn check_header(h: usize) -> Result<(), Refusal>
    ensures answers { result ≡ header_check h }
{
    if h % ALIGN == 0 && h <= MAX_HEADER_SIZE {
        Ok(())
    } else {
        Err(Refusal::BadHeader)
    }
}

// The higher header's bytes.
pub fn header_of(page: &[u8], h: usize) -> &[u8]
    ensures answers { result.now ≡ header_of page.now h }
{
    part_of(page, PAGE_HEADER_SIZE, h)
}

// Whether the header is all there, it has this magic and this page number, and its sum is right.
#[tactic(auto, unfolding(crate::specs::Headers::page_header_fine))]
pub fn page_header_fine(page: &[u8], magic: u32, id: PageID, h: usize) -> bool
    ensures answers { result ≡ page_header_fine page.now magic id.0 h }
{
    let header = header_of(page, h);
    PAGE_HEADER_SIZE <= page.len()
        && header.len() == h
        && get32(page, 0) == magic
        && get32(page, 4) as usize == id.index()
        && get32(page, 8) == crc32(header)
}
