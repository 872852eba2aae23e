// The shape of the lent flash, and the part of it that a page is.
ghost use Rattle.std.specs.Prelude.{◌≡◌};
ghost use Rattle.flash.specs.Geometry.{flash_check, whole_pages, page_start, has_page, page_of};

use slices::part::part_of;
use types::config::{MAX_PAGE_COUNT, PAGE_SIZE};
use types::page_id::PageID;
use types::refusal::Refusal;

// Fine, or 5 where a flash of this many bytes is not 1 to 256 whole pages.
pub fn check_flash(bytes: usize) -> Result<(), Refusal>
    ensures answers { result ≡ flash_check bytes }
{
    if bytes % PAGE_SIZE == 0 && PAGE_SIZE <= bytes && bytes <= MAX_PAGE_COUNT * PAGE_SIZE {
        Ok(())
    } else {
        Err(Refusal::BadFlash)
    }
}

pub fn whole_pages(bytes: usize) -> usize
    ensures answers { result ≡ whole_pages bytes }
{
    bytes / PAGE_SIZE
}

pub fn has_page(bytes: usize, page: PageID) -> bool
    ensures answers { result ≡ has_page bytes page.0 }
{
    page.index() < whole_pages(bytes)
}

pub fn page_start(page: PageID) -> usize
    ensures answers { result ≡ page_start page.0 }
{
    page.index() * PAGE_SIZE
}

// The bytes of a page; none if the flash ends before it.
pub fn page_of(flash: &[u8], page: PageID) -> &[u8]
    ensures answers { result.now ≡ page_of page.0 flash.now }
{
    part_of(flash, page_start(page), PAGE_SIZE)
}
