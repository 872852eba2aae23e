// A flash image, and what the headers of its pages have to be.
use flash::geometry::page_of;
use page::header::page_header_fine;
use std::cmp::Ord;
use types::config::{MAX_PAGE_COUNT, PAGE_SIZE};
use types::page_id::PageID;

#[derive(Clone, Copy)]
pub(crate) struct Image<'a> {
    pub flash: &'a [u8],
    pub magic: u32,
    // The length of the higher header.
    pub h: usize,
}

impl<'a> Image<'a> {
    pub(crate) fn page(self, id: PageID) -> &'a [u8] {
        page_of(self.flash, id)
    }

    pub(crate) fn header_fine(self, id: PageID) -> bool {
        page_header_fine(self.page(id), self.magic, id, self.h)
    }

    // How many pages there are.
    pub(crate) fn count(self) -> u16 {
        (self.flash.len() / PAGE_SIZE).min(MAX_PAGE_COUNT) as u16
    }
}
