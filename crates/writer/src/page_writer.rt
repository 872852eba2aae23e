// The writer by value: where it writes, and what waits to be stored.
ghost use Rattle.std.specs.Prelude.{◌≡◌};
ghost use Rattle.writer.specs.Outcomes.{length_of, page_id};
ghost use Rattle.writer.specs.States.{fresh, new_writer};

use crate::checks::check_state;
use crc::register::Crc32;
use types::config::{ALIGN, PAGE_HEADER_SIZE};
use types::page_id::PageID;
use types::refusal::Refusal;

#[derive(Clone, Copy)]
pub struct PageWriter {
    pub page: PageID,
    // Bytes of the higher header.
    pub h: usize,
    // Whether the page is erased before the first store.
    pub armed: bool,
    // The running sum of the pending bytes.
    pub crc: u32,
    // The unfinished group; behind its bytes, whatever was there before.
    pub buf: [u8; ALIGN],
    // Bytes taken since the page was opened.
    pub total: usize,
    // Where the present chunk starts, and how many bytes it has.
    pub offset: usize,
    pub pending: usize,
}

impl PageWriter {
    // A writer that starts at an offset and has taken nothing.
    pub(crate) fn fresh(armed: bool, page: PageID, h: usize, offset: usize) -> PageWriter
        ensures answers { result ≡ fresh armed page h offset }
    {
        PageWriter {
            page,
            h,
            armed,
            crc: Crc32::new().0,
            buf: [0; ALIGN],
            total: 0,
            offset,
            pending: 0,
        }
    }

    pub fn new() -> PageWriter
        ensures answers { result ≡ new_writer }
    {
        PageWriter::fresh(true, PageID::zero(), 0, PAGE_HEADER_SIZE)
    }

    // Bytes taken since the page was opened.
    pub fn len(self) -> Result<usize, Refusal>
        ensures answers { result ≡ length_of self }
    {
        check_state(self)?;
        Ok(self.total)
    }

    pub fn page_id(self) -> Result<PageID, Refusal>
        ensures answers { result ≡ page_id self }
    {
        check_state(self)?;
        Ok(self.page)
    }
}
