// PageReader (page.rs), by value: where in a page the next read starts. No payload is copied, so a page must not be erased while it
// is being read.
ghost use Rattle.std.specs.Prelude.{◌≡◌, length};
ghost use Rattle.reader.specs.States.{new_reader, unread};
ghost use Rattle.reader.specs.Calls.{passage_from, open_page, open_bytes, read, read_bytes, skip, is_at_eof, dehydrate, rehydrate_from, page_id};

use crate::answers::{EndTest, Passage};
use crate::checks::{check_reader, check_state};
use crate::dehydrated::DehydratedPageReader;
use crate::header::check_page_header;
use crate::moves::{arriving, past, ready, rest_of, skipped};
use crc::crc32;
use flash::geometry::page_of;
use page::chunk::payload_at;
use page::header::header_of;
use slices::part;
use types::config::PAGE_HEADER_SIZE;
use types::page_id::PageID;
use types::refusal::Refusal;

#[derive(Clone, Copy)]
pub struct PageReader {
    pub page: PageID,
    pub ended: bool,
    // The present chunk: where it starts, how long its payload is, and its sum. At the end: where the end is.
    pub offset: usize,
    pub len: usize,
    pub crc: u32,
    // How much of the payload was read.
    pub position: usize,
}

// A reader of this page that is in no chunk yet.
fn unread(page: PageID) -> PageReader
    ensures answers { result ≡ unread page }
{
    PageReader {
        page,
        ended: false,
        offset: 0,
        len: 0,
        crc: 0,
        position: 0,
    }
}

impl PageReader {
    pub fn new() -> PageReader
        ensures answers { result ≡ new_reader }
    {
        unread(PageID::zero())
    }

    // Opens a page at its first chunk. If that succeeds, the h bytes of the higher header are put into the buffer, whose length is h.
    pub fn open(self, flash: &[u8], magic: u32, page: PageID, header: &mut [u8]) -> Passage<()>
        ensures answers { result ≡ open_page self flash.now magic page (length header.old) }
        ensures bytes { header.new ≡ open_bytes self flash.now magic page header.old }
    {
        Passage::of(self, self.opened(flash, magic, page, header))
    }

    #[tactic(auto, unfolding(crate::specs::Calls::open_page, crate::specs::Calls::open_bytes, crate::specs::Calls::read_header))]
    fn opened(
        self,
        flash: &[u8],
        magic: u32,
        page: PageID,
        header: &mut [u8],
    ) -> Result<((), PageReader), Refusal>
        ensures answers { passage_from self result ≡ open_page self flash.now magic page (length header.old) }
        ensures bytes { header.new ≡ open_bytes self flash.now magic page header.old }
    {
        let h = header.len();
        check_page_header(flash, magic, page, h)?;
        let bytes = page_of(flash, page);
        let reader = arriving(unread(page), bytes, PAGE_HEADER_SIZE + h)?;
        part::put(header, header_of(bytes, h));
        Ok(((), reader))
    }

    // Reads as many bytes of one chunk as the buffer has room for. It answers 0 at the end, and on arriving at an empty chunk.
    pub fn read(self, flash: &[u8], buffer: &mut [u8]) -> Passage<usize>
        ensures answers { result ≡ read self flash.now (length buffer.old) }
        ensures bytes { buffer.new ≡ read_bytes self flash.now buffer.old }
    {
        Passage::of(self, self.read_into(flash, buffer))
    }

    #[tactic(auto, unfolding(crate::specs::Calls::read, crate::specs::Calls::read_bytes))]
    fn read_into(self, flash: &[u8], buffer: &mut [u8]) -> Result<(usize, PageReader), Refusal>
        ensures answers { passage_from self result ≡ read self flash.now (length buffer.old) }
        ensures bytes { buffer.new ≡ read_bytes self flash.now buffer.old }
    {
        check_reader(flash.len(), self)?;
        let page = page_of(flash, self.page);
        let reader = ready(self, page)?;
        let rest = rest_of(page, reader);
        let n = buffer.len().min(rest.len());
        part::put(buffer, rest);
        Ok((n, past(reader, n)))
    }

    // Skips `count` bytes, over as many chunks as that takes, or up to the end.
    pub fn skip(self, flash: &[u8], count: usize) -> Passage<usize>
        ensures answers { result ≡ skip self flash.now count }
    {
        Passage::of(self, self.gone_over(flash, count))
    }

    #[tactic(auto, unfolding(crate::specs::Calls::skip))]
    fn gone_over(self, flash: &[u8], count: usize) -> Result<(usize, PageReader), Refusal>
        ensures answers { passage_from self result ≡ skip self flash.now count }
    {
        check_reader(flash.len(), self)?;
        let passed = skipped(self, page_of(flash, self.page), count)?;
        Ok((count - passed.left, passed.reader))
    }

    // Answers whether nothing is left to read. The reader that comes back has left a chunk that was used up.
    pub fn is_at_eof(self, flash: &[u8]) -> Passage<EndTest>
        ensures answers { result ≡ is_at_eof self flash.now }
    {
        Passage::of(self, self.tested(flash))
    }

    #[tactic(auto, unfolding(crate::specs::Calls::is_at_eof))]
    fn tested(self, flash: &[u8]) -> Result<(EndTest, PageReader), Refusal>
        ensures answers { passage_from self result ≡ is_at_eof self flash.now }
    {
        check_reader(flash.len(), self)?;
        let reader = ready(self, page_of(flash, self.page))?;
        let test = if reader.ended {
            EndTest::AtEnd
        } else {
            EndTest::More
        };
        Ok((test, reader))
    }

    #[tactic(auto, unfolding(crate::specs::Calls::dehydrate))]
    pub fn dehydrate(self) -> Result<DehydratedPageReader, Refusal>
        ensures answers { result ≡ dehydrate self }
    {
        check_state(self)?;
        Ok(DehydratedPageReader::from(self))
    }

    // Makes a reader of a kept state, after the sum of its chunk's payload was checked again.
    pub fn rehydrate_from(self, flash: &[u8], dehydrated: DehydratedPageReader) -> Passage<()>
        ensures answers { result ≡ rehydrate_from self flash.now dehydrated }
    {
        Passage::of(self, self.rehydrated(flash, dehydrated))
    }

    #[tactic(auto, unfolding(crate::specs::Calls::rehydrate_from))]
    fn rehydrated(
        self,
        flash: &[u8],
        dehydrated: DehydratedPageReader,
    ) -> Result<((), PageReader), Refusal>
        ensures answers { passage_from self result ≡ rehydrate_from self flash.now dehydrated }
    {
        let r = dehydrated.restored();
        check_reader(flash.len(), r)?;
        if r.ended || crc32(payload_at(page_of(flash, r.page), r.offset, r.len)) == r.crc {
            Ok(((), r))
        } else {
            Err(Refusal::Corrupted)
        }
    }

    #[tactic(auto, unfolding(crate::specs::Calls::page_id))]
    pub fn page_id(self) -> Result<PageID, Refusal>
        ensures answers { result ≡ page_id self }
    {
        check_state(self)?;
        Ok(self.page)
    }
}
