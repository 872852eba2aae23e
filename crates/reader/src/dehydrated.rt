// A reader's state to be kept (page.rs, DehydratedPageReader). It has a type of its own, so that nobody reads by it before
// rehydrate_from has checked it again.
ghost use Rattle.std.specs.Prelude.{◌≡◌};
ghost use Rattle.reader.specs.States.{restored};

use crate::page_reader::PageReader;
use types::page_id::PageID;

#[derive(Clone, Copy)]
pub struct DehydratedPageReader {
    pub page: PageID,
    pub ended: bool,
    pub offset: usize,
    pub len: usize,
    pub crc: u32,
    pub position: usize,
}

impl From<PageReader> for DehydratedPageReader {
    ghost use Rattle.std.specs.Prelude.{◌≡◌};
    ghost use Rattle.reader.specs.States.{stored};

    ghost from_gives = { λ r kept. kept ≡ stored r };

    fn from(r: PageReader) -> DehydratedPageReader {
        DehydratedPageReader {
            page: r.page,
            ended: r.ended,
            offset: r.offset,
            len: r.len,
            crc: r.crc,
            position: r.position,
        }
    }
}

impl DehydratedPageReader {
    // The reader that was kept, before anything of it is checked.
    pub(crate) fn restored(self) -> PageReader
        ensures answers { result ≡ restored self }
    {
        PageReader {
            page: self.page,
            ended: self.ended,
            offset: self.offset,
            len: self.len,
            crc: self.crc,
            position: self.position,
        }
    }
}
