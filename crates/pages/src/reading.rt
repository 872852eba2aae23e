// A page's bytes, as a new reader hands them out.
use crate::header::{fault_on, length_on};
use crate::image::Image;
use crate::walk::{chunks_start, walked};
use desk::say;
use flash::geometry::whole_pages;
use page::walk::all_erased;
use reader::page_reader::PageReader;
use script::space::page_space;
use slices::part::part_of;
use std::cmp::Ord;
use std::io;
use types::config::{ERASE_VALUE, MAX_HEADER_SIZE};
use types::page_id::PageID;
use types::refusal::Refusal;

// More calls than a page has chunks.
const CALLS: usize = 512;

// Why no more of a page is handed out: a call was refused, or standard output takes no more.
#[derive(Clone, Copy)]
enum Stop {
    Refused(Refusal),
    Unwritten(io::Error),
}

impl From<Refusal> for Stop {
    fn from(why: Refusal) -> Stop {
        Stop::Refused(why)
    }
}

impl From<io::Error> for Stop {
    fn from(why: io::Error) -> Stop {
        Stop::Unwritten(why)
    }
}

// What is wrong with a corrupted page, in the words of the list.
fn say_fault(rt: &HostRuntime, image: Image<'_>, id: PageID) {
    let page = image.page(id);
    if all_erased(page, ERASE_VALUE) {
        say::text(rt, b", which is erased");
        return;
    }
    if !image.header_fine(id) {
        say::text(rt, b", ");
        fault_on(&rt.stderr(), image, id);
        return;
    }
    let walk = walked(page, chunks_start(image.h));
    say::text(rt, b" at ");
    say::number(rt, walk.at);
}

fn say_count(rt: &HostRuntime, flash: &[u8]) {
    say::text(rt, b": the image has ");
    say::number(rt, whole_pages(flash.len()));
    say::text(rt, b" pages");
}

fn say_refused(rt: &HostRuntime, image: Image<'_>, id: PageID, why: Refusal) {
    say::refusal(rt, b"pages", why);
    say::text(rt, b" on page ");
    say::number(rt, id.index());
    match why {
        Refusal::Corrupted => say_fault(rt, image, id),
        Refusal::OutOfRange => say_count(rt, image.flash),
        Refusal::BadHeader => length_on(&rt.stderr(), image.h),
        _ => {}
    }
    say::refused(rt);
}

// Prints a chunk: the reader behind it, unless nothing is left.
fn read_chunk(
    rt: &HostRuntime,
    r: PageReader,
    image: Image<'_>,
) -> Result<Option<PageReader>, Stop> {
    let mut chunk = page_space();
    let passage = r.read(image.flash, &mut chunk);
    let n = passage.answer?;
    rt.write_all(part_of(&chunk, 0, n))?;
    let behind = passage.reader;
    if behind.is_at_eof(image.flash).answer?.at_end() {
        Ok(None)
    } else {
        Ok(Some(behind))
    }
}

// Prints what the page holds, up to its end or to a chunk that is refused.
fn print_page(rt: &HostRuntime, image: Image<'_>, id: PageID) -> Result<(), Stop> {
    let mut header = [0; MAX_HEADER_SIZE + 1];
    let h = image.h.min(header.len());
    let opening = PageReader::new().open(image.flash, image.magic, id, &mut header[..h]);
    opening.answer?;
    let mut r = opening.reader;
    for _ in 0..CALLS {
        let Some(behind) = read_chunk(rt, r, image)? else {
            return Ok(());
        };
        r = behind;
    }
    Ok(())
}

// The same, and says why it stopped before the page's end.
pub(crate) fn hand_out(rt: &HostRuntime, image: Image<'_>, id: PageID) {
    match print_page(rt, image, id) {
        Ok(()) => {}
        Err(Stop::Refused(why)) => say_refused(rt, image, id, why),
        Err(Stop::Unwritten(why)) => say::output_failed(rt, b"pages", &why),
    }
}
