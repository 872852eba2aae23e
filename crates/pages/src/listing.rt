// A line for each page: what a new reader finds there.
use crate::chunks::say_chunks;
use crate::header;
use crate::header::{length_on, say_higher};
use crate::image::Image;
use crate::line::{hex_on, line_end, number, text};
use crate::walk::{chunks_start, say_walk, walked};
use desk::say;
use page::header::check_header;
use page::walk::all_erased;
use slices::field::get32;
use std::io;
use types::config::ERASE_VALUE;
use types::page_id::PageID;
use types::refusal::Refusal;

fn say_page(rt: &HostRuntime, image: Image<'_>, id: PageID, chunks: bool) -> io::Result<()> {
    let page = image.page(id);
    text(rt, b"page ");
    number(rt, id.index());
    text(rt, b": ");
    if all_erased(page, ERASE_VALUE) {
        return line_end(rt, b"erased\n");
    }
    if !image.header_fine(id) {
        return header::say_refused(rt, image, id);
    }
    let start = chunks_start(image.h);
    say_higher(rt, page, image.h);
    say_walk(rt, page, walked(page, start))?;
    if chunks {
        say_chunks(rt, page, start)?;
    }
    Ok(())
}

// The one magic of every page that is not erased, where it is another than the one that is asked for.
fn other_magic(image: Image<'_>) -> Option<u32> {
    let mut first = None;
    for i in 0..image.count() {
        let page = image.page(PageID(i));
        let there = get32(page, 0);
        if !all_erased(page, ERASE_VALUE) {
            if (there == image.magic) | (first.unwrap_or(there) != there) {
                return None;
            }
            first = Some(there);
        }
    }
    first
}

// One line in place of all, where every page has one other magic: it is more likely that the magic was typed wrong.
fn say_other(rt: &HostRuntime, magic: u32, there: u32) -> io::Result<()> {
    text(rt, b"no page has the magic ");
    hex_on(rt, magic);
    text(rt, b": that of every page which is not erased is ");
    hex_on(rt, there);
    line_end(rt, b"\n")
}

fn say_pages(rt: &HostRuntime, image: Image<'_>, chunks: bool) -> io::Result<()> {
    if let Some(there) = other_magic(image) {
        return say_other(rt, image.magic, there);
    }
    for i in 0..image.count() {
        say_page(rt, image, PageID(i), chunks)?;
    }
    Ok(())
}

fn bad_header(rt: &HostRuntime, why: Refusal, h: usize) {
    say::refusal(rt, b"pages", why);
    length_on(&rt.stderr(), h);
    say::refused(rt);
    say::list_refused(rt, why);
    length_on(rt, h);
    text(rt, b"\n");
}

pub(crate) fn list(rt: &HostRuntime, image: Image<'_>, chunks: bool) {
    if let Err(why) = check_header(image.h) {
        bad_header(rt, why, image.h);
        return;
    }
    if let Err(why) = say_pages(rt, image, chunks) {
        say::output_failed(rt, b"pages", &why);
    }
}
