// A page, written anew and committed.
ghost use Rattle.std.specs.Prelude.{◌≡◌};
ghost use Rattle.bench_jobs.specs.Writings.{Fits, write_state, after_header, write_begun, after_write, write_one, write_all, write_finished, write_finished_flash, write_page};

use crate::telling::packed;
use slices::part::part_of;
use std::cmp::Ord;
use types::answers::Answer;
use types::config::PAGE_SIZE;
use types::page_id::PageID;
use types::refusal::Refusal;
use writer::answers::Ended;
use writer::page_writer::PageWriter;

// A writer on its way: the stores left, how many bytes it took, and whether it goes on, or why it was refused.
#[derive(Clone, Copy)]
pub struct Writing {
    pub writer: PageWriter,
    pub left: usize,
    pub taken: usize,
    pub goes_on: Result<bool, Refusal>,
}

// The job after write_header, done or refused.
fn after_header(e: Ended<()>) -> Writing
    ensures answers { result ≡ after_header e }
{
    Writing {
        writer: e.writer,
        left: e.left,
        taken: 0,
        goes_on: e.answer.map(|()| true),
    }
}

// A new writer, opened, with the page header stored.
#[tactic(auto, unfolding(crate::specs::Writings::write_begun))]
fn write_begun(flash: &mut [u8], magic: u32, page: u16, header: &[u8], left: usize) -> Writing
    ensures answers { result ≡ (write_begun flash.old magic page header.now left).writing }
    ensures bytes { flash.new ≡ (write_begun flash.old magic page header.now left).flash }
{
    let opened = PageWriter::new().open(flash, PageID(page), header.len(), left);
    if let Err(_) = opened.answer {
        return after_header(opened);
    }
    let headed = opened
        .writer
        .write_header(flash, magic, header, opened.left);
    after_header(headed)
}

// Behind a write: one that took nothing, and a refused one, is the last.
fn after_write(from: usize, w: Ended<usize>) -> Writing
    requires { Fits from w.answer }
    ensures answers { result ≡ after_write from w }
{
    match w.answer {
        Ok(n) => Writing {
            writer: w.writer,
            left: w.left,
            taken: from + n,
            goes_on: Ok(n != 0),
        },
        Err(why) => Writing {
            writer: w.writer,
            left: w.left,
            taken: from,
            goes_on: Err(why),
        },
    }
}

// One write, of the next piece of the payload.
#[tactic(auto, unfolding(crate::specs::Writings::write_one))]
fn write_one(w: Writing, flash: &mut [u8], payload: &[u8], piece: usize) -> Writing
    ensures answers { result ≡ (write_one payload.now piece (write_state w flash.old)).writing }
    ensures bytes { flash.new ≡ (write_one payload.now piece (write_state w flash.old)).flash }
{
    let from = w.taken.min(payload.len());
    let wrote = w.writer.write(flash, part_of(payload, from, piece), w.left);
    after_write(from, wrote)
}

// Each write but the last takes a byte or more, so a page has no more of them.
fn write_all(start: Writing, flash: &mut [u8], payload: &[u8], piece: usize) -> Writing
    ensures answers { result ≡ (write_all payload.now piece (write_state start flash.old)).writing }
    ensures bytes { flash.new ≡ (write_all payload.now piece (write_state start flash.old)).flash }
{
    let mut w = start;
    for i in 0..PAGE_SIZE + 1 {
        if !w.goes_on.unwrap_or(false) {
            return w;
        }
        w = write_one(w, flash, payload, piece);
    }
    w
}

// The commit, where nothing was refused.
#[tactic(auto, unfolding(crate::specs::Writings::write_finished, crate::specs::Writings::write_finished_flash))]
fn write_finished(w: Writing, flash: &mut [u8]) -> u64
    ensures answers { result ≡ write_finished (write_state w flash.old) }
    ensures bytes { flash.new ≡ write_finished_flash (write_state w flash.old) }
{
    if let Err(why) = w.goes_on {
        return packed(why.number(), w.taken);
    }
    let done = w.writer.commit(flash, w.left);
    packed(done.answer.number(), w.taken)
}

// Opens a page to write it anew, stores its header, writes the payload in pieces and commits. What was taken, and why it was refused.
#[tactic(auto, unfolding(crate::specs::Writings::write_page))]
#[unsafe(no_mangle)]
pub extern "C" fn puffcradle_write_page(
    flash: &mut [u8],
    magic: u32,
    page: u16,
    header: &[u8],
    payload: &[u8],
    piece: usize,
    left: usize,
) -> u64
    ensures answers { result ≡ write_finished (write_page flash.old magic page header.now payload.now piece left) }
    ensures bytes { flash.new ≡ write_finished_flash (write_page flash.old magic page header.now payload.now piece left) }
{
    let start = write_begun(flash, magic, page, header, left);
    let w = write_all(start, flash, payload, piece);
    write_finished(w, flash)
}
