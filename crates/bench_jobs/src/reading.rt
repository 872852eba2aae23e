// A page, read to its end or to its first empty chunk, where a read answers 0 too.
ghost use Rattle.std.specs.Prelude.{◌≡◌, length};
ghost use Rattle.reader.specs.Calls.{open_bytes};
ghost use Rattle.reader.specs.States.{new_reader};
ghost use Rattle.bench_jobs.specs.Readings.{read_state, read_one, read_pieces, reading_at, read_page, packed_of};

use crate::telling::packed;
use reader::answers::Passage;
use reader::page_reader::PageReader;
use std::cmp::Ord;
use types::answers::Answer;
use types::config::PAGE_SIZE;
use types::page_id::PageID;
use types::refusal::Refusal;

// A reader on its way: how many bytes it put, and whether it goes on, or why it was refused.
#[derive(Clone, Copy)]
pub struct Reading {
    pub reader: PageReader,
    pub put: usize,
    pub goes_on: Result<bool, Refusal>,
}

// One read, behind what was put so far. A read of nothing is the last.
#[tactic(auto, unfolding(crate::specs::Readings::read_one))]
fn read_one(r: Reading, flash: &[u8], out: &mut [u8]) -> Reading
    ensures answers { result ≡ (read_one flash.now (read_state r out.old)).reading }
    ensures bytes { out.new ≡ (read_one flash.now (read_state r out.old)).out }
{
    let from = r.put.min(out.len());
    let passage = r.reader.read(flash, &mut out[from..]);
    match passage.answer {
        Ok(n) => Reading {
            reader: passage.reader,
            put: from + n,
            goes_on: Ok(n != 0),
        },
        Err(why) => Reading {
            reader: passage.reader,
            put: from,
            goes_on: Err(why),
        },
    }
}

// Each read but the last puts a byte or more, so a page has no more of them.
fn read_pieces(start: Reading, flash: &[u8], out: &mut [u8]) -> Reading
    ensures answers { result ≡ (read_pieces flash.now (read_state start out.old)).reading }
    ensures bytes { out.new ≡ (read_pieces flash.now (read_state start out.old)).out }
{
    let mut r = start;
    for i in 0..PAGE_SIZE + 1 {
        if !r.goes_on.unwrap_or(false) {
            return r;
        }
        r = read_one(r, flash, out);
    }
    r
}

// A reader that was opened, or refused.
fn reading_at(opening: Passage<()>) -> Reading
    ensures answers { result ≡ reading_at opening }
{
    Reading {
        reader: opening.reader,
        put: 0,
        goes_on: opening.answer.map(|()| true),
    }
}

// Opens a page and reads it to its end or its first empty chunk, or as far as there is room. What was put, and why it was refused.
#[tactic(auto, unfolding(crate::specs::Readings::read_page))]
#[unsafe(no_mangle)]
pub extern "C" fn puffcradle_read_page(
    flash: &[u8],
    magic: u32,
    page: u16,
    header: &mut [u8],
    out: &mut [u8],
) -> u64
    ensures answers { result ≡ packed_of (read_page flash.now magic page (length header.old) out.old) }
    ensures header { header.new ≡ open_bytes new_reader flash.now magic (record { 0 = page }) header.old }
    ensures out { out.new ≡ (read_page flash.now magic page (length header.old) out.old).out }
{
    let opening = PageReader::new().open(flash, magic, PageID(page), header);
    let r = read_pieces(reading_at(opening), flash, out);
    packed(r.goes_on.number(), r.put)
}
