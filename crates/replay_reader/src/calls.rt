// Calls on the reader.
use crate::slots;
use crate::slots::{fields_at, say_fields};
use crate::state::State;
use reader::dehydrated::DehydratedPageReader;
use reader::header;
use reader::page_reader::PageReader;
use replay_say::Output;
use replay_say::said::Said;
use replay_say::word::Word;
use script::args::{magic_at, number_at, page_at};
use script::words::{nth_word, word_count};
use slices::part::part_of;
use types::config::MAX_HEADER_SIZE;
use types::page_id::PageID;

// The longest buffer that a script reads into.
const MOST_ROOM: usize = 8192;

// Room for every higher header and for the next that keeps the alignment; a longer one is asked for as if it were that one, and refused as it is.
const HEADER_ROOM: usize = MAX_HEADER_SIZE + 4;

// What a page is opened by.
#[derive(Clone, Copy)]
struct Named {
    magic: u32,
    page: PageID,
    h: usize,
}

fn name_in(line: &[u8]) -> Option<Named> {
    let magic = magic_at(line, 2)?;
    let page = page_at(line, 3)?;
    let h = number_at(line, 4)?;
    Some(Named { magic, page, h })
}

// Says what a call answered. The state with the reader that it leaves.
pub(crate) fn moved<A: Said>(out: &mut Output, w: State, answer: A, reader: PageReader) -> State {
    out.say_line(answer);
    State { reader, ..w }
}

fn open(out: &mut Output, w: State, line: &[u8], flash: &[u8]) -> Option<State> {
    let mut header = [0; HEADER_ROOM];
    let named = name_in(line)?;
    let n = named.h.min(HEADER_ROOM);
    let opening = w
        .reader
        .open(flash, named.magic, named.page, &mut header[..n]);
    let answer = opening.answer.map(|()| part_of(&header, 0, n));
    Some(moved(out, w, answer, opening.reader))
}

fn read_header(out: &mut Output, w: State, line: &[u8], flash: &[u8]) -> Option<State> {
    let mut header = [0; HEADER_ROOM];
    let named = name_in(line)?;
    let n = named.h.min(HEADER_ROOM);
    let answer = header::read_header(flash, named.magic, named.page, &mut header[..n]);
    out.say_line(answer.map(|()| part_of(&header, 0, n)));
    Some(w)
}

fn read(out: &mut Output, w: State, line: &[u8], flash: &[u8]) -> Option<State> {
    let mut buffer = [0; MOST_ROOM];
    let room = buffer.get_mut(..number_at(line, 2)?)?;
    let passage = w.reader.read(flash, room);
    let answer = passage.answer.map(|n| part_of(&buffer, 0, n));
    Some(moved(out, w, answer, passage.reader))
}

fn skip(out: &mut Output, w: State, line: &[u8], flash: &[u8]) -> Option<State> {
    let count = number_at(line, 2)?;
    let passage = w.reader.skip(flash, count);
    Some(moved(out, w, passage.answer, passage.reader))
}

fn is_at_eof(out: &mut Output, w: State, flash: &[u8]) -> State {
    let tested = w.reader.is_at_eof(flash);
    let answer = tested.answer.map(|test| test.at_end());
    moved(out, w, answer, tested.reader)
}

fn forge(out: &mut Output, w: State, line: &[u8]) -> Option<State> {
    let fields = fields_at(line, 2)?;
    let reader = PageReader {
        page: fields.page,
        ended: fields.ended,
        offset: fields.offset,
        len: fields.len,
        crc: fields.crc,
        position: fields.position,
    };
    Some(moved(out, w, Word::Ok, reader))
}

fn of_reader(out: &mut Output, w: State, line: &[u8], flash: &[u8]) -> Option<State> {
    match (nth_word(line, 1), word_count(line)) {
        (b"new", 2) => Some(moved(out, w, Word::Ok, PageReader::new())),
        (b"open", 5) => open(out, w, line, flash),
        (b"read_header", 5) => read_header(out, w, line, flash),
        (b"read", 3) => read(out, w, line, flash),
        (b"skip", 3) => skip(out, w, line, flash),
        (b"is_at_eof", 2) => Some(is_at_eof(out, w, flash)),
        (b"page_id", 2) => {
            out.say_line(w.reader.page_id());
            Some(w)
        }
        (b"dehydrate", 3) => slots::dehydrate(out, w, line),
        (b"rehydrate_from", 3) => slots::rehydrate_from(out, w, line, flash),
        (b"forge", 8) => forge(out, w, line),
        (b"state", 2) => {
            say_fields(out, DehydratedPageReader::from(w.reader));
            Some(w)
        }
        _ => None,
    }
}

// Answers a line that starts with `reader` or `slot`: the states that are left, or none where the line is no call.
pub fn answer(out: &mut Output, w: State, line: &[u8], flash: &[u8]) -> Option<State> {
    match nth_word(line, 0) {
        b"slot" => slots::answer(out, w, line),
        _ => of_reader(out, w, line, flash),
    }
}
