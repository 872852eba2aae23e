// Calls on the writer.
use crate::state::State;
use crate::stores::say_done;
use replay_say::Output;
use replay_say::said::{Said, Sum};
use replay_say::word::Word;
use script::args::{bytes_at, flag_at, magic_at, number_at, page_at, word32_at};
use script::space::line_space;
use script::words::{nth_word, word_count};
use slices::part::part_of;
use types::config::ALIGN;
use types::page_id::PageID;
use writer::answers::Ended;
use writer::page_writer::PageWriter;

fn set_left(out: &mut Output, w: State, line: &[u8]) -> Option<State> {
    let left = number_at(line, 2)?;
    out.say_line(Word::Ok);
    Some(State { left, ..w })
}

// Says what a call answered, and how many stores are left. The state that is left.
fn ended<T: Said + Drop>(out: &mut Output, ended: Ended<T>) -> State {
    let Ended {
        answer,
        writer,
        left,
    } = ended;
    out.say(answer);
    out.say(left);
    State { writer, left }
}

// An opening makes no operation.
fn opened(out: &mut Output, opening: Ended<()>) -> State {
    let w = ended(out, opening);
    out.say_line(0usize);
    w
}

// The page that is opened, and the length of its higher header.
fn asked_in(line: &[u8]) -> Option<(PageID, usize)> {
    Some((page_at(line, 2)?, number_at(line, 3)?))
}

fn open(out: &mut Output, w: State, line: &[u8], flash: &[u8]) -> Option<State> {
    let (page, h) = asked_in(line)?;
    Some(opened(out, w.writer.open(flash, page, h, w.left)))
}

fn open_append(out: &mut Output, w: State, line: &[u8], flash: &[u8]) -> Option<State> {
    let (page, h) = asked_in(line)?;
    Some(opened(out, w.writer.open_append(flash, page, h, w.left)))
}

// Makes a call that stores, and says what it answered and what it did to the flash.
fn stored<T: Said + Drop, C: Fn(PageWriter, &mut [u8], usize) -> Ended<T>>(
    out: &mut Output,
    w: State,
    flash: &mut [u8],
    call: C,
) -> State
    requires { C.IsAlwaysCallable call }
{
    let next = ended(out, call(w.writer, flash, w.left));
    say_done(
        out,
        &call,
        w.writer,
        flash,
        w.left.saturating_sub(next.left),
    );
    out.end_line();
    next
}

fn write(out: &mut Output, w: State, line: &[u8], flash: &mut [u8]) -> Option<State> {
    let mut space = line_space();
    let n = bytes_at(line, 2, &mut space)?;
    let bytes = part_of(&space, 0, n);
    Some(stored(out, w, flash, |writer, flash, left| {
        writer.write(flash, bytes, left)
    }))
}

fn commit(out: &mut Output, w: State, flash: &mut [u8]) -> State {
    stored(out, w, flash, |writer, flash, left| {
        writer.commit(flash, left)
    })
}

fn write_header(out: &mut Output, w: State, line: &[u8], flash: &mut [u8]) -> Option<State> {
    let mut space = line_space();
    let magic = magic_at(line, 2)?;
    let n = bytes_at(line, 3, &mut space)?;
    let bytes = part_of(&space, 0, n);
    Some(stored(out, w, flash, |writer, flash, left| {
        writer.write_header(flash, magic, bytes, left)
    }))
}

fn forge(out: &mut Output, w: State, line: &[u8]) -> Option<State> {
    let mut buf = [0; ALIGN];
    let page = page_at(line, 2)?;
    let h = number_at(line, 3)?;
    let armed = flag_at(line, 4)?;
    let crc = word32_at(line, 5)?;
    let n = bytes_at(line, 6, &mut buf)?;
    if n != ALIGN {
        return None;
    }
    let total = number_at(line, 7)?;
    let offset = number_at(line, 8)?;
    let pending = number_at(line, 9)?;
    out.say_line(Word::Ok);
    let writer = PageWriter {
        page,
        h,
        armed,
        crc,
        buf,
        total,
        offset,
        pending,
    };
    Some(State { writer, ..w })
}

fn show(out: &mut Output, writer: PageWriter) {
    let group = writer.buf;
    out.say(Word::Ok);
    out.say(writer.page);
    out.say(writer.h);
    out.say(writer.armed);
    out.say(Sum(writer.crc));
    out.say(&group[..]);
    out.say(writer.total);
    out.say(writer.offset);
    out.say_line(writer.pending);
}

// Answers a line that starts with `writer`: the states that are left, or none where the line is no call.
pub fn answer(out: &mut Output, w: State, line: &[u8], flash: &mut [u8]) -> Option<State> {
    match (nth_word(line, 1), word_count(line)) {
        (b"new", 2) => {
            out.say_line(Word::Ok);
            let writer = PageWriter::new();
            Some(State { writer, ..w })
        }
        (b"left", 3) => set_left(out, w, line),
        (b"open", 4) => open(out, w, line, flash),
        (b"open_append", 4) => open_append(out, w, line, flash),
        (b"write", 3) => write(out, w, line, flash),
        (b"commit", 2) => Some(commit(out, w, flash)),
        (b"write_header", 4) => write_header(out, w, line, flash),
        (b"forge", 10) => forge(out, w, line),
        (b"len", 2) => {
            out.say_line(w.writer.len());
            Some(w)
        }
        (b"page_id", 2) => {
            out.say_line(w.writer.page_id());
            Some(w)
        }
        (b"state", 2) => {
            show(out, w.writer);
            Some(w)
        }
        _ => None,
    }
}
