// Calls on the cursor.
use crate::runs;
use crate::state::State;
use cursor::answers::NextAnswer;
use cursor::place::{Cursor, Place, RunPlace};
use replay_say::Output;
use replay_say::word::Word;
use script::args::{bytes_at, number_at, number_to};
use script::space::line_space;
use script::words::{nth_word, word_count};
use slices::part::part_of;
use std::ops::Bound;
use types::config::FILE_COUNT;

// The longest buffer that a script can ask for.
const MOST_ROOM: usize = 8192;

// The bound that a call's first two arguments name. Its key goes to the buffer's start.
fn bound_in<'a>(line: &[u8], space: &'a mut [u8]) -> Option<Bound<&'a [u8]>> {
    let n = bytes_at(line, 3, space)?;
    let key = part_of(space, 0, n);
    match nth_word(line, 2) {
        b"none" => Some(Bound::Unbounded),
        b"included" => Some(Bound::Included(key)),
        b"excluded" => Some(Bound::Excluded(key)),
        _ => None,
    }
}

fn place_at(line: &[u8], k: usize) -> Option<Place> {
    match nth_word(line, k) {
        b"gone" => Some(Place::Gone),
        _ => number_at(line, k).map(Place::At),
    }
}

// The places of a line, from its third word on.
fn places_in(line: &[u8]) -> Option<[RunPlace; FILE_COUNT]> {
    let gone = RunPlace { place: Place::Gone };
    let mut places = [gone; FILE_COUNT];
    for (k, run) in places.iter_mut().enumerate() {
        run.place = place_at(line, k.saturating_add(2))?;
    }
    Some(places)
}

fn show(out: &mut Output, cursor: Cursor) {
    out.say(Word::Ok);
    for run in cursor.places {
        match run.place {
            Place::Gone => out.say(Word::Gone),
            Place::At(at) => out.say(at),
        }
    }
    out.end_line();
}

fn forge(out: &mut Output, w: State, line: &[u8]) -> Option<State> {
    let places = places_in(line)?;
    out.say_line(Word::Ok);
    let cursor = Cursor { places };
    Some(State { cursor, ..w })
}

fn new(out: &mut Output, w: State, line: &[u8], runs: &[u8], ends: &[usize]) -> Option<State> {
    let mut key = line_space();
    let lower = bound_in(line, &mut key)?;
    let made = Cursor::new(runs, ends, lower);
    out.say_line(made.answer);
    let cursor = made.cursor;
    Some(State { cursor, ..w })
}

fn say_next(out: &mut Output, answer: NextAnswer, key: &[u8], value: &[u8]) {
    match answer {
        Ok(Some(entry)) => {
            out.say(Word::Ok);
            out.say(part_of(key, 0, entry.key_len));
            out.say_line(part_of(value, 0, entry.value_len));
        }
        Ok(None) => out.say_line(Word::End),
        Err(why) => out.say_line(Word::No(why)),
    }
}

// A step with as much room for the key and the value as is asked for.
fn next(out: &mut Output, w: State, line: &[u8], runs: &[u8], ends: &[usize]) -> Option<State> {
    let mut last = line_space();
    let mut key = [0; MOST_ROOM];
    let mut value = [0; MOST_ROOM];
    let upper = bound_in(line, &mut last)?;
    let key = key.get_mut(..number_to(line, 4, MOST_ROOM)?)?;
    let value = value.get_mut(..number_to(line, 5, MOST_ROOM)?)?;
    let moved = w.cursor.next(runs, ends, upper, key, value);
    say_next(out, moved.answer, key, value);
    let cursor = moved.cursor;
    Some(State { cursor, ..w })
}

// Calls on the cursor over the runs, which are lent as they are.
fn on_cursor(
    out: &mut Output,
    w: State,
    line: &[u8],
    runs: &[u8],
    ends: &[usize],
) -> Option<State> {
    match (nth_word(line, 1), word_count(line)) {
        (b"new", 4) => new(out, w, line, runs, ends),
        (b"next", 6) => next(out, w, line, runs, ends),
        (b"forge", words) if words == 2 + FILE_COUNT => forge(out, w, line),
        (b"state", 2) => {
            show(out, w.cursor);
            Some(w)
        }
        _ => None,
    }
}

// Answers a line that starts with `runs` or `cursor`: the states that are left, or none where the line is no call. The runs and their
// ends stand at the start of two buffers.
pub fn answer(
    out: &mut Output,
    w: State,
    line: &[u8],
    runs: &mut [u8],
    ends: &mut [usize],
) -> Option<State> {
    let runs_len = w.runs_len.min(runs.len());
    let ends_len = w.ends_len.min(ends.len());
    match nth_word(line, 0) {
        b"runs" => runs::answer(out, w, line, runs, ends),
        _ => on_cursor(out, w, line, &runs[..runs_len], &ends[..ends_len]),
    }
}
