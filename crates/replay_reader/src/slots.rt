// Calls on the slots that keep a reader, and a reader's state as words. A line that names a slot which is not there is no call.
ghost use Rattle.std.specs.Prelude.{◌≤◌};

use crate::calls::moved;
use crate::state::{SLOTS, State};
use reader::dehydrated::DehydratedPageReader;
use replay_say::Output;
use replay_say::said::Sum;
use replay_say::word::Word;
use script::args::{flag_at, number_at, number_to, page_at, word32_at};
use script::words::{nth_word, word_count};

// The six words of a state, from the k-th on.
pub(crate) fn fields_at(line: &[u8], k: usize) -> Option<DehydratedPageReader>
    requires { k ≤ 3 }
{
    let page = page_at(line, k)?;
    let ended = flag_at(line, k + 1)?;
    let offset = number_at(line, k + 2)?;
    let len = number_at(line, k + 3)?;
    let crc = word32_at(line, k + 4)?;
    let position = number_at(line, k + 5)?;
    Some(DehydratedPageReader {
        page,
        ended,
        offset,
        len,
        crc,
        position,
    })
}

pub(crate) fn say_fields(out: &mut Output, d: DehydratedPageReader) {
    out.say(Word::Ok);
    out.say(d.page);
    out.say(d.ended);
    out.say(d.offset);
    out.say(d.len);
    out.say(Sum(d.crc));
    out.say_line(d.position);
}

fn slot_at(line: &[u8]) -> Option<usize> {
    number_to(line, 2, SLOTS - 1)
}

fn kept_at(w: State, line: &[u8]) -> Option<DehydratedPageReader> {
    let slot = slot_at(line)?;
    let kept = w.kept;
    kept.get(slot).copied()
}

pub(crate) fn dehydrate(out: &mut Output, w: State, line: &[u8]) -> Option<State> {
    let slot = slot_at(line)?;
    let mut kept = w.kept;
    let place = kept.get_mut(slot)?;
    let answer = w.reader.dehydrate();
    if let Ok(reader) = answer {
        *place = reader;
    }
    out.say_line(answer.map(|_| ()));
    Some(State { kept, ..w })
}

pub(crate) fn rehydrate_from(
    out: &mut Output,
    w: State,
    line: &[u8],
    flash: &[u8],
) -> Option<State> {
    let kept = kept_at(w, line)?;
    let opening = w.reader.rehydrate_from(flash, kept);
    Some(moved(out, w, opening.answer, opening.reader))
}

fn forge(out: &mut Output, w: State, line: &[u8]) -> Option<State> {
    let slot = slot_at(line)?;
    let mut kept = w.kept;
    *kept.get_mut(slot)? = fields_at(line, 3)?;
    out.say_line(Word::Ok);
    Some(State { kept, ..w })
}

fn show(out: &mut Output, w: State, line: &[u8]) -> Option<State> {
    say_fields(out, kept_at(w, line)?);
    Some(w)
}

pub(crate) fn answer(out: &mut Output, w: State, line: &[u8]) -> Option<State> {
    match (nth_word(line, 1), word_count(line)) {
        (b"forge", 9) => forge(out, w, line),
        (b"state", 3) => show(out, w, line),
        _ => None,
    }
}
