// Calls on the runs themselves, which stand with their ends at the start of two buffers.
use crate::state::State;
use replay_say::Output;
use replay_say::word::Word;
use script::args::{bytes_at, number_at};
use script::space::line_space;
use script::words::{nth_word, word_count};
use slices::part::put;

fn add_bytes(w: State, line: &[u8], runs: &mut [u8]) -> Option<State> {
    let mut bytes = line_space();
    let n = bytes_at(line, 2, &mut bytes)?;
    let runs_len = w.runs_len.checked_add(n)?;
    put(runs.get_mut(w.runs_len..runs_len)?, &bytes);
    Some(State { runs_len, ..w })
}

fn add_end(w: State, line: &[u8], ends: &mut [usize]) -> Option<State> {
    let end = number_at(line, 2)?;
    *ends.get_mut(w.ends_len)? = end;
    let ends_len = w.ends_len.checked_add(1)?;
    Some(State { ends_len, ..w })
}

fn poke(w: State, line: &[u8], runs: &mut [u8]) -> Option<State> {
    let mut bytes = line_space();
    let at = number_at(line, 2)?;
    let n = bytes_at(line, 3, &mut bytes)?;
    let there = runs.get_mut(..w.runs_len)?;
    put(there.get_mut(at..)?.get_mut(..n)?, &bytes);
    Some(w)
}

fn change(w: State, line: &[u8], runs: &mut [u8], ends: &mut [usize]) -> Option<State> {
    match (nth_word(line, 1), word_count(line)) {
        (b"new", 2) => Some(State {
            runs_len: 0,
            ends_len: 0,
            ..w
        }),
        (b"bytes", 3) => add_bytes(w, line, runs),
        (b"end", 3) => add_end(w, line, ends),
        (b"poke", 4) => poke(w, line, runs),
        _ => None,
    }
}

pub(crate) fn answer(
    out: &mut Output,
    w: State,
    line: &[u8],
    runs: &mut [u8],
    ends: &mut [usize],
) -> Option<State> {
    let left = change(w, line, runs, ends)?;
    out.say_line(Word::Ok);
    Some(left)
}
