// A run, read by a reader that holds it and, step by step, by a caller without one.
use crate::say;
use lent::reader;
use run::record::Head;

// The first record's key and value, by a reader that holds the run.
fn say_first(rt: &impl Print, run: &[u8]) {
    let mut reader = reader::new(run);
    if let Ok(Some(found)) = reader::next(&mut reader) {
        say::text(rt, "first ");
        say::bytes(rt, reader::key(reader, found));
        say::text(rt, " = ");
        say::bytes(rt, reader::value(reader, found));
        say::text(rt, "\n");
    }
}

fn say_head(rt: &impl Print, run: &[u8], head: Head) {
    match head {
        Ok(Some(record)) => {
            say::text(rt, " ");
            say::bytes(rt, record.key_in(run));
        }
        Ok(None) => say::text(rt, " end"),
        Err(why) => say::refused(rt, why),
    }
}

// What stands at a position, and the position afterwards.
fn say_step(rt: &impl Print, run: &[u8], at: usize) -> usize {
    let step = reader::read_at(run, at);
    say::text(rt, "at");
    say::number(rt, at);
    say_head(rt, run, step.head);
    say::text(rt, ", then at");
    say::number(rt, step.at);
    say::text(rt, "\n");
    step.at
}

// Three records, a refusal that moves nothing, the end, and a position past the run.
pub(crate) fn tour(rt: &impl Print, run: &[u8]) {
    say_first(rt, run);
    let second = say_step(rt, run, 0);
    let third = say_step(rt, run, second);
    let rest = say_step(rt, run, third);
    say_step(rt, run, rest);
    say_step(rt, run, run.len());
    say_step(rt, run, 1000);
}
