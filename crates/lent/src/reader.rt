// A reader that holds the run it reads. Its calls are thin: each hands the run and its position on to a function over lent bytes.
ghost use Rattle.std.specs.Prelude.{◌≡◌};
ghost use Rattle.run.specs.Records.{key_in, value_in};
ghost use Rattle.lent.specs.Readers.{reader_at, step_of, moved_on};
ghost use Rattle.lent.specs.Steps.{step_at};

use crate::step::{Step, step_at};
use run::record::{Head, Record};

#[derive(Clone, Copy)]
pub struct RunReader<'a> {
    pub run: &'a [u8],
    // Counted from the run's start.
    pub at: usize,
}

// A reader at the run's start.
pub fn new<'a>(run: &'a [u8]) -> RunReader<'a>
    ensures answers { result ≡ reader_at run.entry 0 }
{
    RunReader { run, at: 0 }
}

// Answers the record at the position and moves the reader past it. At the end, or on a refusal, the reader stays.
pub fn next<'s, 'a>(reader: &'s mut RunReader<'a>) -> Head
    ensures answers { result ≡ (step_of reader.old).head }
    ensures moves { reader.new ≡ moved_on reader.old }
{
    let step = step_at(reader.run, reader.at);
    reader.at = step.at;
    step.head
}

// A record's key, where it lies in the run.
pub fn key<'a>(reader: RunReader<'a>, found: Record) -> &'a [u8]
    ensures answers { result.now ≡ key_in reader.entry.run.now found }
{
    found.key_in(reader.run)
}

// A record's value, where it lies in the run.
pub fn value<'a>(reader: RunReader<'a>, found: Record) -> &'a [u8]
    ensures answers { result.now ≡ value_in reader.entry.run.now found }
{
    found.value_in(reader.run)
}

// One step at a position, for callers that hold no reader.
pub fn read_at(run: &[u8], at: usize) -> Step
    ensures answers { result ≡ step_at run.now at }
{
    let mut reader = RunReader { run, at };
    let head = next(&mut reader);
    Step {
        head,
        at: reader.at,
    }
}
