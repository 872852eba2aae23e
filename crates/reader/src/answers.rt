// What the calls answer.
ghost use Rattle.std.specs.Prelude.{◌≡◌, eqb, Ok};
ghost use Rattle.types.specs.Answers.{size_or};
ghost use Rattle.reader.specs.Answers.{end_test_told};
ghost use Rattle.reader.specs.Calls.{passage_from};

use crate::page_reader::PageReader;
use types::refusal::Refusal;

// The answer of a call that moves the reader, and the reader: as it was, where the call is refused.
#[derive(Clone, Copy)]
pub struct Passage<T> {
    pub answer: Result<T, Refusal>,
    pub reader: PageReader,
}

impl<T> Passage<T> {
    // What a call comes to: its answer and the reader that it leads to, or the refusal and the reader as it was.
    pub(crate) fn of(reader: PageReader, done: Result<(T, PageReader), Refusal>) -> Passage<T>
        ensures answers { result ≡ passage_from reader done }
    {
        match done {
            Ok((value, reached)) => Passage {
                answer: Ok(value),
                reader: reached,
            },
            Err(why) => Passage {
                answer: Err(why),
                reader,
            },
        }
    }
}

// What is_at_eof says.
#[derive(Clone, Copy, Debug, PartialEq, Eq)]
pub enum EndTest {
    AtEnd,
    More,
}

impl EndTest {
    // Whether the reader is at its end.
    pub fn at_end(self) -> bool
        ensures answers { result ≡ eqb (size_or 0 0 (end_test_told (Ok self))) 1 }
    {
        match self {
            EndTest::AtEnd => true,
            EndTest::More => false,
        }
    }
}
