// The words of an answer, but for its numbers and bytes.
use std::fmt;
use types::refusal::Refusal;

#[derive(Clone, Copy)]
pub enum Word {
    // The first four start a line.
    Ok,
    // A refusal, by its number.
    No(Refusal),
    None,
    // No entry is left.
    End,
    // The place of a run that is gone.
    Gone,
    // What is done to the flash: an erase, and a store, behind which its offset and its bytes stand.
    Erase,
    Store,
}

impl fmt::Display for Word {
    fn fmt<W: fmt::Write>(&self, f: &mut fmt::Formatter<W>) -> fmt::Result {
        match *self {
            Word::Ok => write!(f, "ok"),
            Word::No(why) => write!(f, "no {}", why.number()),
            Word::None => write!(f, "none"),
            Word::End => write!(f, "end"),
            Word::Gone => write!(f, " gone"),
            Word::Erase => write!(f, " e"),
            Word::Store => write!(f, " s"),
        }
    }
}
