// What the calls answer (docs/RULES.md, Merge).
use crate::place::Cursor;
use types::refusal::Refusal;

// The lengths of the key and the value that stand at the start of their buffers.
#[derive(Clone, Copy)]
pub struct Entry {
    pub key_len: usize,
    pub value_len: usize,
}

// The next entry, or none at the merge's end.
pub type NextAnswer = Result<Option<Entry>, Refusal>;

// A call's answer, and the cursor beside it.
#[derive(Clone, Copy)]
pub struct Moved<T> {
    pub cursor: Cursor,
    pub answer: Result<T, Refusal>,
}
