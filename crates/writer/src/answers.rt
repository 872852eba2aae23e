// What the calls answer.
use crate::page_writer::PageWriter;
use types::refusal::Refusal;

// A call's answer, and beside it the writer and the number of stores left.
#[derive(Clone, Copy)]
pub struct Ended<T> {
    pub answer: Result<T, Refusal>,
    pub writer: PageWriter,
    pub left: usize,
}
