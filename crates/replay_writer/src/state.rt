// The states that a script's calls on the writer work on.
use writer::page_writer::PageWriter;

#[derive(Clone, Copy)]
pub struct State {
    pub writer: PageWriter,
    // Stores left.
    pub left: usize,
}
