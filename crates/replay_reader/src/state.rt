// The states that a script's calls on readers work on.
use reader::dehydrated::DehydratedPageReader;
use reader::page_reader::PageReader;

// Places for readers that are kept.
pub const SLOTS: usize = 4;

#[derive(Clone, Copy)]
pub struct State {
    pub reader: PageReader,
    pub kept: [DehydratedPageReader; SLOTS],
}
