// The states that the calls of a script work on. The bytes of the flash, those of the runs and the run ends stand beside them, each
// at the start of a buffer.
use alloc::allocator::Allocator;
use cursor::place::{Cursor, Place, RunPlace};
use reader::dehydrated::DehydratedPageReader;
use reader::page_reader::PageReader;
use replay_reader::state::SLOTS;
use types::config::{FILE_COUNT, PAGE_SIZE};
use writer::page_writer::PageWriter;

const STORES_AT_FIRST: usize = 1000;

// The buffers.
#[derive(Drop)]
pub(crate) struct Space<'a> {
    pub flash: &'a mut [u8],
    pub runs: &'a mut [u8],
    pub ends: &'a mut [usize],
}

#[derive(Clone, Copy)]
pub(crate) struct World {
    pub allocator: Allocator,
    // How many bytes the flash has.
    pub flash_len: usize,
    pub readers: replay_reader::state::State,
    pub writers: replay_writer::state::State,
    pub cursors: replay_cursor::state::State,
}

// A new reader, and one in each slot.
fn new_readers() -> replay_reader::state::State {
    let reader = PageReader::new();
    replay_reader::state::State {
        reader,
        kept: [DehydratedPageReader::from(reader); SLOTS],
    }
}

fn new_writers() -> replay_writer::state::State {
    replay_writer::state::State {
        writer: PageWriter::new(),
        left: STORES_AT_FIRST,
    }
}

// No runs, and a cursor to which every run is gone.
fn new_cursors() -> replay_cursor::state::State {
    let gone = RunPlace { place: Place::Gone };
    let places = [gone; FILE_COUNT];
    replay_cursor::state::State {
        cursor: Cursor { places },
        runs_len: 0,
        ends_len: 0,
    }
}

pub(crate) fn new_world() -> World {
    World {
        allocator: Allocator::new(),
        flash_len: PAGE_SIZE,
        readers: new_readers(),
        writers: new_writers(),
        cursors: new_cursors(),
    }
}
