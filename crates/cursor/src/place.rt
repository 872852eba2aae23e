// Where a cursor stands (docs/RULES.md, Runs).
use types::config::FILE_COUNT;

// A run's place: gone, or a position that counts from the run's start.
// Gone is the first variant: the logic reads it past an array's end.
#[derive(Clone, Copy)]
pub enum Place {
    Gone,
    At(usize),
}

#[derive(Clone, Copy)]
pub struct RunPlace {
    pub place: Place,
}

// A place for each run, in list order. A later run is higher and newer.
#[derive(Clone, Copy)]
pub struct Cursor {
    pub places: [RunPlace; FILE_COUNT],
}

pub(crate) const GONE: RunPlace = RunPlace { place: Place::Gone };
