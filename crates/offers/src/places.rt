// Where a merge was refused: in which run, and how far into it; and which run decided an entry.
use cursor::place::{Cursor, Place};
use cursor::runs::run_of;
use run::record::head_at;
use run::search::search;
use slices::part::part_of;
use std::cmp::Ord;
use std::ops::Bound;

// A run and a position in it.
#[derive(Clone, Copy)]
pub(crate) struct Spot {
    pub run: usize,
    pub at: usize,
}

// The runs, one behind the other, and where each ends.
#[derive(Clone, Copy)]
pub(crate) struct Runs<'a> {
    pub bytes: &'a [u8],
    pub ends: &'a [usize],
}

impl<'a> Runs<'a> {
    // The first `count` runs.
    pub(crate) fn first(bytes: &'a [u8], ends: &'a [usize], count: usize) -> Runs<'a> {
        let ends = &ends[..count.min(ends.len())];
        let last = ends.last().copied().unwrap_or(0);
        Runs {
            bytes: part_of(bytes, 0, last),
            ends,
        }
    }

    fn run(self, i: usize) -> &'a [u8] {
        run_of(self.bytes, self.ends, i)
    }
}

// The position of a run's first record that is refused, or its end.
fn first_bad(run: &[u8]) -> usize {
    let mut at = 0;
    for _ in 0..run.len() {
        let Ok(Some(record)) = head_at(run, at) else {
            return at;
        };
        at = record.next;
    }
    at
}

// Where the way to the first entry is refused.
pub(crate) fn start_spot(runs: Runs<'_>, lower: Bound<&[u8]>) -> Option<Spot> {
    for i in 0..runs.ends.len() {
        let run = runs.run(i);
        if search(run, lower).is_err() {
            return Some(Spot {
                run: i,
                at: first_bad(run),
            });
        }
    }
    None
}

// Where the way from one entry to the next is refused.
pub(crate) fn next_spot(runs: Runs<'_>, cursor: Cursor) -> Option<Spot> {
    for (i, p) in cursor.places.iter().enumerate() {
        if let Place::At(at) = p.place {
            if head_at(runs.run(i), at).is_err() {
                return Some(Spot { run: i, at });
            }
        }
    }
    None
}

fn has_at(run: &[u8], at: usize, key: &[u8]) -> bool {
    match head_at(run, at) {
        Ok(Some(record)) => record.key_in(run) == key,
        _ => false,
    }
}

// Whether the first record from a position on whose key is not below this key has this key.
fn has_from(run: &[u8], at: usize, key: &[u8]) -> bool {
    let rest = part_of(run, at, run.len());
    match search(rest, Bound::Included(key)) {
        Ok(Some(place)) => has_at(rest, place, key),
        _ => false,
    }
}

// The run that decided an entry: the newest that has its key, from where the cursor stood before it.
pub(crate) fn decider(runs: Runs<'_>, cursor: Cursor, key: &[u8]) -> Option<usize> {
    let mut newest = None;
    for (i, p) in cursor.places.iter().enumerate() {
        if let Place::At(at) = p.place {
            if has_from(runs.run(i), at, key) {
                newest = Some(i);
            }
        }
    }
    newest
}
