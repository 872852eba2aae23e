// The checks before the work (docs/RULES.md, Order of checks, Ranges): 10 for the run ends, then 11 for the places.
ghost use Rattle.std.specs.Prelude.{◌≡◌};
ghost use Rattle.cursor.specs.Checks.{good_runs, good_place, good_places, new_check, next_check};

use crate::place::{Place, RunPlace};
use crate::runs::run_len;
use types::config::FILE_COUNT;
use types::refusal::Refusal;

// Whether there are no more ends than files, no end falls, and none is past a buffer of `size` bytes.
fn good_runs(size: usize, ends: &[usize]) -> bool
    ensures answers { result ≡ good_runs size ends.now }
{
    if FILE_COUNT < ends.len() {
        return false;
    }
    let mut from: usize = 0;
    for &to in ends {
        let good = (from <= to) & (to <= size);
        if !good {
            return false;
        }
        from = to;
    }
    true
}

// Whether a place is good: it is gone, or a position within a run that is there.
#[tactic(auto, unfolding(crate::specs::Checks::good_place))]
fn good_place(place: Place, ends: &[usize], i: usize) -> bool
    ensures answers { result ≡ good_place ends.now i place }
{
    match place {
        Place::Gone => true,
        Place::At(at) => (i < ends.len()) & (at <= run_len(ends, i)),
    }
}

fn good_places(places: [RunPlace; FILE_COUNT], ends: &[usize]) -> bool
    ensures answers { result ≡ good_places ends.now places }
{
    places
        .iter()
        .enumerate()
        .all(|(i, run)| good_place(run.place, ends, i))
}

#[tactic(auto, unfolding(crate::specs::Checks::new_check))]
pub(crate) fn check_new(size: usize, ends: &[usize]) -> Result<(), Refusal>
    ensures answers { result ≡ new_check size ends.now }
{
    if good_runs(size, ends) {
        Ok(())
    } else {
        Err(Refusal::BadRuns)
    }
}

#[tactic(auto, unfolding(crate::specs::Checks::new_check, crate::specs::Checks::next_check))]
pub(crate) fn check_next(
    size: usize,
    ends: &[usize],
    places: [RunPlace; FILE_COUNT],
) -> Result<(), Refusal>
    ensures answers { result ≡ next_check size ends.now places }
{
    check_new(size, ends)?;
    if good_places(places, ends) {
        Ok(())
    } else {
        Err(Refusal::BadState)
    }
}
