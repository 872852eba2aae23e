// The calls that are open to callers (docs/RULES.md, Merge; cursor.rs).
ghost use Rattle.std.specs.Prelude.{◌≡◌, length};
ghost use Rattle.std.specs.Range.Bound.{bound_map};
ghost use Rattle.run.specs.Kinds.{kind_of, key_of};
ghost use Rattle.cursor.specs.New.{new_by, new_of};
ghost use Rattle.cursor.specs.Next.{places_by, next_of, next_key, next_value};

use crate::answers::{Entry, Moved, NextAnswer};
use crate::checks::{check_new, check_next};
use crate::deliver::deliver;
use crate::pass::{Pass, settled};
use crate::place::{Cursor, GONE, Place, RunPlace};
use crate::runs::run_of;
use run::search::search;
use std::ops::Bound;
use types::config::FILE_COUNT;
use types::refusal::Refusal;

// Each run's place under a lower bound. The runs are searched in list order.
fn placed(
    runs: &[u8],
    ends: &[usize],
    lower: Bound<&[u8]>,
) -> Result<[RunPlace; FILE_COUNT], Refusal>
    ensures answers { new_by result ≡ new_of runs.now ends.now (kind_of lower.entry) (key_of (bound_map (λ x. x.now) lower.entry)) }
{
    check_new(runs.len(), ends)?;
    let mut places = [GONE; FILE_COUNT];
    for i in 0..ends.len() {
        if let Some(at) = search(run_of(runs, ends, i), lower)? {
            places[i] = RunPlace {
                place: Place::At(at),
            };
        }
    }
    Ok(places)
}

// Only an entry steps its holders on.
#[tactic(auto, unfolding(crate::specs::Next::places_by))]
fn places_by(answer: NextAnswer, pass: Pass) -> [RunPlace; FILE_COUNT]
    ensures answers { result ≡ places_by answer pass }
{
    match answer {
        Ok(Some(_)) => pass.stepped,
        Ok(None) | Err(_) => pass.places,
    }
}

impl Cursor {
    // Makes a cursor that starts at a lower bound. In a refused one every run is gone.
    pub fn new(runs: &[u8], ends: &[usize], lower: Bound<&[u8]>) -> Moved<()>
        ensures answers { result ≡ new_of runs.now ends.now (kind_of lower.entry) (key_of (bound_map (λ x. x.now) lower.entry)) }
    {
        match placed(runs, ends, lower) {
            Ok(places) => Moved {
                cursor: Cursor { places },
                answer: Ok(()),
            },
            Err(why) => Moved {
                cursor: Cursor {
                    places: [GONE; FILE_COUNT],
                },
                answer: Err(why),
            },
        }
    }

    // Hands out the next entry under an upper bound: its key and value go to the start of their buffers.
    pub fn next(
        self,
        runs: &[u8],
        ends: &[usize],
        upper: Bound<&[u8]>,
        key: &mut [u8],
        value: &mut [u8],
    ) -> Moved<Option<Entry>>
        ensures answers { result ≡ next_of runs.now ends.now (kind_of upper.entry) (key_of (bound_map (λ x. x.now) upper.entry)) self
            (length key.old) (length value.old) }
        ensures bytes { (key.new ≡ next_key runs.now ends.now (kind_of upper.entry) (key_of (bound_map (λ x. x.now) upper.entry)) self key.old value.old)
            × (value.new ≡ next_value runs.now ends.now (kind_of upper.entry) (key_of (bound_map (λ x. x.now) upper.entry)) self key.old value.old) }
    {
        if let Err(why) = check_next(runs.len(), ends, self.places) {
            return Moved {
                cursor: self,
                answer: Err(why),
            };
        }
        let pass = settled(self.places, runs, ends, upper);
        let answer = deliver(pass.lowest, runs, ends, key, value);
        let places = places_by(answer, pass);
        Moved {
            cursor: Cursor { places },
            answer,
        }
    }
}
