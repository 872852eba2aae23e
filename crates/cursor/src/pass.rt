// A pass over all heads, and passes until the lowest key is live (docs/RULES.md, Merge; cursor.rs, the loop of next).
ghost use Rattle.std.specs.Prelude.{◌≡◌, ◌≤◌, length};
ghost use Rattle.std.specs.Range.Bound.{bound_map};
ghost use Rattle.types.specs.Build.{file_count};
ghost use Rattle.run.specs.Kinds.{kind_of, key_of};
ghost use Rattle.cursor.specs.Pass.{pass_of};
ghost use Rattle.cursor.specs.Places.{at_place};
ghost use Rattle.cursor.specs.Settle.{is_hidden, settled};

use crate::look::{Holder, Look, Lowest, look_at};
use crate::place::{GONE, Place, RunPlace};
use crate::runs::run_of;
use run::record::Record;
use std::ops::Bound;
use types::config::FILE_COUNT;

// The places with the runs found gone, the same with the holders of the lowest key stepped on, and that key.
#[derive(Clone, Copy)]
pub struct Pass {
    pub places: [RunPlace; FILE_COUNT],
    pub stepped: [RunPlace; FILE_COUNT],
    pub lowest: Lowest,
}

// The place after a record.
fn after(it: Record) -> RunPlace
    ensures answers { result ≡ at_place it.next }
{
    RunPlace {
        place: Place::At(it.next),
    }
}

// The two rows of places stay in this function, so that a look copies nothing.
fn pass_over(
    start: [RunPlace; FILE_COUNT],
    runs: &[u8],
    ends: &[usize],
    upper: Bound<&[u8]>,
) -> Pass
    requires { length ends.now ≤ file_count }
    ensures answers { result ≡ pass_of runs.now ends.now (kind_of upper.entry) (key_of (bound_map (λ x. x.now) upper.entry)) start }
{
    let mut places = start;
    let mut stepped = start;
    let mut lowest = Ok(None);
    let mut low = &runs[..0];
    for i in 0..ends.len() {
        let run = run_of(runs, ends, i);
        let look = match look_at(run, places[i].place, upper, lowest, low) {
            Ok(look) => look,
            Err(why) => {
                return Pass {
                    places,
                    stepped,
                    lowest: Err(why),
                };
            }
        };
        match look {
            Look::Gone => {
                places[i] = GONE;
                stepped[i] = GONE;
            }
            Look::Above => {}
            Look::Level(same) => {
                stepped[i] = after(same);
                lowest = Ok(Some(Holder { run: i, head: same }));
                low = same.key_in(run);
            }
            Look::Below(lower) => {
                stepped = places;
                stepped[i] = after(lower);
                lowest = Ok(Some(Holder {
                    run: i,
                    head: lower,
                }));
                low = lower.key_in(run);
            }
        }
    }
    Pass {
        places,
        stepped,
        lowest,
    }
}

// Whether the lowest key is a deletion.
#[tactic(auto, unfolding(crate::specs::Settle::is_hidden))]
fn is_hidden(lowest: Lowest) -> bool
    ensures answers { result ≡ is_hidden lowest }
{
    match lowest {
        Ok(Some(held)) => held.head.deleted,
        Ok(None) | Err(_) => false,
    }
}

// Passes, each from where the one before stepped on to, until the lowest key is no deletion.
pub(crate) fn settled(
    start: [RunPlace; FILE_COUNT],
    runs: &[u8],
    ends: &[usize],
    upper: Bound<&[u8]>,
) -> Pass
    requires { length ends.now ≤ file_count }
    ensures answers { result ≡ settled runs.now ends.now (kind_of upper.entry) (key_of (bound_map (λ x. x.now) upper.entry)) start }
{
    let mut places = start;
    loop {
        let pass = pass_over(places, runs, ends, upper);
        if !is_hidden(pass.lowest) {
            return pass;
        }
        places = pass.stepped;
    }
}
