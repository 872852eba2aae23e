// What one run's head is to a pass (docs/RULES.md, Merge).
ghost use Rattle.std.specs.Prelude.{◌≡◌};
ghost use Rattle.std.specs.Range.Bound.{bound_map};
ghost use Rattle.run.specs.Kinds.{kind_of, key_of};
ghost use Rattle.cursor.specs.Pass.{against_lowest, look_at};

use crate::place::Place;
use keys::order::compare;
use run::bound::is_past;
use run::record::{Record, head_at};
use std::cmp::Ordering;
use std::ops::Bound;
use types::refusal::Refusal;

// A record and the run that holds it.
#[derive(Clone, Copy)]
pub struct Holder {
    pub run: usize,
    pub head: Record,
}

// The record with the lowest key so far, in the highest run that holds it.
pub type Lowest = Result<Option<Holder>, Refusal>;

#[derive(Clone, Copy)]
pub enum Look {
    // No record, or one past the upper bound.
    Gone,
    // A key above the lowest.
    Above,
    // The lowest key again.
    Level(Record),
    // A key below the lowest, or the first.
    Below(Record),
}

// How a key stands to the lowest so far, whose bytes are `low`.
#[tactic(auto, unfolding(crate::specs::Pass::against_lowest))]
fn against(lowest: Lowest, low: &[u8], key: &[u8]) -> Ordering
    ensures answers { result ≡ against_lowest lowest low.now key.now }
{
    match lowest {
        Ok(Some(_)) => compare(key, low),
        Ok(None) | Err(_) => Ordering::Less,
    }
}

// What a run shows at its place.
#[tactic(auto, unfolding(crate::specs::Pass::look_at, crate::specs::Pass::look_head, crate::specs::Pass::look_by))]
pub(crate) fn look_at(
    run: &[u8],
    place: Place,
    upper: Bound<&[u8]>,
    lowest: Lowest,
    low: &[u8],
) -> Result<Look, Refusal>
    ensures answers { result ≡ look_at run.now place (kind_of upper.entry) (key_of (bound_map (λ x. x.now) upper.entry)) lowest low.now }
{
    let Place::At(at) = place else {
        return Ok(Look::Gone);
    };
    let Some(record) = head_at(run, at)? else {
        return Ok(Look::Gone);
    };
    let key = record.key_in(run);
    if is_past(key, upper) {
        return Ok(Look::Gone);
    }
    match against(lowest, low, key) {
        Ordering::Less => Ok(Look::Below(record)),
        Ordering::Equal => Ok(Look::Level(record)),
        Ordering::Greater => Ok(Look::Above),
    }
}
