// The search of one run for a lower bound (docs/RULES.md, Runs; cursor.rs, the linear search).
ghost use Rattle.std.specs.Prelude.{◌≡◌};
ghost use Rattle.std.specs.Range.Bound.{bound_map};
ghost use Rattle.run.specs.Kinds.{kind_of, key_of};
ghost use Rattle.run.specs.Search.{level_at, search_in};

use crate::record::head_at;
use keys::order::compare;
use std::cmp::Ordering;
use std::ops::Bound;
use types::refusal::Refusal;

// The place for a key that equals the bound.
fn level(lower: Bound<&[u8]>, at: usize, next: usize) -> usize
    ensures answers { result ≡ level_at (kind_of lower.entry) at next }
{
    match lower {
        Bound::Unbounded | Bound::Included(_) => at,
        Bound::Excluded(_) => next,
    }
}

// The place of the first key that is not below a lower bound; none where the run has no such key.
#[tactic(auto, unfolding(crate::specs::Search::search_in))]
pub fn search(run: &[u8], lower: Bound<&[u8]>) -> Result<Option<usize>, Refusal>
    ensures answers { result ≡ search_in run.now (kind_of lower.entry) (key_of (bound_map (λ x. x.now) lower.entry)) }
{
    let (Bound::Included(key) | Bound::Excluded(key)) = lower else {
        return Ok(Some(0));
    };
    let mut at: usize = 0;
    loop {
        let Some(record) = head_at(run, at)? else {
            return Ok(None);
        };
        let next = record.next;
        match compare(record.key_in(run), key) {
            Ordering::Less => {
                at = next;
            }
            Ordering::Equal => {
                return Ok(Some(level(lower, at, next)));
            }
            Ordering::Greater => {
                return Ok(Some(at));
            }
        }
    }
}
