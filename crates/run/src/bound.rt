// Bounds of a merge (docs/RULES.md, Runs): std's, which lend the key. It may have any length.
ghost use Rattle.std.specs.Prelude.{◌≡◌};
ghost use Rattle.std.specs.Range.Bound.{bound_map};
ghost use Rattle.run.specs.Bounds.{is_past};
ghost use Rattle.run.specs.Kinds.{kind_of, key_of};

use keys::order::compare;
use std::ops::Bound;

// Whether a key lies past an upper bound.
#[tactic(auto, unfolding(crate::specs::Bounds::past_by))]
pub fn is_past(key: &[u8], upper: Bound<&[u8]>) -> bool
    ensures answers { result ≡ is_past (kind_of upper.entry) (key_of (bound_map (λ x. x.now) upper.entry)) key.now }
{
    match upper {
        Bound::Unbounded => false,
        Bound::Included(upper) => compare(key, upper).is_gt(),
        Bound::Excluded(upper) => compare(key, upper).is_ge(),
    }
}
