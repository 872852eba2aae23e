// The order of keys: bytewise, a prefix first (docs/FORMAT.md, Runs).
ghost use Rattle.std.specs.Prelude.{◌≡◌};
ghost use Rattle.keys.specs.Keys.{compare_keys};

use std::cmp::Ordering;

// How the first key stands to the second.
#[tactic(auto, using(crate::proofs::StdLaws::as_std))]
pub fn compare(a: &[u8], b: &[u8]) -> Ordering
    ensures answers { result ≡ compare_keys a.now b.now }
{
    a.cmp(b)
}
