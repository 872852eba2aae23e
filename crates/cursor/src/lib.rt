// The merge over all runs: a cursor from a lower bound, and the next entry under an upper bound.

#![tactic(auto)]

pub mod answers;
pub mod checks;
pub mod deliver;
pub mod look;
pub mod merge;
pub mod pass;
pub mod place;
pub mod runs;
