// One run: its records, bounds, and the search for a lower bound.

#![tactic(auto)]

pub mod bound;
pub mod record;
pub mod search;
