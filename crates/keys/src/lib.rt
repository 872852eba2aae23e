// The order of keys.

#![tactic(auto)]

pub mod order;
