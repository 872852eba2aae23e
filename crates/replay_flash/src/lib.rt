// What answers a script's calls on the flash itself, and those for a sum.

#![tactic(auto)]

pub mod calls;
mod sums;
