// What answers a script's calls on the allocator.

#![tactic(auto)]

pub mod calls;
mod several;
