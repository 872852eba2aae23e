// The thin layer over the core: an allocator that is lent and changed in place, and a run reader that holds the run it reads.

#![tactic(auto)]

pub mod allocator;
pub mod reader;
pub mod step;
