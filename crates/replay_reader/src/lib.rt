// What answers a script's calls on the reader and on the slots that keep one.

#![tactic(auto)]

pub mod calls;
mod slots;
pub mod state;
