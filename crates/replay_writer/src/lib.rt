// What answers a script's calls on the writer.

#![tactic(auto)]

pub mod calls;
pub mod state;
mod stores;
