// What answers a script's calls on the runs and on the cursor over them.

#![tactic(auto)]

pub mod calls;
mod runs;
pub mod state;
