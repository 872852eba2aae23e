// The bench's jobs: each is a whole piece of work on numbers and lent bytes, which bench/ times beside the original. Callers from C or Rust
// that want the calls themselves have no library yet.

#![tactic(auto)]

pub mod allocating;
pub mod merging;
pub mod reading;
pub mod several;
pub mod sums;
mod telling;
pub mod writing;
