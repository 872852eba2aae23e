// The words that every other crate uses: page numbers, refusals, shared answers, and the numbers of the build.

#![tactic(auto)]

pub mod answers;
pub mod config;
pub mod page_id;
pub mod refusal;
