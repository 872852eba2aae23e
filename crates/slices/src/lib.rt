// Parts of lent bytes, and the numbers in them.

#![tactic(auto)]

pub mod field;
pub mod part;
