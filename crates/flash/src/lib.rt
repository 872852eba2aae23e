// The lent flash: its shape, and the operations that change it.

#![tactic(auto)]

pub mod geometry;
pub mod ops;
