// Bytes and numbers as digits: hex both ways, decimal numbers, and a number's sign apart from its size.

#![tactic(auto)]

pub mod hex;
pub mod number;
