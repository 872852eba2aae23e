// Characters in UTF-8, for a program that prints some as they are.

#![tactic(auto)]

pub mod character;
