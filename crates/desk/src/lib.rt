// What the programs for people share: their arguments, words on standard output and standard error, and files read into room.

#![tactic(auto)]

pub mod arguments;
pub mod choice;
pub mod files;
pub mod say;
