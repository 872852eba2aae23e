// The words of a script: the text that the replay program reads, a call a line, with the arguments that they stand for.

#![tactic(auto)]

pub mod args;
pub mod space;
pub mod words;
