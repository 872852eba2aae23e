// A program's arguments, as they were typed: bytes, which need be no text.
use std::env::{Env, FillError};

// Room for the bytes of an argument, which hold any path.
pub const ARGUMENT_ROOM: usize = 4096;

// How many arguments there are, the program's name among them.
pub fn argument_count(rt: &impl Env) -> usize {
    let mut start = [0; 1];
    for i in 0..usize::MAX {
        if let Err(FillError::NotPresent) = rt.arg(i, &mut start) {
            return i;
        }
    }
    usize::MAX
}
