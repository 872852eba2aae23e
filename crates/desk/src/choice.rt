// What a program's arguments ask for.
use crate::arguments::{ARGUMENT_ROOM, argument_count};
use crate::say::{Said, wrong};
use std::env::Env;

// Why an argument that is longer than its room cannot be taken.
pub const TOO_LONG: &[u8] = b"an argument is longer than 4096 bytes";

// What is asked for by the arguments so far.
pub trait Choice {
    // Takes argument i, which is none where it is longer than its room, or answers what is wrong with it.
    fn take(&mut self, i: usize, word: Option<&[u8]>) -> Result<(), &'static [u8]>;
}

// Takes every argument. Of those that cannot be taken only the first one is named.
pub fn choose<C: Choice>(rt: &HostRuntime, program: &[u8], choice: &mut C) -> Result<(), Said> {
    let mut chosen = Ok(());
    for i in 1..argument_count(rt) {
        let mut space = [0; ARGUMENT_ROOM];
        let (word, shown) = match rt.arg(i, &mut space) {
            Ok(n) => (Some(&space[..n]), &space[..n]),
            Err(_) => (None, &space[..60]),
        };
        if let Err(what) = choice.take(i, word) {
            if chosen.is_ok() {
                wrong(rt, program, what, shown);
            }
            chosen = Err(Said);
        }
    }
    chosen
}
