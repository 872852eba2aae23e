// The states that a script's calls on the runs and the cursor work on.
use cursor::place::Cursor;

#[derive(Clone, Copy)]
pub struct State {
    pub cursor: Cursor,
    // How many bytes the runs have, and how many ends there are.
    pub runs_len: usize,
    pub ends_len: usize,
}
