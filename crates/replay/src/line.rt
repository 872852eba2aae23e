// One line of a script.
use crate::world::{Space, World};
use replay_say::Output;
use script::words::nth_word;

// The bytes that a line can have.
pub(crate) const LONGEST: usize = 20_000;

fn call(out: &mut Output, w: World, line: &[u8], space: &mut Space) -> Option<World> {
    let mut left = w;
    let flash_len = w.flash_len.min(space.flash.len());
    match nth_word(line, 0) {
        b"crc" | b"flash" => {
            left.flash_len = replay_flash::calls::answer(out, flash_len, line, space.flash)?;
        }
        b"alloc" => left.allocator = replay_alloc::calls::answer(out, w.allocator, line)?,
        b"reader" | b"slot" => {
            let flash = &space.flash[..flash_len];
            left.readers = replay_reader::calls::answer(out, w.readers, line, flash)?;
        }
        b"writer" => {
            let flash = &mut space.flash[..flash_len];
            left.writers = replay_writer::calls::answer(out, w.writers, line, flash)?;
        }
        b"runs" | b"cursor" => {
            left.cursors = replay_cursor::calls::answer(
                out, w.cursors, line, space.runs, space.ends,
            )?;
        }
        _ => return None,
    }
    Some(left)
}

// Whether the line is empty or starts with `#`: such a line has no answer.
fn is_silent(line: &[u8]) -> bool {
    line.is_empty() || line[0] == b'#'
}

// The world after a line, or none where the line is no call or passes a limit.
pub(crate) fn answer(out: &mut Output, w: World, line: &[u8], space: &mut Space) -> Option<World> {
    if LONGEST < line.len() {
        return None;
    }
    if is_silent(line) {
        return Some(w);
    }
    call(out, w, line, space)
}
