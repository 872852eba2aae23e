// The runs, read one behind the other into one buffer.
use desk::files::{NotFilled, read_file};
use desk::say;
use desk::say::Said;
use types::config::FILE_COUNT;

// Reads the run that argument i names: where it ends.
fn read_run(rt: &HostRuntime, i: usize, room: &mut [u8], at: usize) -> Result<usize, Said> {
    let most = room.len();
    let filled = read_file(rt, b"offers", i, room, at);
    if let Err(NotFilled::More) = filled {
        say::text(rt, b"offers: more than ");
        say::number(rt, most);
        say::text(rt, b" bytes in all runs: ");
        say::argument(rt, i);
        say::text(rt, b"\n");
    }
    filled.map_err(|_| Said)
}

// Reads every run that was named: where each ends.
pub(crate) fn read_all(
    rt: &HostRuntime,
    names: &[usize],
    room: &mut [u8],
    ends: &mut [usize; FILE_COUNT],
) -> Result<(), Said> {
    let mut at = 0;
    for (name, end) in names.iter().zip(ends.iter_mut()) {
        at = read_run(rt, *name, room, at)?;
        *end = at;
    }
    Ok(())
}
