// Files, read one behind the other into one buffer.
ghost use Rattle.std.specs.Prelude.{◌≤◌, length};

use crate::arguments::ARGUMENT_ROOM;
use crate::say::{fail, wrong};
use slices::part::part_of;
use std::env::Env;
use std::fs::File;
use std::io;
use std::io::Read;

// Why the room does not have all of a file's bytes.
#[derive(Clone, Copy, Debug, PartialEq, Eq)]
pub enum NotFilled {
    // The file has more bytes than there is room for. The caller says how many it takes.
    More,
    // The file could not be read, which was said.
    Bad,
}

// Reads until the room is full, the file ends or a read fails: how many bytes it put at the room's start.
pub fn read_full(file: &mut impl Read, room: &mut [u8]) -> usize
    ensures in_bounds { result ≤ length room.new }
{
    let mut done = 0;
    while done < room.len() {
        let n = file.read(&mut room[done..]).unwrap_or(0);
        if n == 0 {
            return done;
        }
        done += n;
    }
    done
}

// The file's bytes from an index on: where they end.
fn fill(
    rt: &HostRuntime,
    program: &[u8],
    file: &mut impl Read,
    name: &[u8],
    room: &mut [u8],
    at: usize,
) -> Result<usize, NotFilled> {
    let mut more = [0; 1];
    if room.len() < at {
        return Err(NotFilled::Bad);
    }
    let n = read_full(file, &mut room[at..]);
    match file.read(&mut more) {
        Ok(0) => Ok(at + n),
        Ok(_) => Err(NotFilled::More),
        Err(why) => {
            fail(rt, program, name, &why);
            Err(NotFilled::Bad)
        }
    }
}

// Opens a file to read. A path is text here, so a name that is no UTF-8 is refused.
fn open(rt: &HostRuntime, name: &[u8]) -> io::Result<File> {
    match str::from_utf8(name) {
        Ok(path) => File::open(rt, path),
        Err(_) => Err(io::Error::from(io::ErrorKind::InvalidFilename)),
    }
}

// The same for the file of a name; - is standard input.
fn read_named(
    rt: &HostRuntime,
    program: &[u8],
    name: &[u8],
    room: &mut [u8],
    at: usize,
) -> Result<usize, NotFilled> {
    if name == b"-".as_slice() {
        let mut input = rt.stdin();
        return fill(rt, program, &mut input, b"standard input", room, at);
    }
    match open(rt, name) {
        Ok(mut file) => fill(rt, program, &mut file, name, room, at),
        Err(why) => {
            fail(rt, program, name, &why);
            Err(NotFilled::Bad)
        }
    }
}

// The same for the file that argument i names.
pub fn read_file(
    rt: &HostRuntime,
    program: &[u8],
    i: usize,
    room: &mut [u8],
    at: usize,
) -> Result<usize, NotFilled> {
    let mut name = [0; ARGUMENT_ROOM];
    match rt.arg(i, &mut name) {
        Ok(n) => read_named(rt, program, &name[..n], room, at),
        Err(_) => {
            wrong(
                rt,
                program,
                b"a name is longer than 4096 bytes",
                part_of(&name, 0, 60),
            );
            Err(NotFilled::Bad)
        }
    }
}
