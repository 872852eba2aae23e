// Arrays for what a program reads. Each says its length once more, so that no caller has to look into a list this long.
ghost use Rattle.std.specs.Prelude.{◌≡◌, length};
ghost use Rattle.types.specs.Build.{page_size, erase_value};
ghost use Rattle.slices.specs.Patch.{blank};
ghost use Rattle.script.specs.Spaces.{flash_room, all_runs_room, entry_room};

use types::config::{
    ERASE_VALUE, FILE_COUNT, MAX_KEY_SIZE, MAX_PAGE_COUNT, MAX_VALUE_SIZE, PAGE_SIZE,
};

// A whole script, the bytes of one line, and runs.
pub const SCRIPT_ROOM: usize = 1048576;

pub const LINE_ROOM: usize = 16384;

pub const RUNS_ROOM: usize = 131072;

// A flash of one page more than there can be.
pub const FLASH_ROOM: usize = (MAX_PAGE_COUNT + 1) * PAGE_SIZE;

// As many runs as a merge takes, of 65,536 bytes each.
pub const ALL_RUNS_ROOM: usize = FILE_COUNT * 65536;

// The longest line of an entry: each byte of its key and of its value spelled in four, a tab and a newline.
pub const ENTRY_ROOM: usize = 4 * (MAX_KEY_SIZE + MAX_VALUE_SIZE) + 2;

// Room for N bytes, all of this value.
pub fn space<const N: usize>(value: u8) -> [u8; N]
    ensures answers { result ≡ blank value N }
    ensures room { N ≡ length result }
{
    [value; N]
}

// Room for a whole script.
pub fn script_space() -> [u8; SCRIPT_ROOM]
    ensures answers { result ≡ blank 0 1048576 }
    ensures value { 1048576 ≡ length result }
{
    space::<SCRIPT_ROOM>(0)
}

// Room for the bytes of one line.
pub fn line_space() -> [u8; LINE_ROOM]
    ensures answers { result ≡ blank 0 16384 }
    ensures value { 16384 ≡ length result }
{
    space::<LINE_ROOM>(0)
}

// Room for the bytes of one page.
pub fn page_space() -> [u8; PAGE_SIZE]
    ensures answers { result ≡ blank 0 page_size }
    ensures page_size_value { page_size ≡ length result }
{
    space::<PAGE_SIZE>(0)
}

// Room for a flash, erased.
pub fn flash_space() -> [u8; FLASH_ROOM]
    ensures answers { result ≡ blank erase_value flash_room }
    ensures flash_room_value { flash_room ≡ length result }
{
    space::<FLASH_ROOM>(ERASE_VALUE)
}

// Room for runs.
pub fn runs_space() -> [u8; RUNS_ROOM]
    ensures answers { result ≡ blank 0 131072 }
    ensures value { 131072 ≡ length result }
{
    space::<RUNS_ROOM>(0)
}

// Room for the runs of a merge.
pub fn all_runs_space() -> [u8; ALL_RUNS_ROOM]
    ensures answers { result ≡ blank 0 all_runs_room }
    ensures all_runs_room_value { all_runs_room ≡ length result }
{
    space::<ALL_RUNS_ROOM>(0)
}

// Room for the line of an entry.
pub fn entry_space() -> [u8; ENTRY_ROOM]
    ensures answers { result ≡ blank 0 entry_room }
    ensures entry_room_value { entry_room ≡ length result }
{
    space::<ENTRY_ROOM>(0)
}
