// The numbers of the build that we ship (docs/RULES.md, Build; config.rs).
ghost use Rattle.std.specs.Prelude.{◌≡◌};
ghost use Rattle.types.specs.Build.{the_build};

// Bytes of a page, the smallest part of the flash that is erased at once.
pub const PAGE_SIZE: usize = 4096;

// Stores start and end at multiples of this.
pub const ALIGN: usize = 4;

// What every byte of a page reads as after an erase.
pub const ERASE_VALUE: u8 = 0xFF;

// The most pages that a flash has.
pub const MAX_PAGE_COUNT: usize = 256;

// The longest key and the longest value.
pub const MAX_KEY_SIZE: usize = 64;

pub const MAX_VALUE_SIZE: usize = 1024;

// Files in a level of the tree, and the levels that a full flash comes to: a file of each level has BRANCHING_FACTOR times the pages
// of one of the level below.
pub const BRANCHING_FACTOR: usize = 2;

pub const LEVEL_COUNT: usize = 8;

// The most runs of a merge: the files of every level, and one more.
pub const FILE_COUNT: usize = BRANCHING_FACTOR * LEVEL_COUNT + 1;

// Bytes of a page header without the higher header, and the longest higher header.
pub const PAGE_HEADER_SIZE: usize = 12;

pub const MAX_HEADER_SIZE: usize = 64;

// Bytes of a chunk header, and the longest payload: a page less both headers.
pub const CHUNK_HEADER_SIZE: usize = 8;

pub const MAX_CHUNK_SIZE: usize = PAGE_SIZE - PAGE_HEADER_SIZE - CHUNK_HEADER_SIZE;

// All numbers of the build at once, for whoever shows or compares them.
#[derive(Clone, Copy)]
pub struct Build {
    pub page_size: usize,
    pub align: usize,
    pub erase_value: u8,
    pub max_page_count: usize,
    pub max_key_size: usize,
    pub max_value_size: usize,
    pub branching_factor: usize,
    pub level_count: usize,
    pub file_count: usize,
    pub page_header_size: usize,
    pub max_header_size: usize,
    pub chunk_header_size: usize,
    pub max_chunk_size: usize,
}

pub fn the_build() -> Build
    ensures answers { result ≡ the_build }
{
    Build {
        page_size: PAGE_SIZE,
        align: ALIGN,
        erase_value: ERASE_VALUE,
        max_page_count: MAX_PAGE_COUNT,
        max_key_size: MAX_KEY_SIZE,
        max_value_size: MAX_VALUE_SIZE,
        branching_factor: BRANCHING_FACTOR,
        level_count: LEVEL_COUNT,
        file_count: FILE_COUNT,
        page_header_size: PAGE_HEADER_SIZE,
        max_header_size: MAX_HEADER_SIZE,
        chunk_header_size: CHUNK_HEADER_SIZE,
        max_chunk_size: MAX_CHUNK_SIZE,
    }
}
