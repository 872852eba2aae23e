// The bench's jobs under their C names, for the archive that bench/ links. Each is the job of that name in bench_jobs, with the same promise.

#![tactic(auto)]

ghost use Rattle.std.specs.Prelude.{◌≡◌, length};
ghost use Rattle.crc.specs.Published.{published};
ghost use Rattle.reader.specs.Calls.{open_bytes};
ghost use Rattle.reader.specs.States.{new_reader};
ghost use Rattle.bench_jobs.specs.Allocations.{alloc_cycle};
ghost use Rattle.bench_jobs.specs.Merges.{merge_all};
ghost use Rattle.bench_jobs.specs.Readings.{read_page, packed_of};
ghost use Rattle.bench_jobs.specs.Several.{alloc_each, each_places};
ghost use Rattle.bench_jobs.specs.Writings.{write_finished, write_finished_flash, write_page};

use bench_jobs::{allocating, merging, reading, several, sums, writing};

#[unsafe(no_mangle)]
pub extern "C" fn puffcradle_crc32(bytes: &[u8]) -> u32
    ensures answers { result ≡ published bytes.now }
{
    sums::puffcradle_crc32(bytes)
}

#[unsafe(no_mangle)]
pub extern "C" fn puffcradle_crc32_nibble(bytes: &[u8]) -> u32
    ensures answers { result ≡ published bytes.now }
{
    sums::puffcradle_crc32_nibble(bytes)
}

#[unsafe(no_mangle)]
pub extern "C" fn puffcradle_alloc_cycle(count: usize, seed: u32) -> u64
    ensures answers { result ≡ alloc_cycle count seed }
{
    allocating::puffcradle_alloc_cycle(count, seed)
}

#[unsafe(no_mangle)]
pub extern "C" fn puffcradle_alloc_each(count: usize, seed: u32, places: &mut [u16]) -> u64
    ensures answers { result ≡ alloc_each count seed places.old }
    ensures bytes { places.new ≡ each_places count seed places.old }
{
    several::puffcradle_alloc_each(count, seed, places)
}

#[unsafe(no_mangle)]
pub extern "C" fn puffcradle_read_page(
    flash: &[u8],
    magic: u32,
    page: u16,
    header: &mut [u8],
    out: &mut [u8],
) -> u64
    ensures answers { result ≡ packed_of (read_page flash.now magic page (length header.old) out.old) }
    ensures header { header.new ≡ open_bytes new_reader flash.now magic (record { 0 = page }) header.old }
    ensures out { out.new ≡ (read_page flash.now magic page (length header.old) out.old).out }
{
    reading::puffcradle_read_page(flash, magic, page, header, out)
}

#[unsafe(no_mangle)]
pub extern "C" fn puffcradle_write_page(
    flash: &mut [u8],
    magic: u32,
    page: u16,
    header: &[u8],
    payload: &[u8],
    piece: usize,
    left: usize,
) -> u64
    ensures answers { result ≡ write_finished (write_page flash.old magic page header.now payload.now piece left) }
    ensures bytes { flash.new ≡ write_finished_flash (write_page flash.old magic page header.now payload.now piece left) }
{
    writing::puffcradle_write_page(flash, magic, page, header, payload, piece, left)
}

#[unsafe(no_mangle)]
pub extern "C" fn puffcradle_merge(
    runs: &[u8],
    ends: &[usize],
    most: usize,
    key: &mut [u8],
    value: &mut [u8],
) -> u64
    ensures answers { result ≡ (merge_all most runs.now ends.now key.old value.old).merging.sum }
    ensures bytes { (key.new ≡ (merge_all most runs.now ends.now key.old value.old).key)
        × (value.new ≡ (merge_all most runs.now ends.now key.old value.old).value) }
{
    merging::puffcradle_merge(runs, ends, most, key, value)
}
