// Every page allocated, and every page freed.
ghost use Rattle.std.specs.Prelude.{◌≡◌};
ghost use Rattle.types.specs.Build.{max_page_count};
ghost use Rattle.bench_jobs.specs.Allocations.{code_of, allocate_one, allocate_first, free_one, free_first, reset_tally, alloc_cycle};

use crate::telling::mixed;
use alloc::allocator::Allocator;
use types::answers::Answer;
use types::config::MAX_PAGE_COUNT;
use types::page_id::PageID;
use types::refusal::Refusal;

// An allocator, and the sum of what it answered so far.
#[derive(Clone, Copy)]
pub struct Tally {
    pub allocator: Allocator,
    pub sum: u64,
}

// An answer as one number.
fn code_of(answer: Result<Option<PageID>, Refusal>) -> u64
    ensures answers { result ≡ code_of answer }
{
    match answer {
        Ok(Some(page)) => page.0 as u64,
        Ok(None) => 0x1_0000,
        Err(why) => 0x1_0000 + why.number() as u64,
    }
}

fn allocate_one(t: Tally) -> Tally
    ensures answers { result ≡ allocate_one t }
{
    let allocation = t.allocator.try_allocate();
    Tally {
        allocator: allocation.allocator,
        sum: mixed(t.sum, code_of(allocation.answer)),
    }
}

fn allocate_first(start: Tally) -> Tally
    ensures answers { result ≡ allocate_first max_page_count start }
{
    let mut t = start;
    for i in 0..MAX_PAGE_COUNT {
        t = allocate_one(t);
    }
    t
}

fn free_one(t: Tally, page: u16) -> Tally
    ensures answers { result ≡ free_one page t }
{
    let change = t.allocator.free(PageID(page));
    Tally {
        allocator: change.allocator,
        sum: mixed(t.sum, change.answer.number() as u64),
    }
}

fn free_first(start: Tally) -> Tally
    ensures answers { result ≡ free_first max_page_count start }
{
    let mut t = start;
    for i in 0..MAX_PAGE_COUNT {
        t = free_one(t, i as u16);
    }
    t
}

pub(crate) fn reset_tally(count: usize, seed: u32) -> Tally
    ensures answers { result ≡ reset_tally count seed }
{
    let change = Allocator::new().reset(count, seed);
    Tally {
        allocator: change.allocator,
        sum: change.answer.number() as u64,
    }
}

// Resets a new allocator, asks it for as many pages as there can be, and gives each of them back. The answers' sum.
#[tactic(auto, unfolding(crate::specs::Allocations::alloc_cycle))]
#[unsafe(no_mangle)]
pub extern "C" fn puffcradle_alloc_cycle(count: usize, seed: u32) -> u64
    ensures answers { result ≡ alloc_cycle count seed }
{
    free_first(allocate_first(reset_tally(count, seed))).sum
}
