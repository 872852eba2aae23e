// Pages allocated by one call, and freed by one.
ghost use Rattle.std.specs.Prelude.{◌≡◌};
ghost use Rattle.bench_jobs.specs.Several.{count_code, summed_up, given_back, alloc_each, each_places};

use crate::allocating::reset_tally;
use crate::telling::mixed;
use alloc::allocator::Allocator;
use alloc::answers::Change;
use alloc::several::{free_each, try_allocate_each};
use std::cmp::Ord;
use types::answers::Answer;
use types::refusal::Refusal;

// An answer as one number.
fn count_code(answer: Result<usize, Refusal>) -> u64
    ensures answers { result ≡ count_code answer }
{
    match answer {
        Ok(n) => n as u64,
        Err(why) => 0x1_0000 + why.number() as u64,
    }
}

// The sum with what freeing answered, and with how many pages are free then.
fn summed_up(sum: u64, change: Change<()>) -> u64
    ensures answers { result ≡ summed_up sum change }
{
    mixed(
        mixed(sum, change.answer.number() as u64),
        count_code(change.allocator.free_pages()),
    )
}

// Frees the first of these pages.
fn given_back(sum: u64, a: Allocator, n: usize, places: &[u16]) -> u64
    ensures answers { result ≡ given_back sum a n places.now }
{
    let end = n.min(places.len());
    summed_up(sum, free_each(a, &places[..end]))
}

// Resets a new allocator, asks it for a page for each place, and gives all of them back. The answers' sum.
#[tactic(auto, unfolding(crate::specs::Several::alloc_each, crate::specs::Several::each_places))]
#[unsafe(no_mangle)]
pub extern "C" fn puffcradle_alloc_each(count: usize, seed: u32, places: &mut [u16]) -> u64
    ensures answers { result ≡ alloc_each count seed places.old }
    ensures bytes { places.new ≡ each_places count seed places.old }
{
    let t = reset_tally(count, seed);
    let given = try_allocate_each(t.allocator, places);
    given_back(
        mixed(t.sum, count_code(given.answer)),
        given.allocator,
        given.answer.unwrap_or(0),
        places,
    )
}
