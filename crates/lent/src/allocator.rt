// The allocator, lent and changed in place. Each call makes the by-value one on what it was lent, and stores back what that leaves.
ghost use Rattle.std.specs.Prelude.{◌≡◌};
ghost use Rattle.alloc.specs.Calls.{reset, mark_used, free, try_allocate, is_used, used_pages, free_pages, page_count, margin_of};

use alloc::allocator::Allocator;
use alloc::answers::{Change, Usage};
use types::page_id::PageID;
use types::refusal::Refusal;

fn stored_back<T>(change: Change<T>, lent: &mut Allocator) -> Result<T, Refusal>
    ensures answers { result ≡ change.answer }
    ensures allocator { lent.new ≡ change.allocator }
{
    *lent = change.allocator;
    change.answer
}

pub fn reset(lent: &mut Allocator, count: usize, seed: u32) -> Result<(), Refusal>
    ensures answers { result ≡ (reset lent.old count seed).answer }
    ensures allocator { lent.new ≡ (reset lent.old count seed).allocator }
{
    stored_back(lent.reset(count, seed), lent)
}

pub fn try_allocate(lent: &mut Allocator) -> Result<Option<PageID>, Refusal>
    ensures answers { result ≡ (try_allocate lent.old).answer }
    ensures allocator { lent.new ≡ (try_allocate lent.old).allocator }
{
    stored_back(lent.try_allocate(), lent)
}

pub fn mark_used(lent: &mut Allocator, page: PageID) -> Result<(), Refusal>
    ensures answers { result ≡ (mark_used lent.old page).answer }
    ensures allocator { lent.new ≡ (mark_used lent.old page).allocator }
{
    stored_back(lent.mark_used(page), lent)
}

pub fn free(lent: &mut Allocator, page: PageID) -> Result<(), Refusal>
    ensures answers { result ≡ (free lent.old page).answer }
    ensures allocator { lent.new ≡ (free lent.old page).allocator }
{
    stored_back(lent.free(page), lent)
}

pub fn is_used(lent: &Allocator, page: PageID) -> Result<Usage, Refusal>
    ensures answers { result ≡ is_used lent.now page }
{
    lent.is_used(page)
}

pub fn used_pages(lent: &Allocator) -> Result<usize, Refusal>
    ensures answers { result ≡ used_pages lent.now }
{
    lent.used_pages()
}

pub fn free_pages(lent: &Allocator) -> Result<usize, Refusal>
    ensures answers { result ≡ free_pages lent.now }
{
    lent.free_pages()
}

pub fn page_count(lent: &Allocator) -> Result<usize, Refusal>
    ensures answers { result ≡ page_count lent.now }
{
    lent.page_count()
}

pub fn margin(lent: &Allocator, wanted: usize) -> Result<isize, Refusal>
    ensures answers { result ≡ margin_of lent.now wanted }
{
    lent.margin(wanted)
}
