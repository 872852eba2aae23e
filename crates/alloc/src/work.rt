// The work behind the calls that change the allocator, in place: what it answers, and the allocator that it leaves.
ghost use Rattle.std.specs.Prelude.{◌≡◌, true};
ghost use Rattle.alloc.specs.Calls.{next_free, handing_out, reset, mark_used, free, done};
ghost use Rattle.alloc.specs.Several.{then_freeing, free_each};
ghost use Rattle.alloc.specs.State.{in_range};

use crate::allocator::Allocator;
use crate::{checks, marks, state};
use types::page_id::PageID;
use types::refusal::Refusal;

// All pages are free, and the next one is the seed modulo their count.
#[tactic(auto, using(crate::proofs::StateLaws::ranges), unfolding(crate::specs::Calls::reset))]
pub(crate) fn reset(a: &mut Allocator, count: usize, seed: u32) -> Result<(), Refusal>
    ensures answers { result ≡ (reset a.old count seed).answer }
    ensures changes { a.new ≡ (reset a.old count seed).allocator }
{
    checks::check_count(count)?;
    *a = Allocator {
        page_count: count,
        next_page_id: seed as usize % count,
        ..Allocator::new()
    };
    Ok(())
}

// The first free page from the next one on, wrapping round: it is marked, and the next search starts past it.
pub(crate) fn hand_out(a: &mut Allocator) -> Option<PageID>
    requires { in_range a.old ≡ true }
    ensures answers { result ≡ next_free a.old }
    ensures changes { a.new ≡ (handing_out a.old (next_free a.old)).allocator }
{
    let page = marks::first_free(&a.pages, a.next_page_id, a.page_count)?;
    let p = page.index();
    state::mark(a, p);
    a.next_page_id = state::page_past(p, a.page_count);
    Some(page)
}

#[tactic(auto, using(crate::proofs::StateLaws::ranges), unfolding(crate::specs::Calls::mark_used))]
pub(crate) fn mark_used(a: &mut Allocator, page: PageID) -> Result<(), Refusal>
    ensures answers { result ≡ (mark_used a.old page).answer }
    ensures changes { a.new ≡ (mark_used a.old page).allocator }
{
    checks::check_own_page(*a, page)?;
    let p = page.index();
    if marks::is_marked(&a.pages, p) {
        return Err(Refusal::Corrupted);
    }
    state::mark(a, p);
    Ok(())
}

// As free, of an allocator that is known to be in range.
#[tactic(auto, using(crate::proofs::StateLaws::ranges), unfolding(crate::specs::Calls::free))]
fn free_page(a: &mut Allocator, page: PageID) -> Result<(), Refusal>
    requires { in_range a.old ≡ true }
    ensures answers { result ≡ (free a.old page).answer }
    ensures changes { a.new ≡ (free a.old page).allocator }
{
    checks::check_page(*a, page)?;
    let p = page.index();
    if !marks::is_marked(&a.pages, p) {
        return Err(Refusal::Corrupted);
    }
    state::unmark(a, p);
    Ok(())
}

#[tactic(auto, using(crate::proofs::StateLaws::ranges), unfolding(crate::specs::Calls::free, crate::specs::Checks::state_check, crate::specs::Checks::own_page_check))]
pub(crate) fn free(a: &mut Allocator, page: PageID) -> Result<(), Refusal>
    ensures answers { result ≡ (free a.old page).answer }
    ensures changes { a.new ≡ (free a.old page).allocator }
{
    checks::check_state(*a)?;
    free_page(a, page)
}

// All of these pages are freed; where one cannot be, those before it are.
pub(crate) fn free_each(a: &mut Allocator, pages: &[u16]) -> Result<(), Refusal>
    ensures answers { then_freeing result a.old (done a.new) ≡ free_each a.old pages.now }
{
    checks::check_state(*a)?;
    for page in pages {
        free_page(a, PageID(*page))?;
    }
    Ok(())
}
