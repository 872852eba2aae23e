// The checks before a call's work, in their order (docs/RULES.md, Order of checks).
ghost use Rattle.std.specs.Prelude.{◌≡◌};
ghost use Rattle.alloc.specs.Checks.{state_check, there_check, own_page_check, wanted_check, count_check};

use crate::allocator::Allocator;
use crate::state;
use types::config::MAX_PAGE_COUNT;
use types::page_id::PageID;
use types::refusal::Refusal;

#[tactic(auto, unfolding(crate::specs::Checks::state_check))]
pub(crate) fn check_state(a: Allocator) -> Result<(), Refusal>
    ensures answers { result ≡ state_check a }
{
    if state::in_range(a) {
        Ok(())
    } else {
        Err(Refusal::BadState)
    }
}

pub(crate) fn check_page(a: Allocator, page: PageID) -> Result<(), Refusal>
    ensures answers { result ≡ there_check a page }
{
    if page.index() < a.page_count {
        Ok(())
    } else {
        Err(Refusal::OutOfRange)
    }
}

#[tactic(auto, unfolding(crate::specs::Checks::state_check, crate::specs::Checks::own_page_check))]
pub(crate) fn check_own_page(a: Allocator, page: PageID) -> Result<(), Refusal>
    ensures answers { result ≡ own_page_check a page }
{
    check_state(a)?;
    check_page(a, page)
}

#[tactic(auto, unfolding(crate::specs::Checks::state_check, crate::specs::Checks::wanted_check))]
pub(crate) fn check_wanted(a: Allocator, wanted: usize) -> Result<(), Refusal>
    ensures answers { result ≡ wanted_check a wanted }
{
    if MAX_PAGE_COUNT < wanted {
        return Err(Refusal::BadCount);
    }
    check_state(a)
}

#[tactic(auto, unfolding(crate::specs::Checks::count_check))]
pub(crate) fn check_count(count: usize) -> Result<(), Refusal>
    ensures answers { result ≡ count_check count }
{
    if (1..=MAX_PAGE_COUNT).contains(&count) {
        Ok(())
    } else {
        Err(Refusal::BadCount)
    }
}
