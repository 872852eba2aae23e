// The allocator's state: its range, and the states that calls leave.
ghost use Rattle.std.specs.Prelude.{◌≡◌, true, false, ◌+◌, ◌%◌, ◌≤◌, ◌<◌};
ghost use Rattle.types.specs.Build.{max_page_count};
ghost use Rattle.alloc.specs.Marks.{is_marked};
ghost use Rattle.alloc.specs.State.{next_fits, in_range, marked, freed};

use crate::allocator::Allocator;
use crate::marks;
use types::config::MAX_PAGE_COUNT;

fn next_fits(next: usize, count: usize) -> bool
    ensures answers { result ≡ next_fits next count }
{
    (next < count) | ((count == 0) & (next == 0))
}

#[tactic(auto, unfolding(crate::specs::State::in_range))]
pub(crate) fn in_range(a: Allocator) -> bool
    ensures answers { result ≡ in_range a }
{
    (a.page_count <= MAX_PAGE_COUNT)
        & next_fits(a.next_page_id, a.page_count)
        & (a.used == marks::count(&a.pages))
        & marks::none_from(&a.pages, a.page_count)
}

// Marks a free page, and counts it.
pub(crate) fn mark(a: &mut Allocator, p: usize)
    requires p_lt_max_page_count { p < max_page_count }
    requires p_value { is_marked a.old.pages p ≡ false }
    requires used_le_max_page_count { a.old.used ≤ max_page_count }
    ensures changes { a.new ≡ marked a.old p }
{
    marks::mark(&mut a.pages, p);
    a.used += 1;
}

// Frees a used page.
pub(crate) fn unmark(a: &mut Allocator, p: usize)
    requires p_lt_max_page_count { p < max_page_count }
    requires p_value { is_marked a.old.pages p ≡ true }
    requires le_used { 1 ≤ a.old.used }
    ensures changes { a.new ≡ freed a.old p }
{
    marks::unmark(&mut a.pages, p);
    a.used -= 1;
}

// The page after page p, wrapping round at the count.
#[tactic(auto, using(crate::proofs::StateLaws::ranges))]
pub(crate) fn page_past(p: usize, count: usize) -> usize
    requires { p < count }
    ensures answers { result ≡ (p + 1) % count }
{
    let next = p + 1;
    if next == count { 0 } else { next }
}
