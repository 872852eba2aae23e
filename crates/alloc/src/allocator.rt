// The allocator (alloc.rs), by value. Pages are handed out in turn, which spreads the wear.
ghost use Rattle.std.specs.Prelude.{◌≡◌};
ghost use Rattle.alloc.specs.Calls.{reset, mark_used, free, try_allocate, is_used, used_pages, free_pages, page_count, margin_of};
ghost use Rattle.alloc.specs.State.{all_free};

use crate::answers::{Change, Usage};
use crate::{checks, marks, work};
use types::config::MAX_PAGE_COUNT;
use types::page_id::PageID;
use types::refusal::Refusal;

// Eight pages to a byte.
pub const MARK_BYTES: usize = (MAX_PAGE_COUNT + 7) / 8;

#[derive(Clone, Copy)]
pub struct Allocator {
    pub page_count: usize,
    // A bit for each page, 1 where it is used.
    pub pages: [u8; MARK_BYTES],
    // How many pages are used.
    pub used: usize,
    // Where the next search starts.
    pub next_page_id: usize,
}

impl Allocator {
    // A new allocator has no pages until it is reset.
    pub fn new() -> Allocator
        ensures answers { result ≡ all_free 0 0 }
    {
        Allocator {
            page_count: 0,
            pages: [0u8; MARK_BYTES],
            used: 0,
            next_page_id: 0,
        }
    }

    pub fn reset(self, count: usize, seed: u32) -> Change<()>
        ensures answers { result ≡ reset self count seed }
    {
        let mut allocator = self;
        let answer = work::reset(&mut allocator, count, seed);
        Change { answer, allocator }
    }

    // The first free page from the next one on, wrapping round.
    #[tactic(auto, using(crate::proofs::HandedLaws::handed), unfolding(crate::specs::Calls::try_allocate))]
    pub fn try_allocate(self) -> Change<Option<PageID>>
        ensures answers { result ≡ try_allocate self }
    {
        if let Err(why) = checks::check_state(self) {
            return Change::refused(why, self);
        }
        let mut left = self;
        let page = work::hand_out(&mut left);
        Change::answered(page, left)
    }

    pub fn mark_used(self, page: PageID) -> Change<()>
        ensures answers { result ≡ mark_used self page }
    {
        let mut allocator = self;
        let answer = work::mark_used(&mut allocator, page);
        Change { answer, allocator }
    }

    pub fn free(self, page: PageID) -> Change<()>
        ensures answers { result ≡ free self page }
    {
        let mut allocator = self;
        let answer = work::free(&mut allocator, page);
        Change { answer, allocator }
    }

    #[tactic(auto, using(crate::proofs::StateLaws::ranges), unfolding(crate::specs::Calls::is_used))]
    pub fn is_used(self, page: PageID) -> Result<Usage, Refusal>
        ensures answers { result ≡ is_used self page }
    {
        checks::check_own_page(self, page)?;
        if marks::is_marked(&self.pages, page.index()) {
            Ok(Usage::Used)
        } else {
            Ok(Usage::Free)
        }
    }

    #[tactic(auto, unfolding(crate::specs::Calls::used_pages))]
    pub fn used_pages(self) -> Result<usize, Refusal>
        ensures answers { result ≡ used_pages self }
    {
        checks::check_state(self)?;
        Ok(self.used)
    }

    #[tactic(auto, unfolding(crate::specs::Calls::free_pages))]
    pub fn free_pages(self) -> Result<usize, Refusal>
        ensures answers { result ≡ free_pages self }
    {
        checks::check_state(self)?;
        Ok(self.page_count - self.used)
    }

    #[tactic(auto, unfolding(crate::specs::Calls::page_count))]
    pub fn page_count(self) -> Result<usize, Refusal>
        ensures answers { result ≡ page_count self }
    {
        checks::check_state(self)?;
        Ok(self.page_count)
    }

    // Free pages minus wanted ones.
    #[tactic(auto, using(crate::proofs::MarginLaws::margins), unfolding(crate::specs::Calls::margin_of))]
    pub fn margin(self, wanted: usize) -> Result<isize, Refusal>
        ensures answers { result ≡ margin_of self wanted }
    {
        checks::check_wanted(self, wanted)?;
        Ok((self.page_count - self.used) as isize - wanted as isize)
    }
}
