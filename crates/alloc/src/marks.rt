// The marks: a bit for each page, eight to a byte, the first in the lowest bit (alloc.rs, get_bit and set_bit); and the search over them.
ghost use Rattle.std.specs.Prelude.{◌≡◌, true, false, ◌-◌, ◌/◌, ◌≤◌, ◌<◌, eqb, length, drop};
ghost use Rattle.types.specs.Build.{max_page_count};
ghost use Rattle.alloc.specs.Marks.{marks_of, is_marked, count_of, marking, freeing};
ghost use Rattle.alloc.specs.Search.{up_from, round_from, first_free};

use crate::allocator::MARK_BYTES;
use types::page_id::PageID;

#[tactic(auto, using(crate::proofs::MarksLaws::mark_as_code))]
pub(crate) fn is_marked(pages: &[u8; MARK_BYTES], page: usize) -> bool
    requires page_lt_max_page_count { page < max_page_count }
    ensures answers { result ≡ is_marked pages.now page }
{
    (pages[page / 8] >> (page % 8)) % 2 == 1
}

// How many marks there are in some of the bytes.
pub(crate) fn count(bytes: &[u8]) -> usize
    requires { length bytes.now ≤ max_page_count / 8 }
    ensures answers { result ≡ count_of (marks_of bytes.now) }
{
    // A sum of 16 bits, so that eight bytes are counted at a time.
    bytes
        .iter()
        .map(|byte| byte.count_ones() as u16)
        .sum::<u16>() as usize
}

// Whether no page from `page` on is marked.
pub(crate) fn none_from(pages: &[u8; MARK_BYTES], page: usize) -> bool
    ensures answers { result ≡ eqb (count_of (drop page (marks_of pages.now))) 0 }
{
    let at = page / 8;
    if MARK_BYTES <= at {
        return true;
    }
    (pages[at] >> (page % 8) == 0) & (count(&pages[at + 1..]) == 0)
}

// The first free page from `from` up to `to`, which is not looked at.
fn free_between(pages: &[u8; MARK_BYTES], from: usize, to: usize) -> Option<PageID>
    requires to_le_max_page_count { to ≤ max_page_count }
    ensures answers { result ≡ first_free (marks_of pages.now) (up_from from (to - from)) }
{
    let mut i = from;
    while i < to {
        let byte = pages[i / 8];
        if byte == 255 {
            // Every page of this byte is used.
            i = (i / 8 + 1) * 8;
        } else if (byte >> (i % 8)) % 2 == 0 {
            return Some(PageID(i as u16));
        } else {
            i += 1;
        }
    }
    None
}

// The first free page from the next one on, wrapping round.
#[tactic(auto, using(crate::proofs::SearchLaws::round))]
pub(crate) fn first_free(pages: &[u8; MARK_BYTES], next: usize, count: usize) -> Option<PageID>
    requires next_le_max_page_count { next ≤ max_page_count }
    requires count_le_max_page_count { count ≤ max_page_count }
    ensures answers { result ≡ first_free (marks_of pages.now) (round_from next count) }
{
    free_between(pages, next, count).or_else(|| free_between(pages, 0, next))
}

#[tactic(auto, using(crate::proofs::MarksLaws::mark_as_code), unfolding(crate::specs::Marks::marking))]
pub(crate) fn mark(pages: &mut [u8; MARK_BYTES], page: usize)
    requires page_lt_max_page_count { page < max_page_count }
    requires page_value { is_marked pages.old page ≡ false }
    ensures bytes { pages.new ≡ marking pages.old page }
{
    pages[page / 8] |= 1 << (page % 8);
}

#[tactic(auto, using(crate::proofs::MarksLaws::mark_as_code), unfolding(crate::specs::Marks::freeing))]
pub(crate) fn unmark(pages: &mut [u8; MARK_BYTES], page: usize)
    requires page_lt_max_page_count { page < max_page_count }
    requires page_value { is_marked pages.old page ≡ true }
    ensures bytes { pages.new ≡ freeing pages.old page }
{
    pages[page / 8] -= 1 << (page % 8);
}
