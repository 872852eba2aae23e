// Calls on the allocator for several pages.
use alloc::allocator::Allocator;
use alloc::several::try_allocate_each;
use replay_say::Output;
use script::args::page_at;
use script::words::word_count;

// Asks for a page for each place, and says how many were handed out, and each of them. The allocator that is left.
pub(crate) fn allocated_each(out: &mut Output, a: Allocator, places: &mut [u16]) -> Allocator {
    let handed = try_allocate_each(a, places);
    let answer = handed.answer;
    out.say(answer);
    for page in places.iter().take(answer.unwrap_or(0)) {
        out.say(usize::from(*page));
    }
    out.end_line();
    handed.allocator
}

// The pages that a line names, from its third word on, put at the start of `raws`. None where one of the words is no page, or where
// the line has as many pages as there are places.
pub(crate) fn pages_in<'a>(line: &[u8], raws: &'a mut [u16]) -> Option<&'a [u16]> {
    let words = word_count(line);
    for i in 0..raws.len() {
        if words <= i + 2 {
            return Some(&raws[..i]);
        }
        let page = page_at(line, i + 2)?;
        raws[i] = page.0;
    }
    None
}
