// Calls on the allocator.
use crate::several::{allocated_each, pages_in};
use alloc::allocator::{Allocator, MARK_BYTES};
use alloc::answers::{Change, Usage};
use alloc::several;
use replay_say::Output;
use replay_say::word::Word;
use script::args::{bytes_at, number_at, number_to, page_at, seed_at};
use script::words::{nth_word, word_count};
use types::config::MAX_PAGE_COUNT;

// Says what a call answered. The allocator that is left.
fn changed(out: &mut Output, change: Change<()>) -> Allocator {
    out.say_line(change.answer);
    change.allocator
}

fn reset(out: &mut Output, a: Allocator, line: &[u8]) -> Option<Allocator> {
    let count = number_at(line, 2)?;
    let seed = seed_at(line, 3)?;
    Some(changed(out, a.reset(count, seed)))
}

fn try_allocate(out: &mut Output, a: Allocator) -> Allocator {
    let allocation = a.try_allocate();
    match allocation.answer.transpose() {
        Some(answer) => out.say_line(answer),
        None => out.say_line(Word::None),
    }
    allocation.allocator
}

fn mark_used(out: &mut Output, a: Allocator, line: &[u8]) -> Option<Allocator> {
    let page = page_at(line, 2)?;
    Some(changed(out, a.mark_used(page)))
}

fn free(out: &mut Output, a: Allocator, line: &[u8]) -> Option<Allocator> {
    let page = page_at(line, 2)?;
    Some(changed(out, a.free(page)))
}

fn try_allocate_each(out: &mut Output, a: Allocator, line: &[u8]) -> Option<Allocator> {
    let mut raws = [0; MAX_PAGE_COUNT];
    let places = raws.get_mut(..number_to(line, 2, MAX_PAGE_COUNT)?)?;
    Some(allocated_each(out, a, places))
}

fn free_each(out: &mut Output, a: Allocator, line: &[u8]) -> Option<Allocator> {
    // A place more than there are pages, so that one page too many is seen.
    let mut raws = [0; MAX_PAGE_COUNT + 1];
    let pages = pages_in(line, &mut raws)?;
    Some(changed(out, several::free_each(a, pages)))
}

fn is_used(out: &mut Output, a: Allocator, line: &[u8]) -> Option<Allocator> {
    let page = page_at(line, 2)?;
    out.say_line(a.is_used(page).map(|usage| usage == Usage::Used));
    Some(a)
}

fn margin(out: &mut Output, a: Allocator, line: &[u8]) -> Option<Allocator> {
    let wanted = number_at(line, 2)?;
    out.say_line(a.margin(wanted));
    Some(a)
}

fn forge(out: &mut Output, line: &[u8]) -> Option<Allocator> {
    let mut pages = [0; MARK_BYTES];
    let page_count = number_at(line, 2)?;
    let next_page_id = number_at(line, 3)?;
    let used = number_at(line, 4)?;
    let n = bytes_at(line, 5, &mut pages)?;
    if n != MARK_BYTES {
        return None;
    }
    out.say_line(Word::Ok);
    Some(Allocator {
        page_count,
        pages,
        used,
        next_page_id,
    })
}

fn show(out: &mut Output, a: Allocator) {
    let pages = a.pages;
    out.say(Word::Ok);
    out.say(a.page_count);
    out.say(a.next_page_id);
    out.say(a.used);
    out.say(&pages[..]);
    out.end_line();
}

// Calls of two words that only look.
fn look(out: &mut Output, a: Allocator, name: &[u8]) -> Option<Allocator> {
    match name {
        b"state" => show(out, a),
        b"used_pages" => out.say_line(a.used_pages()),
        b"free_pages" => out.say_line(a.free_pages()),
        b"page_count" => out.say_line(a.page_count()),
        _ => return None,
    }
    Some(a)
}

// Answers a line that starts with `alloc`: the allocator that is left, or none where the line is no call.
pub fn answer(out: &mut Output, a: Allocator, line: &[u8]) -> Option<Allocator> {
    let name = nth_word(line, 1);
    match (name, word_count(line)) {
        (b"new", 2) => {
            out.say_line(Word::Ok);
            Some(Allocator::new())
        }
        (b"reset", 4) => reset(out, a, line),
        (b"try_allocate", 2) => Some(try_allocate(out, a)),
        (b"try_allocate_each", 3) => try_allocate_each(out, a, line),
        (b"free_each", _) => free_each(out, a, line),
        (b"mark_used", 3) => mark_used(out, a, line),
        (b"free", 3) => free(out, a, line),
        (b"is_used", 3) => is_used(out, a, line),
        (b"margin", 3) => margin(out, a, line),
        (b"forge", 6) => forge(out, line),
        (_, 2) => look(out, a, name),
        _ => None,
    }
}
