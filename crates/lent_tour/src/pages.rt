// The allocator, made here and lent to each call.
use crate::say;
use alloc::allocator::Allocator;
use lent::allocator;
use types::page_id::PageID;
use types::refusal::Refusal;

#[derive(Clone, Copy)]
struct HandedOut {
    first: Result<Option<PageID>, Refusal>,
    second: Result<Option<PageID>, Refusal>,
    left: Result<usize, Refusal>,
}

// Of four pages, from page 7 modulo 4 on, two are handed out.
fn hand_out() -> HandedOut {
    let mut pages = Allocator::new();
    let _ = allocator::reset(&mut pages, 4, 7);
    HandedOut {
        first: allocator::try_allocate(&mut pages),
        second: allocator::try_allocate(&mut pages),
        left: allocator::free_pages(&pages),
    }
}

// A line with a number, with none, or with why there is no answer.
fn say_line(rt: &impl Print, what: &str, answer: Result<Option<usize>, Refusal>) {
    say::text(rt, what);
    match answer {
        Ok(Some(n)) => say::number(rt, n),
        Ok(None) => say::text(rt, " none"),
        Err(why) => say::refused(rt, why),
    }
    say::text(rt, "\n");
}

fn say_page(rt: &impl Print, answer: Result<Option<PageID>, Refusal>) {
    say_line(rt, "page", answer.map(|page| page.map(PageID::index)));
}

pub(crate) fn tour(rt: &impl Print) {
    let got = hand_out();
    say_page(rt, got.first);
    say_page(rt, got.second);
    say_line(rt, "left", got.left.map(Some));
}
