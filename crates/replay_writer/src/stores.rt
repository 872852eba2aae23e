// What a call did to the flash. No call lists its stores, so they are told by making the call again: none of these calls looks at
// the flash, and with k stores left the first k are made. So the k-th is where the page after k differs from the page after k - 1,
// and each of its bytes makes a difference to a page of 00 or to one of FF.
use flash::geometry::page_of;
use flash::ops::{erase_if, store_if};
use replay_say::Output;
use replay_say::word::Word;
use script::space::page_space;
use slices::part::{part_to, put};
use types::page_id::PageID;
use writer::answers::Ended;
use writer::page_writer::PageWriter;

// The bytes of a page from an offset up to another, and none where they cross.
#[derive(Clone, Copy)]
struct Span {
    from: usize,
    end: usize,
}

fn wipe_page(flash: &mut [u8], page: PageID, value: u8) {
    erase_if(true, flash, page, value, 1);
}

fn put_page(flash: &mut [u8], page: PageID, bytes: &[u8]) {
    store_if(true, flash, page, 0, bytes, 1);
}

// From the first difference to the last.
fn difference(a: &[u8], b: &[u8]) -> Span {
    let mut from = a.len().min(b.len());
    let mut end = 0;
    for (i, (x, y)) in a.iter().zip(b).enumerate() {
        if x != y {
            from = from.min(i);
            end = i + 1;
        }
    }
    Span { from, end }
}

// The bytes that the k-th store changes in a page of one value, which is left with k stores made.
fn changed_on<C: Fn(&mut [u8], usize)>(
    value: u8,
    make: &C,
    page: PageID,
    flash: &mut [u8],
    k: usize,
) -> Span
    requires { C.IsAlwaysCallable make.now }
{
    let mut before = page_space();
    wipe_page(flash, page, value);
    make(flash, k.saturating_sub(1));
    put(&mut before, page_of(flash, page));
    make(flash, k);
    difference(&before, page_of(flash, page))
}

// Says the k-th store.
fn say_store<C: Fn(&mut [u8], usize)>(
    out: &mut Output,
    make: &C,
    page: PageID,
    flash: &mut [u8],
    k: usize,
)
    requires { C.IsAlwaysCallable make.now }
{
    let a = changed_on(0x00, make, page, flash, k);
    let b = changed_on(0xFF, make, page, flash, k);
    let from = a.from.min(b.from);
    let end = a.end.max(b.end);
    out.say(Word::Store);
    out.say(from);
    out.say(part_to(page_of(flash, page), from, end));
}

// Says how many operations a call of this writer made, and which: an armed erase is the first. The flash is as before in the end.
pub(crate) fn say_done<T: Drop, C: Fn(PageWriter, &mut [u8], usize) -> Ended<T>>(
    out: &mut Output,
    call: &C,
    writer: PageWriter,
    flash: &mut [u8],
    count: usize,
)
    requires { C.IsAlwaysCallable call.now }
{
    let page = writer.page;
    let erases = count.min(writer.armed as usize);
    let disarmed = PageWriter {
        armed: false,
        ..writer
    };
    let make = |flash: &mut [u8], left: usize| {
        call(disarmed, flash, left);
    };
    let mut kept = page_space();
    put(&mut kept, page_of(flash, page));
    out.say(count);
    if erases != 0 {
        out.say(Word::Erase);
    }
    for i in 0..count.saturating_sub(erases) {
        say_store(out, &make, page, flash, i + 1);
    }
    put_page(flash, page, &kept);
}
