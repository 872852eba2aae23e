// What a page's header has, and which of its checks fails.
use crate::image::Image;
use crate::line::{hex_on, line_end, text};
use crc::crc32;
use desk::say::{number_on, text_on};
use digits::hex::encode;
use page::header::header_of;
use slices::field::get32;
use slices::part::part_of;
use std::io;
use types::config::{ALIGN, MAX_HEADER_SIZE};
use types::page_id::PageID;
use types::refusal::Refusal;

// The higher header's bytes, where there are any.
pub(crate) fn say_higher(rt: &HostRuntime, page: &[u8], h: usize) {
    let mut space = [0; 2 * MAX_HEADER_SIZE];
    if h == 0 {
        return;
    }
    let n = encode(header_of(page, h), &mut space);
    text(rt, b"header ");
    text(rt, part_of(&space, 0, n));
    text(rt, b", ");
}

// The first length of a higher header at which the page's sum is right.
fn fitting_length(page: &[u8]) -> Option<usize> {
    let sum = get32(page, 8);
    (0..=MAX_HEADER_SIZE)
        .step_by(ALIGN)
        .find(|h| crc32(header_of(page, *h)) == sum)
}

// Both sums, and the length at which they would be one.
fn sums_on(to: &impl Print, page: &[u8], h: usize) {
    text_on(to, b"its sum is ");
    hex_on(to, get32(page, 8));
    text_on(to, b", and that of a higher header of ");
    number_on(to, h);
    text_on(to, b" bytes is ");
    hex_on(to, crc32(header_of(page, h)));
    if let Some(other) = fitting_length(page) {
        text_on(to, b"; with ");
        number_on(to, other);
        text_on(to, b" bytes it is right");
    }
}

// The first check of a refused header that fails, in the order of the calls, and what stands there.
pub(crate) fn fault_on(to: &impl Print, image: Image<'_>, id: PageID) {
    let page = image.page(id);
    let there = get32(page, 0);
    let place = get32(page, 4) as usize;
    text_on(to, b"in its header: ");
    if there != image.magic {
        text_on(to, b"its magic is ");
        hex_on(to, there);
        return;
    }
    if place != id.index() {
        text_on(to, b"its page number is ");
        number_on(to, place);
        return;
    }
    sums_on(to, page, image.h);
}

// The line of a page whose header is refused. It has the higher header where magic and page number are right.
pub(crate) fn say_refused(rt: &HostRuntime, image: Image<'_>, id: PageID) -> io::Result<()> {
    let page = image.page(id);
    if (get32(page, 0) == image.magic) & (get32(page, 4) as usize == id.index()) {
        say_higher(rt, page, image.h);
    }
    let _ = rt.print(Refusal::Corrupted);
    text(rt, b" ");
    fault_on(rt, image, id);
    line_end(rt, b"\n")
}

// Says why this H is not allowed.
pub(crate) fn length_on(to: &impl Print, h: usize) {
    text_on(to, b": H is ");
    number_on(to, h);
    text_on(to, b", and not a multiple of ");
    number_on(to, ALIGN);
    text_on(to, b" up to ");
    number_on(to, MAX_HEADER_SIZE);
}
