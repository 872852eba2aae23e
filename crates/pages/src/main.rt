// pages IMAGE MAGIC H: what a new reader finds on each page of a flash image. pages IMAGE MAGIC H PAGE: the bytes that it hands out.

#![tactic(auto)]

mod choice;
mod chunks;
mod header;
mod help;
mod image;
mod line;
mod listing;
mod magic;
mod reading;
mod walk;

use choice::Asked;
use desk::arguments::ARGUMENT_ROOM;
use desk::files::{NotFilled, read_file};
use desk::say;
use desk::say::{Said, number_on, text_on};
use digits::number::decimal_in;
use flash::geometry::check_flash;
use image::Image;
use magic::magic_in;
use script::space::flash_space;
use slices::part::part_of;
use std::env::Env;
use types::config::{MAX_PAGE_COUNT, PAGE_SIZE};
use types::page_id::PageID;
use types::refusal::Refusal;

// What argument i says, as it is read.
fn read_at<T, F: Fn(&[u8]) -> Option<T>>(rt: &HostRuntime, i: usize, read: F) -> Option<T>
    requires { F.IsAlwaysCallable read }
{
    let mut word = [0; ARGUMENT_ROOM];
    let n = rt.arg(i, &mut word).unwrap_or(0);
    read(&word[..n])
}

fn page_at(rt: &HostRuntime, i: usize) -> Option<PageID> {
    let n = read_at(rt, i, decimal_in)?;
    Some(PageID(u16::try_from(n).ok()?))
}

// Says that argument i is not what it should be.
fn not_so(rt: &HostRuntime, what: &[u8], i: usize) -> Said {
    say::text(rt, b"pages: ");
    say::text(rt, what);
    say::text(rt, b": ");
    say::argument(rt, i);
    say::text(rt, b"\n");
    Said
}

// Says why an image of this size is no flash.
fn size_on(to: &impl Print, bytes: usize) {
    if MAX_PAGE_COUNT * PAGE_SIZE < bytes {
        text_on(to, b": more than ");
        number_on(to, MAX_PAGE_COUNT);
    } else {
        text_on(to, b": ");
        number_on(to, bytes);
        text_on(to, b" bytes, which are not one or more");
    }
    text_on(to, b" pages of ");
    number_on(to, PAGE_SIZE);
    text_on(to, b" bytes");
}

fn bad_flash(rt: &HostRuntime, asked: &Asked, why: Refusal, bytes: usize) {
    say::refusal(rt, b"pages", why);
    size_on(&rt.stderr(), bytes);
    say::refused(rt);
    if asked.page().is_none() {
        say::list_refused(rt, why);
        size_on(rt, bytes);
        text_on(rt, b"\n");
    }
}

// Lists the pages, or prints the bytes of the one that is asked for.
fn show(rt: &HostRuntime, asked: &Asked, image: Image<'_>) -> Result<(), Said> {
    if let Err(why) = check_flash(image.flash.len()) {
        bad_flash(rt, asked, why, image.flash.len());
        return Ok(());
    }
    match asked.page() {
        None => listing::list(rt, image, asked.chunks),
        Some(i) => {
            let id = page_at(rt, i).ok_or_else(|| not_so(rt, b"PAGE is not a page number", i))?;
            reading::hand_out(rt, image, id);
        }
    }
    Ok(())
}

// Does what is asked, or says why not.
fn run(rt: &HostRuntime, asked: &Asked) -> Result<(), Said> {
    let [file, magic, h, _] = asked.words;
    let magic = read_at(rt, magic, magic_in).ok_or_else(|| not_so(
        rt,
        b"MAGIC is not one to eight hex digits",
        magic,
    ))?;
    let h = read_at(rt, h, decimal_in).ok_or_else(|| not_so(rt, b"H is not a number", h))?;
    let mut space = flash_space();
    match read_file(rt, b"pages", file, &mut space, 0) {
        Ok(n) => {
            let flash = part_of(&space, 0, n);
            show(rt, asked, Image { flash, magic, h })
        }
        Err(NotFilled::More) => {
            bad_flash(rt, asked, Refusal::BadFlash, space.len());
            Ok(())
        }
        Err(NotFilled::Bad) => Err(Said),
    }
}

fn main(rt: HostRuntime) {
    let mut asked = Asked::nothing();
    let chosen = asked.choose(&rt);
    if asked.helps {
        help::say(&rt);
        return;
    }
    if let Err(Said) = chosen.and_then(|_| run(&rt, &asked)) {
        if asked.page().is_none() {
            say::list_failed(&rt);
        }
    }
}
