// Calls on the flash itself, which is a buffer's first bytes. A line that goes past its end is no call.
use crate::sums;
use crc::crc32;
use replay_say::Output;
use replay_say::said::Sum;
use replay_say::word::Word;
use script::args::{bytes_at, number_at};
use script::space::line_space;
use script::words::{nth_word, word_count};
use slices::part::{part_of, put};
use types::config::{ERASE_VALUE, PAGE_SIZE};

// No page number or offset may be larger, so that `place` cannot overflow.
const MOST: usize = 65_536;

// An offset in a page, counted from the flash's start.
fn place(page: usize, offset: usize) -> Option<usize> {
    if (MOST < page) | (MOST < offset) {
        return None;
    }
    Some(page * PAGE_SIZE + offset)
}

// The place that the call's first two arguments name.
fn place_in(line: &[u8]) -> Option<usize> {
    let page = number_at(line, 2)?;
    let offset = number_at(line, 3)?;
    place(page, offset)
}

// The `count` bytes from a place on, if they are there.
fn part_at(flash: &[u8], at: usize, count: usize) -> Option<&[u8]> {
    flash.get(at..)?.get(..count)
}

fn part_at_mut(flash: &mut [u8], at: usize, count: usize) -> Option<&mut [u8]> {
    flash.get_mut(at..)?.get_mut(..count)
}

// A new flash of `length` bytes, all erased: its length.
fn made(out: &mut Output, flash: &mut [u8], length: usize) -> Option<usize> {
    flash.get_mut(..length)?.fill(ERASE_VALUE);
    out.say_line(Word::Ok);
    Some(length)
}

fn pages(out: &mut Output, line: &[u8], flash: &mut [u8]) -> Option<usize> {
    let count = number_at(line, 2)?;
    made(out, flash, place(count, 0)?)
}

fn bytes(out: &mut Output, line: &[u8], flash: &mut [u8]) -> Option<usize> {
    made(out, flash, number_at(line, 2)?)
}

fn poke(out: &mut Output, line: &[u8], flash: &mut [u8]) -> Option<()> {
    let mut bytes = line_space();
    let at = place_in(line)?;
    let n = bytes_at(line, 4, &mut bytes)?;
    put(part_at_mut(flash, at, n)?, &bytes);
    out.say_line(Word::Ok);
    Some(())
}

fn fill(out: &mut Output, line: &[u8], flash: &mut [u8]) -> Option<()> {
    let mut value = [0; 1];
    let at = place_in(line)?;
    let count = number_at(line, 4)?;
    let n = bytes_at(line, 5, &mut value)?;
    if n != 1 {
        return None;
    }
    part_at_mut(flash, at, count)?.fill(value[0]);
    out.say_line(Word::Ok);
    Some(())
}

fn dump(out: &mut Output, line: &[u8], flash: &[u8]) -> Option<()> {
    let at = place_in(line)?;
    let count = number_at(line, 4)?;
    if PAGE_SIZE < count {
        return None;
    }
    let bytes = part_at(flash, at, count)?;
    out.say(Word::Ok);
    out.say_line(bytes);
    Some(())
}

fn sum(out: &mut Output, line: &[u8], flash: &[u8]) -> Option<()> {
    let page = number_at(line, 2)?;
    let bytes = part_at(flash, place(page, 0)?, PAGE_SIZE)?;
    out.say(Word::Ok);
    out.say_line(Sum(crc32(bytes)));
    Some(())
}

fn on_flash(out: &mut Output, len: usize, line: &[u8], buffer: &mut [u8]) -> Option<usize> {
    let n = len.min(buffer.len());
    match (nth_word(line, 1), word_count(line)) {
        (b"pages", 3) => return pages(out, line, buffer),
        (b"bytes", 3) => return bytes(out, line, buffer),
        (b"poke", 5) => poke(out, line, &mut buffer[..n])?,
        (b"fill", 6) => fill(out, line, &mut buffer[..n])?,
        (b"dump", 5) => dump(out, line, &buffer[..n])?,
        (b"sum", 3) => sum(out, line, &buffer[..n])?,
        _ => return None,
    }
    Some(len)
}

// Answers a line that starts with `flash` or `crc`, on a flash of `len` bytes at the start of a buffer: how many bytes it has then, or
// none where the line is no call.
pub fn answer(out: &mut Output, len: usize, line: &[u8], buffer: &mut [u8]) -> Option<usize> {
    match nth_word(line, 0) {
        b"crc" => sums::answer(out, line).map(|()| len),
        _ => on_flash(out, len, line, buffer),
    }
}
