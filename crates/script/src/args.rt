// The arguments of a call: words of its line, by their place.
ghost use Rattle.std.specs.Prelude.{◌≡◌, length};
ghost use Rattle.script.specs.Words.{nth_word};
ghost use Rattle.script.specs.Args.{up_to, page_arg, seed_of, magic_of, flag_of, flag_in, is_dash, decoded_count, count_in, buffer_with};
ghost use Rattle.digits.specs.Numbers.{decimal_in, word32_in};

use crate::words::nth_word;
use digits::hex::decode;
use digits::number::{decimal_in, word32_in};
use types::page_id::PageID;

pub fn number_at(line: &[u8], k: usize) -> Option<usize>
    ensures answers { result ≡ decimal_in (nth_word k line.now) }
{
    decimal_in(nth_word(line, k))
}

// A number up to a limit.
pub fn number_to(line: &[u8], k: usize, limit: usize) -> Option<usize>
    ensures answers { result ≡ up_to limit (decimal_in (nth_word k line.now)) }
{
    let n = number_at(line, k)?;
    if n <= limit { Some(n) } else { None }
}

pub fn page_at(line: &[u8], k: usize) -> Option<PageID>
    ensures answers { result ≡ page_arg (decimal_in (nth_word k line.now)) }
{
    let n = number_at(line, k)?;
    Some(PageID(u16::try_from(n).ok()?))
}

pub fn seed_at(line: &[u8], k: usize) -> Option<u32>
    ensures answers { result ≡ seed_of (decimal_in (nth_word k line.now)) }
{
    let n = number_at(line, k)?;
    u32::try_from(n).ok()
}

// Eight digits in hex.
pub fn word32_at(line: &[u8], k: usize) -> Option<u32>
    ensures answers { result ≡ word32_in (nth_word k line.now) }
{
    word32_in(nth_word(line, k))
}

// One of the two magics that scripts have.
pub fn magic_at(line: &[u8], k: usize) -> Option<u32>
    ensures answers { result ≡ magic_of (word32_in (nth_word k line.now)) }
{
    let magic = word32_at(line, k)?;
    if (magic == 0xA1) | (magic == 0xFFFF_FFFF) {
        Some(magic)
    } else {
        None
    }
}

fn flag_in(word: &[u8]) -> Option<bool>
    ensures answers { result ≡ flag_in word.now }
{
    match word {
        [b'1'] => Some(true),
        [b'0'] => Some(false),
        _ => None,
    }
}

pub fn flag_at(line: &[u8], k: usize) -> Option<bool>
    ensures answers { result ≡ flag_in (nth_word k line.now) }
{
    flag_in(nth_word(line, k))
}

fn bytes_in(word: &[u8], buffer: &mut [u8]) -> Option<usize>
    ensures answers { result ≡ count_in word.now (length buffer.old) }
    ensures bytes { buffer.new ≡ buffer_with word.now buffer.old }
{
    match word {
        [b'-'] => Some(0),
        [] => None,
        _ => decode(word, buffer).ok(),
    }
}

// Bytes in hex, or `-` for none, into the buffer's start: how many there are.
pub fn bytes_at(line: &[u8], k: usize, buffer: &mut [u8]) -> Option<usize>
    ensures answers { result ≡ count_in (nth_word k line.now) (length buffer.old) }
    ensures bytes { buffer.new ≡ buffer_with (nth_word k line.now) buffer.old }
{
    bytes_in(nth_word(line, k), buffer)
}
