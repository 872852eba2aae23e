// Lines and words: a line ends at a newline, a word at a space.
ghost use Rattle.std.specs.Prelude.{◌≡◌};
ghost use Rattle.script.specs.Words.{end_from, nth_word, word_count};

use slices::part::part_of;
use std::cmp::Ord;

const SPACE: u8 = b' ';

// The index of the first such byte at or after an index. Where there is none: the text's end, or the index if that is past it.
pub fn end_from(text: &[u8], from: usize, byte: u8) -> usize
    ensures answers { result ≡ end_from text.now from byte }
{
    for i in from..text.len() {
        if text[i] == byte {
            return i;
        }
    }
    from.max(text.len())
}

// The k-th word of a line, counted from 0, and nothing past the last.
pub fn nth_word(line: &[u8], k: usize) -> &[u8]
    ensures answers { result.now ≡ nth_word k line.now }
{
    let mut at = 0;
    for _ in 0..k {
        at = end_from(line, at, SPACE).min(line.len()) + 1;
    }
    part_of(line, at, end_from(line, at, SPACE).saturating_sub(at))
}

// How many words a line has: one more than it has spaces.
pub fn word_count(line: &[u8]) -> usize
    ensures answers { result ≡ word_count line.now }
{
    1 + line.iter().filter(|b| **b == SPACE).count()
}
