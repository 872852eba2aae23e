// The magic as people type it: one to eight hex digits, large or small, with or without 0x before them.
use digits::number::word32_in;

// The digits behind 0x, or all.
fn digits_of(word: &[u8]) -> &[u8] {
    match word {
        [b'0', b'x' | b'X', digits @ ..] => digits,
        _ => word,
    }
}

// Zeros stand before the first digit.
pub(crate) fn magic_in(word: &[u8]) -> Option<u32> {
    let digits = digits_of(word);
    if digits.is_empty() {
        return None;
    }
    let mut eight = [b'0'; 8];
    let first = eight.len().checked_sub(digits.len())?;
    for (place, digit) in eight[first..].iter_mut().zip(digits) {
        *place = digit.to_ascii_lowercase();
    }
    word32_in(&eight)
}
