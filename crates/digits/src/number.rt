// Numbers as words: decimal ones, and eight digits in hex.
ghost use Rattle.std.specs.Prelude.{◌≡◌};
ghost use Rattle.digits.specs.Hex.{digit_in};
ghost use Rattle.digits.specs.Numbers.{with_digit, number_in, decimal_in, word32_in, apart_of};

use crate::hex::digit_in;

// n with one more digit, if that is a digit of the base and the number stays within the limit.
fn with_digit(base: usize, most: usize, n: usize, d: u8) -> Option<usize>
    ensures answers { result ≡ with_digit base most n (digit_in d) }
{
    let digit = digit_in(d)? as usize;
    if base <= digit {
        return None;
    }
    let next = n.checked_mul(base)?.checked_add(digit)?;
    if next <= most { Some(next) } else { None }
}

fn number_in(base: usize, most: usize, word: &[u8]) -> Option<usize>
    ensures answers { result ≡ number_in base most word.now }
{
    if word.is_empty() {
        return None;
    }
    let mut n = 0;
    for d in word {
        n = with_digit(base, most, n, *d)?;
    }
    Some(n)
}

// A decimal number of up to 64 bits; none where the word is empty, has another byte than digits, or passes them.
pub fn decimal_in(word: &[u8]) -> Option<usize>
    ensures answers { result ≡ decimal_in word.now }
{
    number_in(10, usize::MAX, word)
}

// Eight digits in hex, the highest first.
#[tactic(auto, using(crate::proofs::NumberLaws::number_within))]
pub fn word32_in(word: &[u8]) -> Option<u32>
    ensures answers { result ≡ word32_in word.now }
{
    if word.len() != 8 {
        return None;
    }
    let n = number_in(16, u32::MAX as usize, word)?;
    Some(n as u32)
}

// A number with its sign apart.
#[derive(Clone, Copy)]
pub struct Apart {
    pub below: bool,
    // How far it is from zero.
    pub size: usize,
}

pub fn sign_apart(n: isize) -> Apart
    ensures answers { result ≡ apart_of n }
{
    Apart {
        below: n < 0,
        size: n.unsigned_abs(),
    }
}
