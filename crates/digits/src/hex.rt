// Bytes in hex, and numbers as hex digits.
ghost use Rattle.std.specs.Prelude.{◌≡◌, [], ◌<◌, ◌≤◌, ◌*◌, ◌/◌, ◌%◌, min, length, take, IfSome};
ghost use Rattle.slices.specs.Patch.{over};
ghost use Rattle.digits.specs.Hex.{digit_in, digit_of, all_digits, byte_in, bytes_in, decoded_of, buffer_after, digits_of, hex_of};

use std::cmp::Ord;

// Why a word in hex is no bytes.
#[derive(Clone, Copy, Debug, PartialEq, Eq)]
pub enum DecodeError {
    // The word is not pairs of digits.
    Bad,
    // The buffer is too small.
    NoRoom,
}

// What a digit counts; none for any other byte.
#[tactic(auto, unfolding(crate::specs::Hex::digit_in))]
pub(crate) fn digit_in(d: u8) -> Option<u8>
    ensures answers { result ≡ digit_in d }
    ensures bound { IfSome result (λ n. n < 16) }
{
    match d {
        b'0'..=b'9' => Some(d - b'0'),
        b'a'..=b'f' => Some(d - b'a' + 10),
        _ => None,
    }
}

fn all_digits(word: &[u8]) -> bool
    ensures answers { result ≡ all_digits word.now }
{
    word.iter().all(|d| digit_in(*d).is_some())
}

fn byte_in(a: u8, b: u8) -> u8
    ensures answers { result ≡ byte_in a b }
{
    digit_in(a).unwrap_or(0) * 16 + digit_in(b).unwrap_or(0)
}

fn put_bytes(word: &[u8], out: &mut [u8])
    requires word_len { length word.now % 2 ≡ 0 }
    requires word_len_bound { length word.now ≤ 2 * length out.old }
    ensures bytes { out.new ≡ over (bytes_in word.now) out.old }
{
    let n = word.len() / 2;
    for i in 0..n {
        out[i] = byte_in(word[2 * i], word[2 * i + 1]);
    }
}

// Decodes a word into the buffer's start: how many bytes were put there.
pub fn decode(word: &[u8], out: &mut [u8]) -> Result<usize, DecodeError>
    ensures answers { result ≡ decoded_of word.now (length out.old) }
    ensures bytes { out.new ≡ buffer_after result word.now out.old }
{
    let n = word.len() / 2;
    if (word.len() % 2 != 0) | !all_digits(word) {
        return Err(DecodeError::Bad);
    }
    if out.len() < n {
        return Err(DecodeError::NoRoom);
    }
    put_bytes(word, out);
    Ok(n)
}

fn digit_of(n: u32) -> u8
    ensures answers { result ≡ digit_of (n % 16) }
{
    let d = (n % 16) as u8;
    if d < 10 { 48 + d } else { 87 + d }
}

// Eight digits, the highest first.
pub fn hex32(n: u32) -> [u8; 8]
    ensures answers { result ≡ digits_of 8 n [] }
{
    [
        digit_of(n / 16 / 16 / 16 / 16 / 16 / 16 / 16),
        digit_of(n / 16 / 16 / 16 / 16 / 16 / 16),
        digit_of(n / 16 / 16 / 16 / 16 / 16),
        digit_of(n / 16 / 16 / 16 / 16),
        digit_of(n / 16 / 16 / 16),
        digit_of(n / 16 / 16),
        digit_of(n / 16),
        digit_of(n),
    ]
}

fn high_digit(byte: u8) -> u8
    ensures answers { result ≡ digit_of (byte / 16) }
{
    digit_of((byte / 16) as u32)
}

fn low_digit(byte: u8) -> u8
    ensures answers { result ≡ digit_of (byte % 16) }
{
    digit_of(byte as u32)
}

// Writes bytes in hex to the buffer's start, as many as there is room for. It answers how many digits that makes.
pub fn encode(bytes: &[u8], out: &mut [u8]) -> usize
    ensures answers { result ≡ 2 * min (length bytes.now) (length out.old / 2) }
    ensures bytes { out.new ≡ over (hex_of (take (length out.old / 2) bytes.now)) out.old }
{
    let n = bytes.len().min(out.len() / 2);
    for i in 0..n {
        out[2 * i] = high_digit(bytes[i]);
        out[2 * i + 1] = low_digit(bytes[i]);
    }
    2 * n
}
