// Whether bytes start with a character that can be printed as it is: a well-formed one above U+009F, so no control character.
ghost use Rattle.std.specs.Prelude.{◌≡◌, get_or};
ghost use Rattle.utf8.specs.Characters.{two_fine, three_fine, four_fine, length_in, character_length};

// The byte at an index, or 0 past the end, which is no byte of such a character.
fn byte_at(bytes: &[u8], i: usize) -> u8
    ensures answers { result ≡ get_or bytes.now i 0 }
{
    bytes.get(i).copied().unwrap_or(0)
}

fn two_fine(a: u8, b: u8) -> bool
    ensures answers { result ≡ two_fine a b }
{
    let n = (a as u32) % 32 * 64 + (b as u32) % 64;
    a / 32 == 6 && b / 64 == 2 && 160 <= n
}

fn three_fine(a: u8, b: u8, c: u8) -> bool
    ensures answers { result ≡ three_fine a b c }
{
    let n = ((a as u32) % 16 * 64 + (b as u32) % 64) * 64 + (c as u32) % 64;
    a / 16 == 14 && b / 64 == 2 && c / 64 == 2 && 2048 <= n && n / 2048 != 27
}

fn four_fine(a: u8, b: u8, c: u8, d: u8) -> bool
    ensures answers { result ≡ four_fine a b c d }
{
    let m = ((a as u32) % 8 * 64 + (b as u32) % 64) * 64 + (c as u32) % 64;
    let n = m * 64 + (d as u32) % 64;
    a / 8 == 30 && b / 64 == 2 && c / 64 == 2 && d / 64 == 2 && 65536 <= n && n <= 1114111
}

fn length_in(a: u8, b: u8, c: u8, d: u8) -> Option<usize>
    ensures answers { result ≡ length_in a b c d }
{
    if two_fine(a, b) {
        Some(2)
    } else if three_fine(a, b, c) {
        Some(3)
    } else if four_fine(a, b, c, d) {
        Some(4)
    } else {
        None
    }
}

// How many bytes the character has that stands at the start, if one does.
pub fn character_length(bytes: &[u8]) -> Option<usize>
    ensures answers { result ≡ character_length bytes.now }
{
    length_in(
        byte_at(bytes, 0),
        byte_at(bytes, 1),
        byte_at(bytes, 2),
        byte_at(bytes, 3),
    )
}
