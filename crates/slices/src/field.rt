// Numbers of two and four bytes, little-endian, read from lent bytes and laid out as bytes.
ghost use Rattle.std.specs.Prelude.{◌≡◌, [], ◌∷◌, get_or, drop};
ghost use Rattle.types.specs.Bytes.{word, bytes_of};
ghost use Rattle.slices.specs.Fields.{field};

// The k-th byte from `at` on, or 0 past the end.
fn byte(bytes: &[u8], at: usize, k: usize) -> u8
    ensures answers { result ≡ get_or (drop at bytes.now) k 0 }
{
    bytes
        .get(at..)
        .and_then(|rest| rest.get(k))
        .copied()
        .unwrap_or(0)
}

// Four bytes as one number, which a machine reads at once.
#[tactic(auto, unfolding(types::specs::Bytes::word))]
pub fn join32(a: u8, b: u8, c: u8, d: u8) -> u32
    ensures answers { result ≡ word (a ∷ b ∷ c ∷ d ∷ []) }
{
    u32::from_le_bytes([a, b, c, d])
}

pub fn get16(bytes: &[u8], at: usize) -> u16
    ensures answers { result ≡ field 2 bytes.now at }
{
    u16::from_le_bytes([byte(bytes, at, 0), byte(bytes, at, 1)])
}

pub fn get32(bytes: &[u8], at: usize) -> u32
    ensures answers { result ≡ field 4 bytes.now at }
{
    join32(
        byte(bytes, at, 0),
        byte(bytes, at, 1),
        byte(bytes, at, 2),
        byte(bytes, at, 3),
    )
}

#[tactic(auto, unfolding(types::specs::Bytes::bytes_of))]
pub fn put16(n: u16) -> [u8; 2]
    ensures answers { result ≡ bytes_of 2 n }
{
    u16::to_le_bytes(n)
}

#[tactic(auto, unfolding(types::specs::Bytes::bytes_of))]
pub fn put32(n: u32) -> [u8; 4]
    ensures answers { result ≡ bytes_of 4 n }
{
    u32::to_le_bytes(n)
}
