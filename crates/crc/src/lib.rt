// CRC-32 as published (IEEE 802.3 3.2.9, ITU-T V.42 8.1.1.6.2), over lent bytes (page.rs, the end).

#![tactic(auto)]

mod bitwise;
mod braid;
pub mod nibble;
pub mod register;

ghost use Rattle.std.specs.Prelude.{◌≡◌};
ghost use Rattle.crc.specs.Published.{published};

use register::Crc32;

// The sum of all the bytes at once.
pub fn crc32(bytes: &[u8]) -> u32
    ensures answers { result ≡ published bytes.now }
{
    Crc32::new().update(bytes).finish()
}
