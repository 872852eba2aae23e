// The check sum.
ghost use Rattle.std.specs.Prelude.{◌≡◌};
ghost use Rattle.crc.specs.Published.{published};

use crc::nibble;
use crc::register::Crc32;

// CRC-32 of all the bytes.
#[unsafe(no_mangle)]
pub extern "C" fn puffcradle_crc32(bytes: &[u8]) -> u32
    ensures answers { result ≡ published bytes.now }
{
    crc::crc32(bytes)
}

// The same by the engine of four bits at a time, alone.
#[unsafe(no_mangle)]
pub extern "C" fn puffcradle_crc32_nibble(bytes: &[u8]) -> u32
    ensures answers { result ≡ published bytes.now }
{
    let start = Crc32::new();
    Crc32(nibble::update(start.0, bytes)).finish()
}
