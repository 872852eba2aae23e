// A running sum: the register before, between and after the bytes.
ghost use Rattle.std.specs.Prelude.{◌≡◌};
ghost use Rattle.crc.specs.Register.{preset, updated, finished};

use crate::braid;

#[derive(Clone, Copy)]
pub struct Crc32(pub u32);

impl Crc32 {
    pub fn new() -> Crc32
        ensures answers { result.0 ≡ preset }
    {
        Crc32(0xFFFF_FFFF)
    }

    // As new: what went in before is forgotten.
    pub fn reset(self) -> Crc32
        ensures answers { result.0 ≡ preset }
    {
        Crc32::new()
    }

    pub fn update(self, bytes: &[u8]) -> Crc32
        ensures answers { result.0 ≡ updated self.0 bytes.now }
    {
        Crc32(braid::update(self.0, bytes))
    }

    pub fn finish(self) -> u32
        ensures answers { result ≡ finished self.0 }
    {
        !self.0
    }
}
