// Four bits at a time, by a table of 16 entries, as a note in the original suggests (page.rs, beside the sum).
ghost use Rattle.std.specs.Prelude.{◌≡◌};
ghost use Rattle.crc.specs.Register.{steps, taken, updated};

// Entry n: what is left of n after four bits.
static TABLE: [u32; 16] = [
    0x0000_0000,
    0x1DB7_1064,
    0x3B6E_20C8,
    0x26D9_30AC,
    0x76DC_4190,
    0x6B6B_51F4,
    0x4DB2_6158,
    0x5005_713C,
    0xEDB8_8320,
    0xF00F_9344,
    0xD6D6_A3E8,
    0xCB61_B38C,
    0x9B64_C2B0,
    0x86D3_D2D4,
    0xA00A_E278,
    0xBDBD_F21C,
];

// Four bits leave.
pub(crate) fn four_steps(x: u32) -> u32
    ensures answers { result ≡ steps 4 x }
{
    TABLE[(x % 16) as usize] ^ (x >> 4)
}

fn take(c: u32, b: u8) -> u32
    ensures answers { result ≡ taken c b }
{
    let x = c ^ (b as u32);
    let half = four_steps(x);
    four_steps(half)
}

// The whole engine: the register with any number of bytes, one after the other.
pub fn update(c: u32, bytes: &[u8]) -> u32
    ensures answers { result ≡ updated c bytes.now }
{
    let mut x = c;
    for i in 0..bytes.len() {
        x = take(x, bytes[i]);
    }
    x
}
