// What a job tells in one number.
ghost use Rattle.std.specs.Prelude.{◌≡◌};
ghost use Rattle.bench_jobs.specs.Telling.{mixed, packed};

// A running sum with one more number in it.
pub(crate) fn mixed(sum: u64, x: u64) -> u64
    ensures answers { result ≡ mixed sum x }
{
    (sum % 0x1_0000_0000) * 31 + x % 0x1_0000_0000
}

// A number of bytes, below the number of the row that refused.
pub(crate) fn packed(why: u8, bytes: usize) -> u64
    ensures answers { result ≡ packed why bytes }
{
    (why as u64) * 0x1_0000_0000 + (bytes as u64) % 0x1_0000_0000
}
