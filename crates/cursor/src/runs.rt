// The runs in the lent buffer (docs/RULES.md, Runs).
ghost use Rattle.std.specs.Prelude.{◌≡◌, ◌-◌};
ghost use Rattle.cursor.specs.Runs.{start_of, end_of, run_of};

use slices::part::part_to;

fn end_of(ends: &[usize], i: usize) -> usize
    ensures answers { result ≡ end_of ends.now i }
{
    ends.get(i).copied().unwrap_or(0)
}

// The first run starts at 0, each other at the end before it.
fn start_of(ends: &[usize], i: usize) -> usize
    ensures answers { result ≡ start_of ends.now i }
{
    if i == 0 { 0 } else { end_of(ends, i - 1) }
}

// The bytes of run i.
pub fn run_of<'a, 'b>(runs: &'a [u8], ends: &'b [usize], i: usize) -> &'a [u8]
    ensures answers { result.now ≡ run_of runs.now ends.now i }
{
    part_to(runs, start_of(ends, i), end_of(ends, i))
}

// How many bytes run i has.
pub(crate) fn run_len(ends: &[usize], i: usize) -> usize
    ensures answers { result ≡ end_of ends.now i - start_of ends.now i }
{
    end_of(ends, i).saturating_sub(start_of(ends, i))
}
