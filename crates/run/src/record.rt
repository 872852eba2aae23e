// What stands at a position of a run: a record, nothing, or a refusal (docs/FORMAT.md, Runs).
ghost use Rattle.std.specs.Prelude.{◌≡◌};
ghost use Rattle.run.specs.Records.{verdict_of, head_at, key_in, value_in};

use slices::part::part_to;
use types::config::{MAX_KEY_SIZE, MAX_VALUE_SIZE};
use types::refusal::Refusal;

// Bytes of a record before its key: mark, kind, key length, value length.
pub const RECORD_HEADER_SIZE: usize = 6;

// Where a record's parts lie in its run: the key from `key` up to `value`, the value from there up to `next`.
#[derive(Clone, Copy)]
pub struct Record {
    pub deleted: bool,
    pub key: usize,
    pub value: usize,
    pub next: usize,
}

// What stands at a position: a record, nothing at the run's end, or a refusal.
pub type Head = Result<Option<Record>, Refusal>;

impl Record {
    // The key, where it lies.
    pub fn key_in(self, run: &[u8]) -> &[u8]
        ensures answers { result.now ≡ key_in run.now self }
    {
        part_to(run, self.key, self.value)
    }

    // The value, where it lies.
    pub fn value_in(self, run: &[u8]) -> &[u8]
        ensures answers { result.now ≡ value_in run.now self }
    {
        part_to(run, self.value, self.next)
    }
}

// What the kind byte says of its record: whether it is deleted.
fn verdict_of(kind: u8) -> Result<bool, Refusal>
    ensures answers { result ≡ verdict_of kind }
{
    match kind {
        0 => Ok(false),
        1 => Ok(true),
        2..=127 => Err(Refusal::LaterEdition),
        128..=255 => Err(Refusal::Corrupted),
    }
}

// The head at a position of a run.
#[tactic(auto, unfolding(crate::specs::Records::head_at, crate::specs::Records::head_by, crate::specs::Records::body_at, types::specs::Bytes::word))]
pub fn head_at(run: &[u8], at: usize) -> Head
    ensures answers { result ≡ head_at run.now at }
{
    let Some(rest) = run.get(at..) else {
        return Err(Refusal::Corrupted);
    };
    if rest.is_empty() {
        return Ok(None);
    }
    let &[0x48, 0x56, kind, key_len, low, high, ..] = rest else {
        return Err(Refusal::Corrupted);
    };
    let deleted = verdict_of(kind)?;
    let key_len = usize::from(key_len);
    let value_len = usize::from(u16::from_le_bytes([low, high]));
    if MAX_KEY_SIZE < key_len || MAX_VALUE_SIZE < value_len {
        return Err(Refusal::Corrupted);
    }
    let key = at + RECORD_HEADER_SIZE;
    let value = key + key_len;
    let next = value + value_len;
    if run.len() < next {
        return Err(Refusal::Corrupted);
    }
    Ok(Some(Record {
        deleted,
        key,
        value,
        next,
    }))
}
