// What a settled pass answers, and the lent buffers (docs/RULES.md, Merge).
ghost use Rattle.std.specs.Prelude.{◌≡◌, length};
ghost use Rattle.run.specs.Records.{key_in, value_in};
ghost use Rattle.cursor.specs.Next.{fitted, entry_answer, put_by};
ghost use Rattle.cursor.specs.Pass.{lowest_key, lowest_value};

use crate::answers::{Entry, NextAnswer};
use crate::look::{Holder, Lowest};
use crate::runs::run_of;
use run::record::Record;
use slices::part::put;
use types::refusal::Refusal;

// A record's key and value at the start of the lent buffers, where both have room. The key's room is looked at first.
fn hand_out(run: &[u8], it: Record, key: &mut [u8], value: &mut [u8]) -> NextAnswer
    ensures answers { result ≡ fitted (length key.old) (length value.old) (length (key_in run.now it)) (length (value_in run.now it)) }
    ensures bytes { (key.new ≡ put_by result (key_in run.now it) key.old)
        × (value.new ≡ put_by result (value_in run.now it) value.old) }
{
    let k = it.key_in(run);
    let v = it.value_in(run);
    let key_len = k.len();
    let value_len = v.len();
    if key.len() < key_len {
        return Err(Refusal::KeyBufferTooSmall);
    }
    if value.len() < value_len {
        return Err(Refusal::ValueBufferTooSmall);
    }
    put(key, k);
    put(value, v);
    Ok(Some(Entry { key_len, value_len }))
}

// The answer, with an entry's key and value in the lent buffers.
#[tactic(auto, unfolding(crate::specs::Next::answer_by, crate::specs::Next::put_by, crate::specs::Pass::lowest_key, crate::specs::Pass::lowest_value))]
pub(crate) fn deliver(
    lowest: Lowest,
    runs: &[u8],
    ends: &[usize],
    key: &mut [u8],
    value: &mut [u8],
) -> NextAnswer
    ensures answers { result ≡ entry_answer runs.now ends.now lowest (length key.old) (length value.old) }
    ensures bytes { (key.new ≡ put_by result (lowest_key runs.now ends.now lowest) key.old)
        × (value.new ≡ put_by result (lowest_value runs.now ends.now lowest) value.old) }
{
    let Some(Holder { run, head }) = lowest? else {
        return Ok(None);
    };
    hand_out(run_of(runs, ends, run), head, key, value)
}
