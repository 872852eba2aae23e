// A merge of all runs, entry by entry.
ghost use Rattle.std.specs.Prelude.{◌≡◌};
ghost use Rattle.bench_jobs.specs.Merges.{merge_state, summed, is_entry, merge_one, merge_begun, merge_all};

use crate::telling::mixed;
use cursor::answers::{Entry, NextAnswer};
use cursor::place::Cursor;
use slices::field::get32;
use std::ops::Bound;
use types::answers::Answer;

// A cursor on its way, the sum of what it handed out, and whether it goes on.
#[derive(Clone, Copy)]
pub struct Merging {
    pub cursor: Cursor,
    pub sum: u64,
    pub on: bool,
}

// The sum with an entry: the lengths of key and value, and the first four bytes of each buffer.
#[tactic(auto, unfolding(crate::specs::Merges::summed))]
fn summed(sum: u64, answer: NextAnswer, key: &[u8], value: &[u8]) -> u64
    ensures answers { result ≡ summed sum answer key.now value.now }
{
    match answer {
        Ok(None) => sum,
        Ok(Some(Entry { key_len, value_len })) => {
            let lengths = mixed(mixed(sum, key_len as u64), value_len as u64);
            mixed(mixed(lengths, get32(key, 0) as u64), get32(value, 0) as u64)
        }
        Err(why) => mixed(sum, why.number() as u64),
    }
}

fn is_entry(answer: NextAnswer) -> bool
    ensures answers { result ≡ is_entry answer }
{
    match answer {
        Ok(Some(_)) => true,
        Ok(None) | Err(_) => false,
    }
}

// One call of next, without an upper bound.
#[tactic(auto, unfolding(crate::specs::Merges::merge_one))]
fn merge_one(m: Merging, runs: &[u8], ends: &[usize], key: &mut [u8], value: &mut [u8]) -> Merging
    ensures answers { result ≡ (merge_one runs.now ends.now (merge_state m key.old value.old)).merging }
    ensures bytes { (key.new ≡ (merge_one runs.now ends.now (merge_state m key.old value.old)).key)
        × (value.new ≡ (merge_one runs.now ends.now (merge_state m key.old value.old)).value) }
{
    let moved = m.cursor.next(runs, ends, Bound::Unbounded, key, value);
    Merging {
        cursor: moved.cursor,
        sum: summed(m.sum, moved.answer, key, value),
        on: is_entry(moved.answer),
    }
}

// A cursor over all runs, from the first key on.
#[tactic(auto, unfolding(crate::specs::Merges::merge_begun))]
fn merge_begun(runs: &[u8], ends: &[usize]) -> Merging
    ensures answers { result ≡ merge_begun runs.now ends.now }
{
    let made = Cursor::new(runs, ends, Bound::Unbounded);
    Merging {
        cursor: made.cursor,
        sum: made.answer.number() as u64,
        on: made.answer.is_ok(),
    }
}

// Hands out the merge's entries to the end, or as many as are wanted. Their sum.
#[unsafe(no_mangle)]
pub extern "C" fn puffcradle_merge(
    runs: &[u8],
    ends: &[usize],
    most: usize,
    key: &mut [u8],
    value: &mut [u8],
) -> u64
    ensures answers { result ≡ (merge_all most runs.now ends.now key.old value.old).merging.sum }
    ensures bytes { (key.new ≡ (merge_all most runs.now ends.now key.old value.old).key)
        × (value.new ≡ (merge_all most runs.now ends.now key.old value.old).value) }
{
    let mut m = merge_begun(runs, ends);
    for i in 0..most {
        if !m.on {
            return m.sum;
        }
        m = merge_one(m, runs, ends, key, value);
    }
    m.sum
}
