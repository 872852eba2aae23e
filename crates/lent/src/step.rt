// A step of a run reader, over lent bytes and a position: what the reader's calls stand on.
ghost use Rattle.std.specs.Prelude.{◌≡◌};
ghost use Rattle.lent.specs.Steps.{head_within, place_after, step_at};

use run::record::{Head, head_at};
use types::refusal::Refusal;

// What stands at a position, and the position afterwards.
#[derive(Clone, Copy)]
pub struct Step {
    pub head: Head,
    pub at: usize,
}

// A position past its run is a state out of range.
#[tactic(auto, unfolding(crate::specs::Steps::head_within))]
fn head_within(run: &[u8], at: usize) -> Head
    ensures answers { result ≡ head_within run.now at }
{
    if run.len() < at {
        return Err(Refusal::BadState);
    }
    head_at(run, at)
}

// Advances past a record; stays put at the end or on a refusal.
fn place_after(head: Head, at: usize) -> usize
    ensures answers { result ≡ place_after head at }
{
    match head {
        Ok(None) => at,
        Ok(Some(record)) => record.next,
        Err(_) => at,
    }
}

#[tactic(auto, unfolding(crate::specs::Steps::step_at))]
pub(crate) fn step_at(run: &[u8], at: usize) -> Step
    ensures answers { result ≡ step_at run.now at }
{
    let head = head_within(run, at);
    Step {
        head,
        at: place_after(head, at),
    }
}
