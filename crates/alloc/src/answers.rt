// What the calls answer.
ghost use Rattle.std.specs.Prelude.{◌≡◌, Ok, Err};

use crate::allocator::Allocator;
use types::refusal::Refusal;

// The answer of a call that changes the allocator, and the allocator that it leaves: as it was, where the call is refused.
#[derive(Clone, Copy)]
pub struct Change<T> {
    pub answer: Result<T, Refusal>,
    pub allocator: Allocator,
}

impl<T> Change<T> {
    pub(crate) fn answered(value: T, left: Allocator) -> Change<T>
        ensures answers { result ≡ record { answer = Ok value; allocator = left } }
    {
        Change {
            answer: Ok(value),
            allocator: left,
        }
    }

    pub(crate) fn refused(why: Refusal, before: Allocator) -> Change<T>
        ensures answers { result ≡ record { answer = Err why; allocator = before } }
    {
        Change {
            answer: Err(why),
            allocator: before,
        }
    }
}

// What is_used says of a page.
#[derive(Clone, Copy, Debug, PartialEq, Eq)]
pub enum Usage {
    Used,
    Free,
}
