// What a call hands back after its operations.
ghost use Rattle.std.specs.Prelude.{◌≡◌};
ghost use Rattle.writer.specs.Outcomes.{answered_by, ended_with};

use crate::answers::Ended;
use crate::page_writer::PageWriter;
use flash::ops::Spent;
use types::refusal::Refusal;

impl PageWriter {
    // An answer, and the writer as it is.
    pub(crate) fn answers<T>(self, answer: Result<T, Refusal>, left: usize) -> Ended<T>
        ensures answers { result ≡ answered_by self left answer }
    {
        Ended {
            answer,
            writer: self,
            left,
        }
    }
}

// If all operations were made, the answer is `done`, and the writer is `next`; if one was cut, it is as it was.
pub(crate) fn ended_by<T: Copy>(stores: Spent, done: T, next: PageWriter, w: PageWriter) -> Ended<T>
    ensures answers { result ≡ ended_with done stores next w }
{
    if stores.ok {
        next.answers(Ok(done), stores.left)
    } else {
        w.answers(Err(Refusal::Cut), stores.left)
    }
}
