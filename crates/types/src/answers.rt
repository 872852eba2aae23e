// What calls answer. A refused call answers an Err with its Refusal; one that is not hands out its values as Ok.
ghost use Rattle.std.specs.Prelude.{◌≡◌, ℕ};

use crate::page_id::PageID;
use crate::refusal::{Corrupted, Refusal};

// What a call answers, as the one number that tells whether it was refused.
pub trait Answer {
    ghost number: { Self → ℕ };

    // The number of the row that refuses, 0 where none does.
    fn number(self) -> u8
        ensures answers { result ≡ number self };
}

impl<T: Drop> Answer for Result<T, Refusal> {
    ghost use Rattle.types.specs.Answers.{number_told};

    ghost number = { number_told };

    fn number(self) -> u8 {
        match self {
            Ok(_) => 0,
            Err(why) => why.number(),
        }
    }
}

// What can be refused for one reason alone.
impl<T: Drop> Answer for Result<T, Corrupted> {
    ghost use Rattle.types.specs.Answers.{corrupted_told};

    ghost number = { corrupted_told };

    fn number(self) -> u8 {
        match self {
            Ok(_) => 0,
            Err(why) => Refusal::from(why).number(),
        }
    }
}

// A page or none, which is no refusal.
impl Answer for Option<PageID> {
    ghost number = { λ _. 0 };

    fn number(self) -> u8 {
        0
    }
}
