// What an answer can say.
use crate::Output;
use crate::word::Word;
use digits::hex::{encode, hex32};
use digits::number::{Apart, sign_apart};
use script::space::line_space;
use slices::part::part_of;
use types::page_id::PageID;
use types::refusal::Refusal;

pub trait Said {
    fn say_on(self, out: &mut Output);
}

impl Said for Word {
    fn say_on(self, out: &mut Output) {
        out.print(self);
    }
}

// A call that hands out nothing says no more than how it went.
impl Said for () {
    fn say_on(self, _out: &mut Output) {}
}

impl Said for usize {
    fn say_on(self, out: &mut Output) {
        out.print(format_args!(" {self}"));
    }
}

impl Said for isize {
    fn say_on(self, out: &mut Output) {
        let Apart { below, size } = sign_apart(self);
        let sign = if below { " -" } else { " " };
        out.print(sign);
        out.print(size);
    }
}

// 0 or 1.
impl Said for bool {
    fn say_on(self, out: &mut Output) {
        out.say(self as usize);
    }
}

impl Said for PageID {
    fn say_on(self, out: &mut Output) {
        out.say(self.index());
    }
}

// 32 bits as eight digits in hex.
#[derive(Clone, Copy)]
pub struct Sum(pub u32);

impl Said for Sum {
    fn say_on(self, out: &mut Output) {
        out.print(" ");
        out.print_bytes(&hex32(self.0));
    }
}

// Bytes in hex, or `-` for none.
impl Said for &[u8] {
    fn say_on(self, out: &mut Output) {
        if self.is_empty() {
            out.print(" -");
            return;
        }
        let mut digits = line_space();
        let n = encode(self, &mut digits);
        out.print(" ");
        out.print_bytes(part_of(&digits, 0, n));
    }
}

// What a call hands out, or why it is refused.
impl<T: Said> Said for Result<T, Refusal> {
    fn say_on(self, out: &mut Output) {
        match self {
            Ok(value) => {
                out.say(Word::Ok);
                out.say(value);
            }
            Err(why) => out.say(Word::No(why)),
        }
    }
}
