// How answers are said: word by word. The first word starts the line, and each other brings the space before it.

#![tactic(auto)]

pub mod said;
pub mod word;

use crate::said::Said;
use std::fmt::Display;
use std::io::{Error, Result, Stdout};

// Where answers go, and why the last write failed, if one did.
#[derive(Drop)]
pub struct Output {
    stdout: Stdout,
    failure: Option<Error>,
}

impl Output {
    pub fn new(stdout: Stdout) -> Output {
        Output {
            stdout,
            failure: None,
        }
    }

    pub fn failure(&self) -> Option<Error> {
        self.failure
    }

    fn wrote(&mut self, write: Result<()>) {
        if let Err(why) = write {
            self.failure = Some(why);
        }
    }

    pub(crate) fn print<D: Display + Drop>(&mut self, text: D) {
        let write = self.stdout.print(text);
        self.wrote(write);
    }

    pub(crate) fn print_bytes(&mut self, bytes: &[u8]) {
        let write = self.stdout.write_all(bytes);
        self.wrote(write);
    }

    pub fn say<S: Said>(&mut self, what: S) {
        what.say_on(self);
    }

    pub fn end_line(&mut self) {
        self.print("\n");
    }

    // Says what the whole line is.
    pub fn say_line<S: Said>(&mut self, what: S) {
        self.say(what);
        self.end_line();
    }
}
