// Words for people. Standard error has what went wrong, in lines that start with the program's name, which the caller gives first.
// Standard output has the list; a list that is not whole ends in a line that starts with one backslash, as no entry's line does.
use crate::arguments::ARGUMENT_ROOM;
use std::env::Env;
use std::fmt::InlineText;
use std::io;
use types::refusal::Refusal;

// Something went wrong, and standard error has it.
#[derive(Clone, Copy, Debug, PartialEq, Eq)]
pub struct Said;

pub fn text(rt: &HostRuntime, bytes: &[u8]) {
    text_on(&rt.stderr(), bytes);
}

pub fn number(rt: &HostRuntime, n: usize) {
    number_on(&rt.stderr(), n);
}

// Words and a number, on either of the two. Where they can't be written, nobody is told.
pub fn text_on(to: &impl Print, bytes: &[u8]) {
    let _ = to.write_all(bytes);
}

pub fn number_on(to: &impl Print, n: usize) {
    let _ = to.print(n);
}

// What is wrong, and with which argument, where there is one.
pub fn wrong(rt: &HostRuntime, program: &[u8], what: &[u8], argument: &[u8]) {
    text(rt, program);
    text(rt, b": ");
    text(rt, what);
    if argument.len() != 0 {
        text(rt, b": ");
        text(rt, argument);
    }
    text(rt, b"\n");
}

// Argument i, as it was typed.
pub fn argument(rt: &HostRuntime, i: usize) {
    let mut word = [0; ARGUMENT_ROOM];
    let n = rt.arg(i, &mut word).unwrap_or(0);
    text(rt, &word[..n]);
}

// Why a call of the system failed, without the number that std puts behind the words.
fn reason(rt: &HostRuntime, why: &io::Error) {
    let all: InlineText<256> = InlineText::of(why);
    match all.as_str().split_once(" (os error ") {
        Some((words, _)) => text(rt, words.as_bytes()),
        None => text(rt, all.as_str().as_bytes()),
    }
}

// Says what failed, and why.
pub(crate) fn fail(rt: &HostRuntime, program: &[u8], name: &[u8], why: &io::Error) {
    text(rt, program);
    text(rt, b": ");
    text(rt, name);
    text(rt, b": ");
    reason(rt, why);
    text(rt, b"\n");
}

// Says that standard output takes no more, and why.
pub fn output_failed(rt: &HostRuntime, program: &[u8], why: &io::Error) {
    fail(rt, program, b"standard output", why);
}

// The name and the number in the table of docs/RULES.md, Refusals.
fn refusal_on(to: &impl Print, why: Refusal) {
    let _ = to.print(why);
}

// A refusal's name and number; where it is, the caller says next.
pub fn refusal(rt: &HostRuntime, program: &[u8], why: Refusal) {
    text(rt, program);
    text(rt, b": ");
    refusal_on(&rt.stderr(), why);
}

// The last line of a run that was refused.
pub fn refused(rt: &HostRuntime) {
    text(rt, b"\nrefused\n");
}

// The start of the line that ends a refused list; where the refusal is, and the line's end, the caller says next.
pub fn list_refused(rt: &HostRuntime, why: Refusal) {
    text_on(rt, b"\\refused ");
    refusal_on(rt, why);
}

// The line in place of a list that could not be made.
pub fn list_failed(rt: &HostRuntime) {
    text_on(rt, b"\\failed\n");
}
