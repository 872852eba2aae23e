// The parts of a line of the list.
use desk::say::{number_on, text_on};
use digits::hex::hex32;
use std::io;

pub(crate) fn text(rt: &HostRuntime, bytes: &[u8]) {
    text_on(rt, bytes);
}

pub(crate) fn number(rt: &HostRuntime, n: usize) {
    number_on(rt, n);
}

pub(crate) fn hex_on(to: &impl Print, n: u32) {
    text_on(to, &hex32(n));
}

// The end of a line, and whether it could be written.
pub(crate) fn line_end(rt: &HostRuntime, bytes: &[u8]) -> io::Result<()> {
    rt.write_all(bytes)
}
