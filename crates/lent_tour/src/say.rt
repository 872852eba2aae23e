// What the tour prints. Where it can't be printed, nobody is told.
use types::refusal::Refusal;

pub(crate) fn text(rt: &impl Print, text: &str) {
    let _ = rt.print(text);
}

// Bytes of a run, which need not be text.
pub(crate) fn bytes(rt: &impl Print, bytes: &[u8]) {
    let _ = rt.write_all(bytes);
}

pub(crate) fn number(rt: &impl Print, n: usize) {
    let _ = print!(rt; " {n}");
}

pub(crate) fn refused(rt: &impl Print, why: Refusal) {
    let number = why.number();
    let _ = print!(rt; " refused {number}");
}
