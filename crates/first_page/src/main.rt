// A first program: it writes a page on a lent flash of one page, and a new reader reads it back.

#![tactic(auto)]

use reader::page_reader::PageReader;
use script::space::page_space;
use slices::part::part_of;
use types::answers::Answer;
use types::page_id::PageID;
use types::refusal::Refusal;
use writer::page_writer::PageWriter;

const MAGIC: u32 = 0xA1;

// What was done, and the number of its refusal, which is 0 where it was not refused. Where it can't be written, nobody is told.
fn told<T: Drop>(rt: &impl Print, what: &str, answer: Result<T, Refusal>) {
    let number = answer.number();
    let _ = println!(rt; "{what}: {number}");
}

// Bytes that were read, which need not be text.
fn showed(rt: &impl Print, what: &str, bytes: &[u8]) {
    let _ = print!(rt; "{what}: ");
    let _ = rt.write_all(bytes);
    let _ = println!(rt);
}

// 10,000 stores are more than a page takes: the power does not fail here.
fn write_page(rt: &impl Print, flash: &mut [u8]) {
    let opened = PageWriter::new().open(flash, PageID::zero(), 4, 10000);
    told(rt, "open", opened.answer);
    let wrote = opened.writer.write(flash, b"30 hives at 176", opened.left);
    told(rt, "write", wrote.answer);
    let headed = wrote.writer.write_header(flash, MAGIC, b"yard", wrote.left);
    told(rt, "write the header", headed.answer);
    let ended = headed.writer.commit(flash, headed.left);
    told(rt, "commit", ended.answer);
}

fn read_page(rt: &impl Print, flash: &[u8]) {
    let mut header = [0; 4];
    let mut bytes = [0; 64];
    let opening = PageReader::new().open(flash, MAGIC, PageID::zero(), &mut header);
    told(rt, "open to read", opening.answer);
    let passage = opening.reader.read(flash, &mut bytes);
    let count = passage.answer.unwrap_or(0);
    showed(rt, "the header", &header);
    showed(rt, "the bytes", part_of(&bytes, 0, count));
}

fn main(rt: HostRuntime) {
    let mut flash = page_space();
    write_page(&rt, &mut flash);
    read_page(&rt, &flash);
}
