// A line for each chunk of a page: where it starts, how long it is, and whether its sum is right. A chunk whose sum is wrong is passed
// by its length, so chunks behind it are listed too, although no reader comes to them.
use crate::line::{line_end, number, text};
use crate::walk::STEPS;
use crc::crc32;
use page::chunk::{chunk_at, payload_at};
use slices::field::get16;
use slices::part::part_of;
use std::io;
use types::refusal::Corrupted;

fn say_start(rt: &HostRuntime, at: usize, len: usize) {
    text(rt, b"  chunk at ");
    number(rt, at);
    text(rt, b": bytes ");
    number(rt, len);
}

// The line of the chunk at an offset: where the next one may start.
fn say_chunk(rt: &HostRuntime, page: &[u8], at: usize) -> io::Result<Option<usize>> {
    match chunk_at(page, at) {
        Ok(None) => Ok(None),
        Err(Corrupted) => {
            say_start(rt, at, get16(part_of(page, at, 4), 2) as usize);
            line_end(rt, b", more than there can be\n")?;
            Ok(None)
        }
        Ok(Some(chunk)) => {
            say_start(rt, at, chunk.len);
            if crc32(payload_at(page, at, chunk.len)) == chunk.crc {
                line_end(rt, b", sum right\n")?;
            } else {
                line_end(rt, b", sum wrong\n")?;
            }
            Ok(Some(chunk.next))
        }
    }
}

pub(crate) fn say_chunks(rt: &HostRuntime, page: &[u8], start: usize) -> io::Result<()> {
    let mut at = start;
    for _ in 0..STEPS {
        let Some(next) = say_chunk(rt, page, at)? else {
            return Ok(());
        };
        at = next;
    }
    Ok(())
}
