// The walk over a page's chunks, by their headers alone.
ghost use Rattle.std.specs.Prelude.{◌≡◌};
ghost use Rattle.page.specs.Walks.{walk_end, all_erased};

use crate::chunk::chunk_at;
use types::refusal::Corrupted;

// Where the chunks from an offset on end.
pub fn walk_end(page: &[u8], from: usize) -> Result<usize, Corrupted>
    ensures answers { result ≡ walk_end page.now from }
{
    let mut at = from;
    loop {
        match chunk_at(page, at) {
            Ok(None) => return Ok(at),
            Err(why) => return Err(why),
            Ok(Some(chunk)) => at = chunk.next,
        }
    }
}

// Whether every byte reads as erased.
pub fn all_erased(bytes: &[u8], value: u8) -> bool
    ensures answers { result ≡ all_erased value bytes.now }
{
    for i in 0..bytes.len() {
        if bytes[i] != value {
            return false;
        }
    }
    true
}
