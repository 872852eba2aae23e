// Calls for a sum.
use crc::crc32;
use replay_say::Output;
use replay_say::said::Sum;
use replay_say::word::Word;
use script::args::bytes_at;
use script::space::line_space;
use script::words::word_count;
use slices::part::part_of;

pub(crate) fn answer(out: &mut Output, line: &[u8]) -> Option<()> {
    let mut bytes = line_space();
    if word_count(line) != 2 {
        return None;
    }
    let n = bytes_at(line, 1, &mut bytes)?;
    out.say(Word::Ok);
    out.say_line(Sum(crc32(part_of(&bytes, 0, n))));
    Some(())
}
