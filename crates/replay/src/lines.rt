// The lines of a script, each answered in turn.
use crate::line::{LONGEST, answer};
use crate::world::{Space, new_world};
use desk::files::read_full;
use desk::say;
use replay_say::Output;
use script::space::{flash_space, runs_space, script_space};
use slices::part::part_of;
use std::io::Read;

// Run ends that a script can give.
const MOST_ENDS: usize = 32;

fn say_stopped(rt: &HostRuntime, number: usize, line: &[u8]) {
    say::text(rt, b"replay: line ");
    say::number(rt, number);
    if LONGEST < line.len() {
        say::text(rt, b" has more than ");
        say::number(rt, LONGEST);
        say::text(rt, b" bytes: ");
    } else {
        say::text(
            rt,
            b" is no call, or passes a limit (docs/ORACLE.md, Scripts): ",
        );
    }
    say::text(rt, part_of(line, 0, 60));
    say::text(rt, b"\n");
}

// Answers each line, up to one that is no call, or whose answer can't be written.
fn answer_lines(rt: &HostRuntime, script: &[u8]) {
    let mut out = Output::new(rt.stdout());
    let mut flash = flash_space();
    let mut runs = runs_space();
    let mut ends = [0; MOST_ENDS];
    let mut space = Space {
        flash: &mut flash,
        runs: &mut runs,
        ends: &mut ends,
    };
    let mut w = new_world();
    for (i, line) in script.split(|byte| *byte == b'\n').enumerate() {
        let next = answer(&mut out, w, line, &mut space);
        if let Some(why) = out.failure() {
            say::output_failed(rt, b"replay", &why);
            return;
        }
        let Some(left) = next else {
            say_stopped(rt, i + 1, line);
            return;
        };
        w = left;
    }
}

pub(crate) fn answer_input(rt: &HostRuntime) {
    let mut script = script_space();
    let mut more = [0; 1];
    let mut input = rt.stdin();
    let n = read_full(&mut input, &mut script);
    if n == script.len() {
        say::text(rt, b"replay: the script is longer than 1048575 bytes\n");
        return;
    }
    // A script that ends where it could not be read on is no whole script.
    if input.read(&mut more).is_err() {
        say::text(rt, b"replay: standard input cannot be read\n");
        return;
    }
    answer_lines(rt, &script[..n]);
}
