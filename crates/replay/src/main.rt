// Answers a script of calls, read from standard input, with a line for each: up to its end, or to a line that is no call. Its own
// script is every recorded call of the original, and messages whose sums come from another implementation (oracle/record).

#![tactic(auto)]

mod line;
mod lines;
mod world;

fn main(rt: HostRuntime) {
    lines::answer_input(&rt);
}
