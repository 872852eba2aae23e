// offers RUN..: the live entries of up to 17 runs, oldest first, merged by the proved cursor, in key order.

#![tactic(auto)]

mod bound_key;
mod choice;
mod files;
mod help;
mod line;
mod listing;
mod places;

use choice::Asked;
use desk::say;
use desk::say::Said;
use places::Runs;
use script::space::all_runs_space;
use types::config::FILE_COUNT;

fn list(rt: &HostRuntime, asked: &Asked) -> Result<(), Said> {
    let mut bytes = all_runs_space();
    let mut ends = [0; FILE_COUNT];
    files::read_all(rt, asked.runs(), &mut bytes, &mut ends)?;
    let runs = Runs::first(&bytes, &ends, asked.runs().len());
    listing::list(rt, asked, runs)
}

fn main(rt: HostRuntime) {
    let mut asked = Asked::nothing();
    let chosen = asked.choose(&rt);
    if asked.helps {
        help::say(&rt);
        return;
    }
    if let Err(Said) = chosen.and_then(|_| list(&rt, &asked)) {
        say::list_failed(&rt);
    }
}
