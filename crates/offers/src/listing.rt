// The list: a line for each live entry, or only how many there are.
use crate::bound_key::key_of;
use crate::choice::{Asked, bound_of};
use crate::line::{line_of, put_all};
use crate::places::{Runs, Spot, decider, next_spot, start_spot};
use cursor::place::Cursor;
use desk::arguments::ARGUMENT_ROOM;
use desk::say;
use desk::say::{Said, number_on, text_on};
use script::space::{entry_space, line_space};
use slices::part::part_of;
use std::env::Env;
use std::io;
use std::ops::Bound;
use types::config::{MAX_KEY_SIZE, MAX_VALUE_SIZE};
use types::refusal::Refusal;

// What is listed: what was asked for, the runs, and the upper bound.
#[derive(Clone, Copy)]
struct Listing<'a> {
    rt: &'a HostRuntime,
    asked: &'a Asked,
    runs: Runs<'a>,
    upper: Bound<&'a [u8]>,
}

impl Listing<'_> {
    fn say_spot(self, spot: Spot) {
        let Some(name) = self.asked.runs().get(spot.run) else {
            return;
        };
        say::text(self.rt, b" in ");
        say::argument(self.rt, *name);
        say::text(self.rt, b" at ");
        say::number(self.rt, spot.at);
    }

    // The name of a run, shown as keys are.
    fn print_name(self, run: usize) {
        let Some(name) = self.asked.runs().get(run) else {
            return;
        };
        let mut word = [0; ARGUMENT_ROOM];
        let n = self.rt.arg(*name, &mut word).unwrap_or(0);
        let mut shown = line_space();
        let m = put_all(&mut shown, 0, &word[..n], self.asked.utf8);
        text_on(self.rt, part_of(&shown, 0, m));
    }

    fn print_spot(self, spot: Spot) {
        text_on(self.rt, b" in ");
        self.print_name(spot.run);
        text_on(self.rt, b" at ");
        number_on(self.rt, spot.at);
    }

    // Ends a list that was refused, at a spot where there is one.
    fn say_refused(self, why: Refusal, spot: Option<Spot>) {
        say::refusal(self.rt, b"offers", why);
        if let Some(spot) = spot {
            self.say_spot(spot);
        }
        say::refused(self.rt);
        say::list_refused(self.rt, why);
        if let Some(spot) = spot {
            self.print_spot(spot);
        }
        text_on(self.rt, b"\n");
    }

    // A line, but for the name of the run that decided and the line's end where they follow.
    fn print_entry(self, key: &[u8], value: &[u8], last: u8) -> io::Result<()> {
        let mut out = entry_space();
        let n = line_of(key, value, self.asked.utf8, last, &mut out);
        self.rt.write_all(part_of(&out, 0, n))
    }

    // The entry that the cursor stood before.
    fn print(self, cursor: Cursor, key: &[u8], value: &[u8]) -> io::Result<()> {
        if !self.asked.why {
            return self.print_entry(key, value, b'\n');
        }
        let _ = self.print_entry(key, value, b'\t');
        if let Some(run) = decider(self.runs, cursor, key) {
            self.print_name(run);
        }
        self.rt.write_all(b"\n")
    }

    // Prints an entry, unless they are only counted.
    fn show(self, cursor: Cursor, key: &[u8], value: &[u8]) -> Result<(), Said> {
        if self.asked.only_count {
            return Ok(());
        }
        self.print(cursor, key, value).map_err(|why| {
            say::output_failed(self.rt, b"offers", &why);
            Said
        })
    }

    // Asks for the next entry and shows it: the cursor behind it, or none at the end.
    fn turned(self, cursor: Cursor) -> Result<Option<Cursor>, Said> {
        let mut key = [0; MAX_KEY_SIZE];
        let mut value = [0; MAX_VALUE_SIZE];
        let Runs { bytes, ends } = self.runs;
        let moved = cursor.next(bytes, ends, self.upper, &mut key, &mut value);
        match moved.answer {
            Ok(None) => Ok(None),
            Ok(Some(entry)) => {
                let found = part_of(&key, 0, entry.key_len);
                self.show(cursor, found, part_of(&value, 0, entry.value_len))?;
                Ok(Some(moved.cursor))
            }
            Err(why) => {
                self.say_refused(why, next_spot(self.runs, moved.cursor));
                Err(Said)
            }
        }
    }

    fn say_count(self, count: usize) {
        if !self.asked.only_count {
            return;
        }
        number_on(self.rt, count);
        if let Err(why) = self.rt.write_all(b"\n") {
            say::output_failed(self.rt, b"offers", &why);
        }
    }

    // Every entry has bytes of its own, so there are no more entries than bytes.
    fn list_from(self, start: Cursor) -> Result<(), Said> {
        let mut cursor = start;
        for count in 0..=self.runs.bytes.len() {
            let Some(behind) = self.turned(cursor)? else {
                self.say_count(count);
                return Ok(());
            };
            cursor = behind;
        }
        Ok(())
    }

    fn list(self, lower: Bound<&[u8]>) {
        let Runs { bytes, ends } = self.runs;
        let made = Cursor::new(bytes, ends, lower);
        match made.answer {
            Ok(()) => {
                let _ = self.list_from(made.cursor);
            }
            Err(why) => self.say_refused(why, start_spot(self.runs, lower)),
        }
    }
}

// Lists, or says what is wrong with a bound.
pub(crate) fn list<'a>(rt: &'a HostRuntime, asked: &'a Asked, runs: Runs<'a>) -> Result<(), Said> {
    let mut lower = [0; ARGUMENT_ROOM];
    let mut upper = [0; ARGUMENT_ROOM];
    let m = key_of(rt, asked.lower, &mut lower)?;
    let n = key_of(rt, asked.upper, &mut upper)?;
    let listing = Listing {
        rt,
        asked,
        runs,
        upper: bound_of(asked.upper, part_of(&upper, 0, n)),
    };
    listing.list(bound_of(asked.lower, part_of(&lower, 0, m)));
    Ok(())
}
