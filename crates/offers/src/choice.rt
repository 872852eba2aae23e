// What the arguments ask for. Keys and names stay where they are: only their places are kept.
use crate::help::usage_on;
use desk::choice::{Choice, TOO_LONG, choose};
use desk::say::{Said, wrong};
use std::ops::Bound;
use types::config::FILE_COUNT;

#[derive(Clone, Copy)]
pub(crate) struct Asked {
    pub helps: bool,
    pub only_count: bool,
    // Whether each line names the run that decided, and whether UTF-8 is printed as it is.
    pub why: bool,
    pub utf8: bool,
    // For each end of the list the argument that is its key, if there is one.
    pub lower: Bound<usize>,
    pub upper: Bound<usize>,
    // Whether the next argument is a key.
    takes: bool,
    // How many runs are named, and the arguments that name them.
    files: usize,
    names: [usize; FILE_COUNT],
}

// The bound that an end of the list is, with the key that its argument spells.
pub(crate) fn bound_of(end: Bound<usize>, key: &[u8]) -> Bound<&[u8]> {
    end.map(|_| key)
}

// Sets an end of the list.
fn set(
    end: &mut Bound<usize>,
    to: Bound<usize>,
    twice: &'static [u8],
) -> Result<(), &'static [u8]> {
    let Bound::Unbounded = *end else {
        return Err(twice);
    };
    *end = to;
    Ok(())
}

impl Asked {
    pub(crate) fn nothing() -> Asked {
        Asked {
            helps: false,
            only_count: false,
            why: false,
            utf8: false,
            lower: Bound::Unbounded,
            upper: Bound::Unbounded,
            takes: false,
            files: 0,
            names: [0; FILE_COUNT],
        }
    }

    // The arguments that name the runs.
    pub(crate) fn runs(&self) -> &[usize] {
        self.names.get(..self.files).unwrap_or(&self.names)
    }

    fn take_lower(&mut self, to: Bound<usize>) -> Result<(), &'static [u8]> {
        set(&mut self.lower, to, b"a second lower bound")?;
        self.takes = true;
        Ok(())
    }

    fn take_upper(&mut self, to: Bound<usize>) -> Result<(), &'static [u8]> {
        set(&mut self.upper, to, b"a second upper bound")?;
        self.takes = true;
        Ok(())
    }

    fn take_option(&mut self, i: usize, word: &[u8]) -> Result<(), &'static [u8]> {
        let key = i.saturating_add(1);
        match word {
            b"--from" => return self.take_lower(Bound::Included(key)),
            b"--after" => return self.take_lower(Bound::Excluded(key)),
            b"--to" => return self.take_upper(Bound::Included(key)),
            b"--before" => return self.take_upper(Bound::Excluded(key)),
            b"--count" => self.only_count = true,
            b"--why" => self.why = true,
            b"--utf8" => self.utf8 = true,
            b"--help" | b"-h" => self.helps = true,
            _ => return Err(b"no such option"),
        }
        Ok(())
    }

    fn take_file(&mut self, i: usize) -> Result<(), &'static [u8]> {
        let Some(name) = self.names.get_mut(self.files) else {
            return Err(b"more than 17 runs");
        };
        *name = i;
        self.files += 1;
        Ok(())
    }

    // What the arguments ask for, or that they cannot be taken.
    pub(crate) fn choose(&mut self, rt: &HostRuntime) -> Result<(), Said> {
        choose(rt, b"offers", self)?;
        if self.takes {
            wrong(
                rt,
                b"offers",
                b"a key is missing after the last option",
                b"--from, --after, --to or --before",
            );
            return Err(Said);
        }
        if (self.files == 0) & !self.helps {
            wrong(rt, b"offers", b"no run is named", b"");
            usage_on(&rt.stderr());
            return Err(Said);
        }
        Ok(())
    }
}

impl Choice for Asked {
    // A single - is a file's name.
    fn take(&mut self, i: usize, word: Option<&[u8]>) -> Result<(), &'static [u8]> {
        if self.takes {
            self.takes = false;
            return Ok(());
        }
        let word = word.ok_or(TOO_LONG)?;
        match word {
            [] => Err(b"an argument is empty"),
            [b'-', _, ..] => self.take_option(i, word),
            _ => self.take_file(i),
        }
    }
}
