// What the arguments ask for. Words stay where they are: only their places are kept.
use crate::help::usage_on;
use desk::choice::{Choice, TOO_LONG, choose};
use desk::say::{Said, wrong};

// IMAGE, MAGIC, H and PAGE.
const MOST_WORDS: usize = 4;

#[derive(Clone, Copy)]
pub(crate) struct Asked {
    pub helps: bool,
    // Whether the chunks of each page are listed.
    pub chunks: bool,
    // How many arguments are no options, and the first of them.
    count: usize,
    pub words: [usize; MOST_WORDS],
}

impl Asked {
    pub(crate) fn nothing() -> Asked {
        Asked {
            helps: false,
            chunks: false,
            count: 0,
            words: [0; MOST_WORDS],
        }
    }

    // The argument that names a page whose bytes are asked for.
    pub(crate) fn page(&self) -> Option<usize> {
        if self.count == MOST_WORDS {
            Some(self.words[MOST_WORDS - 1])
        } else {
            None
        }
    }

    fn take_word(&mut self, i: usize) -> Result<(), &'static [u8]> {
        let Some(word) = self.words.get_mut(self.count) else {
            self.count = MOST_WORDS + 1;
            return Err(b"more than IMAGE, MAGIC, H and PAGE");
        };
        *word = i;
        self.count += 1;
        Ok(())
    }

    fn take_option(&mut self, word: &[u8]) -> Result<(), &'static [u8]> {
        match word {
            b"--chunks" => self.chunks = true,
            b"--help" | b"-h" => self.helps = true,
            _ => return Err(b"no such option"),
        }
        Ok(())
    }

    // What the arguments ask for, or that they cannot be taken.
    pub(crate) fn choose(&mut self, rt: &HostRuntime) -> Result<(), Said> {
        choose(rt, b"pages", self)?;
        if (self.count < 3) & !self.helps {
            wrong(rt, b"pages", b"IMAGE, MAGIC or H is missing", b"");
            usage_on(&rt.stderr());
            return Err(Said);
        }
        Ok(())
    }
}

impl Choice for Asked {
    // A single - is a file's name.
    fn take(&mut self, i: usize, word: Option<&[u8]>) -> Result<(), &'static [u8]> {
        let word = word.ok_or(TOO_LONG)?;
        match word {
            [] => {
                self.take_word(i)?;
                Err(b"an argument is empty")
            }
            [b'-', _, ..] => self.take_option(word),
            _ => self.take_word(i),
        }
    }
}
