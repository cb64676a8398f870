// The line of the trace that is read: its bytes so far, and its number.
ghost use Rattle.std.specs.Prelude.{◌≤◌};

use crate::fault::{Complaint, Fault};

// The longest line.
const LONGEST: usize = 1024;

// The first bytes are those of the line, of which there are `length`: it stands beside them, as memory is fixed. The first line has number 1.
#[derive(Drop)]
pub struct Line {
    bytes: [u8; LONGEST],
    length: usize,
    number: usize,
    ghost fits: { length ≤ 1024 },
}

impl Line {
    // The first line, of which nothing is read.
    pub fn first() -> Self {
        Line {
            bytes: [0; LONGEST],
            length: 0,
            number: 1,
        }
    }

    // The next line, of which nothing is read.
    pub fn begin_next(&mut self) {
        self.length = 0;
        self.number = self.number.saturating_add(1);
    }

    // Something is wrong with a word, or with the whole line.
    pub fn wrong<'a>(&self, word: Option<&'a [u8]>, fault: Fault) -> Complaint<'a> {
        Complaint {
            line: Some(self.number),
            word,
            fault,
        }
    }

    // A byte more. A comma counts as a blank.
    pub fn add(&mut self, b: u8) -> Result<(), Complaint<'static>> {
        if self.length >= LONGEST {
            return Err(self.wrong(None, Fault::LongLine));
        }
        self.bytes[self.length] = if b == b',' { b' ' } else { b };
        self.length += 1;
        Ok(())
    }

    // What is read of it.
    pub fn text(&self) -> &[u8] {
        &self.bytes[..self.length]
    }
}
