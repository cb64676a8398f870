// What a line of the trace calls for: an operation by its name or number, and its arguments.
ghost use Rattle.std.specs.Prelude.{◌≤◌};

use crate::fault::{Complaint, Fault};
use crate::line::Line;
use rules::Operation;
use words::Words;

// The names of the operations, each at its number, with the words that the operation answers.
const OPERATIONS: [(&[u8], usize); 11] = [
    (b"IDLE", 0),
    (b"LOAD", 1),
    (b"STORE", 0),
    (b"DERIVE", 0),
    (b"DELETE", 0),
    (b"REVOKE", 0),
    (b"RING", 0),
    (b"HEAR", 1),
    (b"SEND", 0),
    (b"RECEIVE", 6),
    (b"LOOK", 4),
];

// The most arguments.
const ARGUMENTS: usize = 7;

// An operation as it is called: the word that names it, its number, and as many arguments as are given.
#[derive(Clone, Copy)]
pub struct Call<'a> {
    pub name: &'a [u8],
    number: u32,
    pub arguments: [Option<u32>; ARGUMENTS],
}

// The operation that a word names, or whose number it is.
pub fn number(word: &[u8]) -> Option<u32> {
    match OPERATIONS.iter().position(|(name, _)| *name == word) {
        Some(number) => u32::try_from(number).ok(),
        None => words::number(word),
    }
}

impl<'a> Call<'a> {
    // An operation without arguments, by the word that names it and its number.
    pub fn new(name: &'a [u8], number: u32) -> Self {
        Call {
            name,
            number,
            arguments: [None; ARGUMENTS],
        }
    }

    // The words that follow are its arguments.
    pub fn read(&mut self, words: Words<'a>, line: &Line) -> Result<(), Complaint<'a>> {
        for word in words {
            self.add(word)
                .map_err(|fault| line.wrong(Some(word), fault))?;
        }
        Ok(())
    }

    // A word is an argument more.
    fn add(&mut self, word: &[u8]) -> Result<(), Fault> {
        let value = words::number(word).ok_or(Fault::NoNumber)?;
        let room = self
            .arguments
            .iter()
            .position(|argument| argument.is_none())
            .ok_or(Fault::ManyArguments)?;
        self.arguments[room] = Some(value);
        Ok(())
    }

    // How many words it answers.
    pub fn answered(&self) -> usize
        ensures { result ≤ 6 }
    {
        OPERATIONS
            .get(self.number as usize)
            .map_or(0, |(_, answered)| *answered)
    }

    // The operation. An argument that is not given is 0.
    pub fn operation(&self) -> Operation {
        let [first, second, third, fourth, fifth, sixth, seventh] = &self.arguments;
        Operation {
            number: self.number,
            first: first.unwrap_or(0),
            second: second.unwrap_or(0),
            third: third.unwrap_or(0),
            fourth: fourth.unwrap_or(0),
            fifth: fifth.unwrap_or(0),
            sixth: sixth.unwrap_or(0),
            seventh: seventh.unwrap_or(0),
        }
    }
}
