// A line that is read, word by word; each word is what it should be, or that is what is wrong.
ghost use Rattle.std.specs.Prelude.{◌≤◌, IfOk};

use crate::complaint::{Complaint, Fault};
use crate::gift;
use rules::{Kind, Rights};
use words::Words;

// The most bytes of a name.
const LONGEST: usize = 31;

// The number of the line, its first word, and the words that are still to come.
#[derive(Drop)]
pub struct Line<'a> {
    pub number: usize,
    pub first: &'a [u8],
    pub words: Words<'a>,
}

impl<'a> Line<'a> {
    // Something is wrong with words of the line.
    pub fn wrong(&self, words: &'a [u8], fault: Fault) -> Complaint<'a> {
        Complaint {
            line: Some(self.number),
            word: Some(words),
            fault,
        }
    }

    // Something is wrong with the line, which its first word stands for.
    pub fn wrong_line(&self, fault: Fault) -> Complaint<'a> {
        self.wrong(self.first, fault)
    }

    // The next word, which has to be there.
    pub fn word(&mut self) -> Result<&'a [u8], Complaint<'a>> {
        self.words.next().ok_or(self.wrong_line(Fault::MissingWord))
    }

    // All words that are still to come.
    pub fn rest(&mut self) -> Words<'a> {
        let rest = self.words;
        self.words = Words::new(b"");
        rest
    }

    // No word is still to come.
    pub fn end(&mut self) -> Result<(), Complaint<'a>> {
        match self.words.next() {
            Some(word) => Err(self.wrong(word, Fault::ExtraWord)),
            None => Ok(()),
        }
    }

    // The next word is a number from low to high.
    pub fn number(&mut self, low: u32, high: u32) -> Result<u32, Complaint<'a>>
        ensures { IfOk result (λ n. (low ≤ n) × (n ≤ high)) }
    {
        let word = self.word()?;
        match words::number(word) {
            Some(value) if low <= value && value <= high => Ok(value),
            _ => Err(self.wrong(word, Fault::NoNumber { low, high })),
        }
    }

    // The next word is a name.
    pub fn name(&mut self) -> Result<&'a [u8], Complaint<'a>> {
        let word = self.word()?;
        if !is_name(word) {
            return Err(self.wrong(word, Fault::NoName));
        }
        if LONGEST < word.len() {
            return Err(self.wrong(word, Fault::LongName));
        }
        Ok(word)
    }

    // The next word says the rights of a capability for an object of a kind.
    pub fn rights(&mut self, kind: Kind) -> Result<Rights, Complaint<'a>>
        ensures { IfOk result (λ r. r.0 ≤ 7) }
    {
        let word = self.word()?;
        let rights = gift::rights(word).ok_or(self.wrong(word, Fault::NoRights))?;
        if rights.have(Rights::GRANT) && kind != Kind::Mailbox {
            return Err(self.wrong(word, Fault::GrantedElsewhere));
        }
        Ok(rights)
    }
}

// Whether a word is a name, but for its length.
fn is_name(word: &[u8]) -> bool {
    word.first().is_some_and(|b| b.is_ascii_alphabetic())
        && word
            .iter()
            .all(|b| b.is_ascii_alphanumeric() || matches!(*b, b'-' | b'_'))
}
