// What a program says on standard error of a word that it can't take.
use std::fmt;
use std::fmt::Write;
use text::Text;

// The most bytes of a word that are shown.
const SHOWN: usize = 40;

// A word as it is shown: its first bytes, with a question mark for one that is no printing character of ASCII.
#[derive(Clone, Copy)]
struct Shown<'a>(&'a [u8]);

impl fmt::Display for Shown<'_> {
    fn fmt<W: fmt::Write>(&self, f: &mut fmt::Formatter<W>) -> fmt::Result {
        for b in self.0.iter().take(SHOWN) {
            let shown = if matches!(*b, b' '..=b'~') { *b } else { b'?' };
            f.write_char(char::from(shown))?;
        }
        Ok(())
    }
}

// What is wrong with a text, and where: the number of the line and the word, or several, unless it is the whole line or the whole text.
#[derive(Clone, Copy)]
pub struct Complaint<'a, F> {
    pub line: Option<usize>,
    pub word: Option<&'a [u8]>,
    pub fault: F,
}

// Something is wrong with the whole text.
impl<F> From<F> for Complaint<'_, F> {
    fn from(fault: F) -> Self {
        Complaint {
            line: None,
            word: None,
            fault,
        }
    }
}

// `line 7: word: message`
impl<F: fmt::Display> fmt::Display for Complaint<'_, F> {
    fn fmt<W: fmt::Write>(&self, f: &mut fmt::Formatter<W>) -> fmt::Result {
        if let Some(line) = self.line {
            write!(f, "line {line}: ")?;
        }
        if let Some(word) = self.word {
            write!(f, "{}: ", Shown(word))?;
        }
        write!(f, "{}", self.fault)
    }
}

impl<F: fmt::Display> Complaint<'_, F> {
    // Says it on standard error, in a line, which is written at once.
    pub fn say(&self) {
        let mut out = Text::for_errors();
        // Text gives no error.
        let _ = write!(out, "{self}\n");
        out.flush();
    }
}
