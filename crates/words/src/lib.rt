// Lines and words of a text, which are parts of it. Words are separated by blanks: spaces, tabs and carriage returns, so that a line may end
// as it does elsewhere. A line ends with a line feed, or at the text's end; what `#` begins is no part of its words.
#![tactic(auto)]

mod complaint;

ghost use Rattle.std.specs.Prelude.{◌≡◌, ◌++◌, ◌<◌, ◌≤◌, [], false, length, IfSome, IsNone};
ghost use Rattle.std.specs.Str.Parse.{IsNumeral, digits_value};
ghost use Rattle.std.specs.Iterator.{at_most};

pub use complaint::Complaint;

// The lines of a text that are still to come, each with its end.
#[derive(Clone, Copy)]
pub struct Lines<'a> {
    rest: &'a [u8],
}

impl<'a> Lines<'a> {
    // All lines of a text.
    pub fn new(text: &'a [u8]) -> Self
        ensures { result.rest.now ≡ text.now }
    {
        Lines { rest: text }
    }
}

impl<'a> Iterator for Lines<'a> {
    type Item = &'a [u8];

    // No line is empty, and a line and what is left after it are what was left; as long as anything is left, there is a line.
    ghost next_gives = { λ lines line left. IfSome line (λ l. (0 < length l.now) × (l.now ++ left.rest.now ≡ lines.rest.now)) × (IsNone line → lines.rest.now ≡ []) };

    ghost remaining = { λ lines. at_most (length lines.rest.now) };

    fn next(&mut self) -> Option<&'a [u8]> {
        if self.rest.is_empty() {
            return None;
        }
        let end = match self.rest.iter().position(|b| *b == b'\n') {
            Some(i) => i + 1,
            None => self.rest.len(),
        };
        let (line, rest) = self.rest.split_at(end);
        self.rest = rest;
        Some(line)
    }
}

// The words of a line that are still to come: those of what is left of it.
#[derive(Clone, Copy)]
pub struct Words<'a> {
    rest: &'a [u8],
}

impl<'a> Words<'a> {
    // All words of a line.
    pub fn new(line: &'a [u8]) -> Self
        ensures { length result.rest.now ≤ length line.now }
    {
        Words { rest: line }
    }

    // Passes the next word if it is that one, and tells whether it is.
    pub fn pass(&mut self, wanted: &[u8]) -> bool
        ensures { result ≡ false → self.new ≡ self.old }
    {
        let mut ahead = *self;
        let is = ahead.next() == Some(wanted);
        if is {
            *self = ahead;
        }
        is
    }

    // The words that were passed since then, with the blanks between them.
    pub fn since(&self, then: Words<'a>) -> &'a [u8]
        ensures { length result.now ≤ length then.entry.rest.now }
    {
        let rest = past_blanks(then.rest);
        let n = rest.len().saturating_sub(self.rest.len());
        &rest[..n]
    }
}

impl<'a> Iterator for Words<'a> {
    type Item = &'a [u8];

    // No word is empty.
    ghost next_gives = { λ words word left. IfSome word (λ w. 0 < length w.now) };

    ghost remaining = { λ words. at_most (length words.rest.now) };

    fn next(&mut self) -> Option<&'a [u8]> {
        let rest = past_blanks(self.rest);
        let (first, others) = rest.split_first()?;
        if ends_words(*first) {
            return None;
        }
        let more = others
            .iter()
            .position(|b| is_blank(*b) || ends_words(*b))
            .unwrap_or(others.len());
        let (word, rest) = rest.split_at(1 + more);
        self.rest = rest;
        Some(word)
    }
}

// Whether it separates words.
fn is_blank(b: u8) -> bool {
    matches!(b, b' ' | b'\t' | b'\r')
}

// Whether no word of the line stands from there on.
fn ends_words(b: u8) -> bool {
    matches!(b, b'\n' | b'#')
}

// What follows the blanks at the beginning.
fn past_blanks(line: &[u8]) -> &[u8]
    ensures { length result.now ≤ length line.now }
{
    let blanks = line
        .iter()
        .position(|b| !is_blank(*b))
        .unwrap_or(line.len());
    &line[blanks..]
}

// The number that a word is in decimal digits; none where it is no number, or a greater one than fits.
pub fn number(word: &[u8]) -> Option<u32>
    ensures { IfSome result (λ n. IsNumeral 10 word.now × (n ≡ digits_value 10 word.now)) }
{
    if word.is_empty() {
        return None;
    }
    let mut number = 0u32;
    for b in word {
        let digit = char::from(*b).to_digit(10)?;
        number = number.checked_mul(10)?.checked_add(digit)?;
    }
    Some(number)
}
