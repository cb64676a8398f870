// What a line gives: a capability for an object, with rights, and perhaps a badge and a source.
ghost use Rattle.std.specs.Prelude.{◌≤◌, IfSome};

use rules::{Kind, Rights, SLOTS};

// The right of a letter.
fn right(letter: u8) -> Option<Rights>
    ensures { IfSome result (λ r. r.0 ≤ 4) }
{
    match letter {
        b'r' => Some(Rights::READ),
        b'w' => Some(Rights::WRITE),
        b'g' => Some(Rights::GRANT),
        _ => None,
    }
}

// Rights and one more, unless it is among them.
fn add(rights: Rights, right: Rights) -> Option<Rights>
    ensures { IfSome result (λ r. r.0 ≤ 7) }
{
    if rights.have(right) {
        None
    } else {
        Some(Rights((rights.0 | right.0) % 8))
    }
}

// The rights that a word says: letters, each once, or `-` for none.
pub fn rights(word: &[u8]) -> Option<Rights>
    ensures { IfSome result (λ r. r.0 ≤ 7) }
{
    let mut rights = Rights(0);
    if word == b"-".as_slice() {
        return Some(rights);
    }
    for letter in word {
        rights = add(rights, right(*letter)?)?;
    }
    Some(rights)
}

// A slot of a domain.
#[derive(Clone, Copy, Debug, PartialEq, Eq)]
pub struct Place {
    pub domain: u8,
    pub slot: u8,
}

impl Place {
    // Its number among all places.
    pub fn number(self) -> u32
        ensures { result ≤ 16575 }
    {
        u32::from(self.domain) * SLOTS + u32::from(self.slot)
    }
}

// Where a capability comes from, and the words that say so.
#[derive(Clone, Copy)]
pub struct Source<'a> {
    pub place: Place,
    pub named: &'a [u8],
}

// A capability that a line gives, and the line. A badge is not 0.
#[derive(Clone, Copy)]
pub struct Gift<'a> {
    pub line: usize,
    pub place: Place,
    pub kind: Kind,
    pub rights: Rights,
    pub object: u32,
    pub badge: Option<u32>,
    pub source: Option<Source<'a>>,
}
