// What an entry speaks of, and how the views write it: objects and places.
use rules::Kind;
use std::fmt;

// An object.
#[derive(Clone, Copy, Debug, PartialEq, Eq)]
pub struct Object {
    pub kind: Kind,
    pub number: usize,
}

impl fmt::Display for Object {
    fn fmt<W: fmt::Write>(&self, f: &mut fmt::Formatter<W>) -> fmt::Result {
        write!(f, "{} {}", self.kind, self.number)
    }
}

// Where a capability is. The order of places is that of an image's entries.
#[derive(Clone, Copy, Debug, PartialEq, Eq, PartialOrd, Ord)]
pub struct Place {
    pub domain: usize,
    pub slot: usize,
}

impl fmt::Display for Place {
    fn fmt<W: fmt::Write>(&self, f: &mut fmt::Formatter<W>) -> fmt::Result {
        write!(f, "slot {} of domain {}", self.slot, self.domain)
    }
}
