// Direct flow, document 03, section 2, with what carries it.
use crate::domains::{DOMAINS, Set, Table};
use crate::fields::{Entry, Image};
use crate::objects::{KINDS, Objects};
use crate::verdict::{ANSWERS, Held};
use crate::words::Object;
use rules::{Kind, Refusal, Rights};
use std::fmt;
use std::slice::Iter;

// What carries a direct flow: an object, or REVOKE of the capability in a slot, from which another was derived.
#[derive(Clone, Copy, Debug)]
pub enum Carrier {
    Object(Object),
    Revoke { slot: usize },
}

impl fmt::Display for Carrier {
    fn fmt<W: fmt::Write>(&self, f: &mut fmt::Formatter<W>) -> fmt::Result {
        match self {
            Carrier::Object(object) => write!(f, "{object}"),
            Carrier::Revoke { slot } => write!(f, "REVOKE of slot {slot}"),
        }
    }
}

// The domains that could use an object: with WRITE, and with READ.
#[derive(Clone, Copy, Default)]
struct Users {
    writers: Set,
    readers: Set,
}

impl Users {
    // A domain has these rights to the object.
    fn insert(&mut self, domain: usize, rights: Rights) {
        if rights.have(Rights::WRITE) {
            self.writers.insert(domain);
        }
        if rights.have(Rights::READ) {
            self.readers.insert(domain);
        }
    }

    // Those from whom there is a flow over an object of a kind, and those to whom.
    fn ends(&self, kind: Kind) -> (Set, Set) {
        let both = self.writers | self.readers;
        match kind {
            Kind::Frame => (self.writers, self.readers),
            Kind::Mailbox => (both, both),
            Kind::Bell => (both, self.readers),
        }
    }
}

// The users of each object.
type AllUsers = Objects<Users>;

// A domain has what an entry gives.
fn note(users: &mut AllUsers, domain: usize, entry: Entry) {
    if let Some(users) = users.get_mut(entry.object) {
        users.insert(domain, entry.rights);
    }
}

// Each entry's domain has what the entry gives.
fn note_own(users: &mut AllUsers, image: Image<'_>) {
    for entry in image.entries() {
        note(users, entry.place.domain, entry);
    }
}

// Each domain has what it could hold.
fn note_held(users: &mut AllUsers, image: Image<'_>, held: Held<'_>) {
    for domain in 0..DOMAINS {
        for (entry, holds) in image.entries().zip(held.row(domain)) {
            if *holds == 1 {
                note(users, domain, entry);
            }
        }
    }
}

// What carries the direct flow from the row's domain to the column's: what was found first.
#[derive(Drop)]
pub struct Carriers {
    table: Table<Option<Carrier>>,
}

impl Carriers {
    // No carriers.
    pub fn new() -> Self {
        Carriers {
            table: Table::new(None),
        }
    }

    // Finds the carriers of an image. What the image itself gives comes first: it says more than what rule 2 of section 1 passes on.
    pub fn find(&mut self, image: Image<'_>) -> Result<(), Refusal> {
        let mut space = [0; ANSWERS];
        let held = Held::new(image, &mut space)?;
        let mut users = Objects::new(Users::default());
        note_own(&mut users, image);
        self.link(&users);
        self.derive(image);
        note_held(&mut users, image, held);
        self.link(&users);
        Ok(())
    }

    // A carrier from one domain to another, where there is none yet.
    fn insert(&mut self, from: usize, to: usize, carrier: Carrier) {
        if from != to && self.get(from, to).is_none() {
            self.table.set(from, to, Some(carrier));
        }
    }

    // Direct flow over each object.
    fn link(&mut self, users: &AllUsers) {
        for kind in KINDS {
            for (number, users) in users.of(kind).iter().enumerate() {
                let (from, to) = users.ends(kind);
                self.join(from, to, Carrier::Object(Object { kind, number }));
            }
        }
    }

    // Direct flow from each of a set to each of another.
    fn join(&mut self, from: Set, to: Set, carrier: Carrier) {
        for a in (0..DOMAINS).filter(|d| from.has(*d)) {
            for b in (0..DOMAINS).filter(|d| to.has(*d)) {
                self.insert(a, b, carrier);
            }
        }
    }

    // Direct flow by each entry's source.
    fn derive(&mut self, image: Image<'_>) {
        for entry in image.entries() {
            if let Some(source) = entry.source {
                let carrier = Carrier::Revoke { slot: source.slot };
                self.insert(source.domain, entry.place.domain, carrier);
            }
        }
    }

    // What carries the direct flow from one domain to another, if there is one.
    pub fn get(&self, from: usize, to: usize) -> Option<Carrier> {
        self.table.get(from, to)?
    }

    // The rows of the table.
    pub fn rows(&self) -> Iter<'_, [Option<Carrier>; DOMAINS]> {
        self.table.rows()
    }
}
