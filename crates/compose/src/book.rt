// The book: what the text has said so far.
ghost use Rattle.std.specs.Prelude.{◌≤◌};

use crate::gift::{Gift, Place};
use rules::{ALL_SLOTS, DOMAINS_MOST, Kind, TURNS_MOST};

// The most domains, turns and names of objects; the slots of all domains.
const DOMAINS: usize = DOMAINS_MOST as usize;

const TURNS: usize = TURNS_MOST as usize;

// The most names of objects: no size of the rules.
const OBJECTS: usize = 1024;

pub const PLACES: usize = ALL_SLOTS as usize;

// An object by its name: a kind and a number.
#[derive(Clone, Copy)]
pub struct Object<'a> {
    pub name: &'a [u8],
    pub kind: Kind,
    pub number: u32,
}

// The number of frames, the names of the domains, the domains of the turns, and the objects, each in the order of the text; and what the
// places are given.
#[derive(Drop)]
pub struct Book<'a> {
    pub frames: Option<u32>,
    pub domains: [Option<&'a [u8]>; DOMAINS],
    pub turns: [Option<u8>; TURNS],
    pub objects: [Option<Object<'a>>; OBJECTS],
    pub gifts: [Option<Gift<'a>>; PLACES],
}

// How many items there are.
pub fn count<T: Copy, const N: usize>(items: &[Option<T>; N]) -> usize
    ensures { result ≤ N }
{
    items.iter().filter(|item| item.is_some()).count()
}

// Adds an item behind the last one, where there is room for it.
pub fn add<T: Copy, const N: usize>(items: &mut [Option<T>; N], item: T) -> Option<()> {
    let room = items.iter().position(|item| item.is_none())?;
    items[room] = Some(item);
    Some(())
}

impl<'a> Book<'a> {
    // Nothing is said.
    pub fn new() -> Self {
        Book {
            frames: None,
            domains: [None; DOMAINS],
            turns: [None; TURNS],
            objects: [None; OBJECTS],
            gifts: [None; PLACES],
        }
    }

    // The domain of that name.
    pub fn domain(&self, name: &[u8]) -> Option<u8> {
        let number = self
            .domains
            .iter()
            .position(|domain| *domain == Some(name))?;
        Some(number as u8)
    }

    // The object of that name.
    pub fn object(&self, name: &[u8]) -> Option<Object<'a>> {
        self.objects
            .iter()
            .copied()
            .flatten()
            .find(|object| object.name == name)
    }

    // What a place is given.
    pub fn given(&self, place: Place) -> Option<Gift<'a>> {
        *self.gifts.get(place.number() as usize)?
    }

    // A place is given that.
    pub fn give(&mut self, gift: Gift<'a>) {
        if let Some(given) = self.gifts.get_mut(gift.place.number() as usize) {
            *given = Some(gift);
        }
    }
}
