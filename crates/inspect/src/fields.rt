// What the bytes of an image say, and its entries, one after the other.
ghost use Rattle.std.specs.Prelude.{◌-◌, ◌<◌};
ghost use Rattle.std.specs.Iterator.{at_most};

use crate::words::{Object, Place};
use image::{ENTRY, Fields, HEADER, NO_DOMAIN};
use rules::{Kind, Rights};
use std::ops::Range;

// The bytes of an image, and the sizes that their header has. The kernel's own `Image` is only of bytes that are long enough.
#[derive(Clone, Copy)]
pub struct Image<'a> {
    pub bytes: &'a [u8],
    pub domains: u8,
    pub turns: u8,
    pub entries: u16,
    pub frames: u16,
}

impl<'a> Image<'a> {
    // Any bytes. Where they are too few for a header, the sizes are 0.
    pub fn new(bytes: &'a [u8]) -> Self {
        let [domains, turns, c1, c2, f1, f2, ..] = bytes
            .first_chunk::<HEADER>()
            .copied()
            .unwrap_or([0; HEADER]);
        Image {
            bytes,
            domains,
            turns,
            entries: u16::from_be_bytes([c1, c2]),
            frames: u16::from_be_bytes([f1, f2]),
        }
    }

    // Where the turns end.
    pub fn turns_end(&self) -> usize {
        HEADER + usize::from(self.turns)
    }

    // The first byte of an entry. Entries are counted from 0.
    pub fn entry_at(&self, number: u16) -> usize
        ensures { result < 1000000 }
    {
        HEADER + usize::from(self.turns).div_ceil(4) * 4 + ENTRY * usize::from(number)
    }

    // The fields of an entry, if the image has its bytes.
    pub fn fields(&self, number: u16) -> Option<Fields> {
        let bytes = self
            .bytes
            .get(self.entry_at(number)..)?
            .first_chunk::<ENTRY>()?;
        Some(image::entry(bytes, 0))
    }

    // An entry, if the image has its bytes and it is of a kind.
    pub fn entry(&self, number: u16) -> Option<Entry> {
        Entry::new(number, self.fields(number)?)
    }

    // The entries, up to one that is of no kind.
    pub fn entries(&self) -> Entries<'a> {
        Entries {
            image: *self,
            numbers: 0..self.entries,
        }
    }
}

// An entry that is right by itself, with its number among all.
#[derive(Clone, Copy, Debug)]
pub struct Entry {
    pub number: u16,
    pub place: Place,
    pub object: Object,
    pub rights: Rights,
    pub badge: u32,
    pub source: Option<Place>,
}

impl Entry {
    // The entry with these fields, if their kind is one.
    fn new(number: u16, f: Fields) -> Option<Self> {
        let kind = Kind::try_from(f.kind).ok()?;
        Some(Entry {
            number,
            place: Place {
                domain: f.domain as usize,
                slot: f.slot as usize,
            },
            object: Object {
                kind,
                number: f.object as usize,
            },
            rights: Rights(f.rights),
            badge: f.badge,
            source: source(f),
        })
    }
}

// The place of an entry's source, if it has one.
fn source(f: Fields) -> Option<Place> {
    if f.source_domain == NO_DOMAIN && f.source_slot == 0 {
        return None;
    }
    Some(Place {
        domain: f.source_domain as usize,
        slot: f.source_slot as usize,
    })
}

// The entries of an image with these numbers.
#[derive(Drop)]
pub struct Entries<'a> {
    image: Image<'a>,
    numbers: Range<u16>,
}

impl<'a> Iterator for Entries<'a> {
    type Item = Entry;

    ghost remaining = { λ s. at_most (s.numbers.end - s.numbers.start) };

    fn next(&mut self) -> Option<Entry> {
        let number = self.numbers.next()?;
        self.image.entry(number)
    }
}
