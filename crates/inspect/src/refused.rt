// Where and why bytes are refused: a sentence for each refusal, 20 to 26, on the first byte or entry that it applies to. Bytes and entries
// are counted from 0. The limits stand in the sentences as the document has them.
use crate::domains::DOMAINS;
use crate::fields::{Entry, Image};
use crate::words::Object;
use image::{ENTRY, Fields, HEADER, IMAGE_MOST};
use rules::{Kind, Refusal};
use std::fmt::Write;
use std::{fmt, iter};
use text::Text;

// The slots of a domain.
const SLOTS: usize = rules::SLOTS as usize;

// ---- 20 to 22: the header and the length

// The number of bytes.
fn bytes(image: Image<'_>, out: &mut Text) -> fmt::Result {
    let length = image.bytes.len();
    if IMAGE_MOST < length {
        return write!(out, "there are more bytes than {IMAGE_MOST}");
    }
    write!(out, "there are {length} bytes")
}

// 20.
fn short(image: Image<'_>, out: &mut Text) -> fmt::Result {
    bytes(image, out)?;
    write!(out, ", and the header has {HEADER}")
}

// 21.
fn sizes(image: Image<'_>, out: &mut Text) -> fmt::Result {
    if !(1..=16).contains(&image.domains) {
        return write!(out, "byte 0: D is {}, not 1 to 16", image.domains);
    }
    if !(1..=64).contains(&image.turns) {
        return write!(out, "byte 1: T is {}, not 1 to 64", image.turns);
    }
    if 1024 < image.entries {
        return write!(out, "bytes 2 and 3: C is {}, not 0 to 1024", image.entries);
    }
    if !(1..=256).contains(&image.frames) {
        return write!(out, "bytes 4 and 5: F is {}, not 1 to 256", image.frames);
    }
    write!(out, "bytes 6 and 7 are not 0")
}

// 22.
fn length(image: Image<'_>, out: &mut Text) -> fmt::Result {
    bytes(image, out)?;
    let length = image.entry_at(image.entries);
    write!(
        out,
        ", and T {} and C {} give {length}",
        image.turns, image.entries
    )
}

// ---- 23: the turns

// 23.
fn turns(image: Image<'_>, out: &mut Text) -> fmt::Result {
    let domains = image.domains;
    let end = image.turns_end();
    let mut turns = image.bytes.iter().enumerate().take(end).skip(HEADER);
    if let Some((i, turn)) = turns.find(|(_, turn)| domains <= **turn) {
        return write!(
            out,
            "byte {i}: a turn names domain {turn}, and D is {domains}"
        );
    }
    let mut padding = image
        .bytes
        .iter()
        .enumerate()
        .take(image.entry_at(0))
        .skip(end);
    if let Some((i, byte)) = padding.find(|(_, byte)| **byte != 0) {
        return write!(out, "byte {i}: the padding is {byte}, not 0");
    }
    Ok(())
}

// ---- 24: an entry by itself

// Which entry, and its bytes.
fn name(image: Image<'_>, number: u16, out: &mut Text) -> fmt::Result {
    let at = image.entry_at(number);
    write!(out, "entry {number}, bytes {at} to {}: ", at + ENTRY - 1)
}

// An object that is past the last of its kind, or what is left: the last two bytes.
fn wrong_object(object: Object, frames: u16, out: &mut Text) -> fmt::Result {
    if object.kind == Kind::Frame && usize::from(frames) <= object.number {
        return write!(out, "it is for {object}, and F is {frames}");
    }
    if object.kind != Kind::Frame && 63 < object.number {
        return write!(out, "it is for {object}, and the last is 63");
    }
    write!(out, "its last two bytes are not 0")
}

// Why an entry is not right by itself, of kind, rights and object.
fn wrong_right(f: Fields, frames: u16, out: &mut Text) -> fmt::Result {
    let Ok(kind) = Kind::try_from(f.kind) else {
        return write!(out, "its kind is {}, not 1 to 3", f.kind);
    };
    if 7 < f.rights {
        return write!(out, "its rights are {}, not 0 to 7", f.rights);
    }
    if 3 < f.rights && kind != Kind::Mailbox {
        return write!(out, "it has GRANT, and is not for a mailbox");
    }
    let object = Object {
        kind,
        number: f.object as usize,
    };
    wrong_object(object, frames, out)
}

// Why an entry is not right by itself.
fn wrong(image: Image<'_>, f: Fields, out: &mut Text) -> fmt::Result {
    if u32::from(image.domains) <= f.domain {
        return write!(
            out,
            "its domain is {}, and D is {}",
            f.domain, image.domains
        );
    }
    if 63 < f.slot {
        return write!(out, "its slot is {}, and the last is 63", f.slot);
    }
    wrong_right(f, image.frames, out)
}

// 24.
fn entries(image: Image<'_>, out: &mut Text) -> fmt::Result {
    let is_wrong = |f: &Fields| {
        !image::entry_right(*f, u32::from(image.domains), u32::from(image.frames))
    };
    let first = (0..image.entries).find_map(|number| Some((
        number,
        image.fields(number).filter(is_wrong)?,
    )));
    if let Some((number, f)) = first {
        name(image, number, out)?;
        wrong(image, f, out)?;
    }
    Ok(())
}

// ---- 25: the order of entries

// 25.
fn order(image: Image<'_>, out: &mut Text) -> fmt::Result {
    let mut pairs = image.entries().zip(image.entries().skip(1));
    if let Some((_, entry)) = pairs.find(|(before, entry)| entry.place <= before.place) {
        name(image, entry.number, out)?;
        write!(out, "{} does not come after the entry before", entry.place)?;
    }
    Ok(())
}

// ---- 26: sources

// An entry is for what its source is for, with no right that the source lacks, and with its badge if that isn't 0.
fn fits(entry: &Entry, source: &Entry) -> bool {
    entry.object == source.object
        && source.rights.have(entry.rights)
        && (source.badge == 0 || entry.badge == source.badge)
}

// For each place of an image the number of the entry for it, if there is one.
#[derive(Drop)]
struct Places {
    numbers: [[Option<u16>; SLOTS]; DOMAINS],
}

impl Places {
    // The places of an image's entries.
    fn new(image: Image<'_>) -> Self {
        let mut numbers = [[None; SLOTS]; DOMAINS];
        for entry in image.entries() {
            let place = entry.place;
            if place.domain < DOMAINS && place.slot < SLOTS {
                numbers[place.domain][place.slot] = Some(entry.number);
            }
        }
        Places { numbers }
    }

    // The source of an entry, if an entry defines it.
    fn source(&self, image: Image<'_>, entry: &Entry) -> Option<Entry> {
        let place = entry.source?;
        let number = *self.numbers.get(place.domain)?.get(place.slot)?;
        image.entry(number?)
    }

    // An entry has no source, or one that an entry defines and that it fits.
    fn ties(&self, image: Image<'_>, entry: &Entry) -> bool {
        entry.source.is_none()
            || self
                .source(image, entry)
                .is_some_and(|source| fits(entry, &source))
    }

    // Following sources from an entry comes back to it.
    fn returns(&self, image: Image<'_>, entry: &Entry) -> bool {
        iter::successors(self.source(image, entry), |source| {
            self.source(image, source)
        })
        .take(SLOTS * DOMAINS)
        .any(|source| source.place == entry.place)
    }
}

// Why an entry does not fit its source.
fn unfit(entry: &Entry, source: &Entry, out: &mut Text) -> fmt::Result {
    if entry.object != source.object {
        return write!(
            out,
            " is for {}, and it is for {}",
            source.object, entry.object
        );
    }
    if !source.rights.have(entry.rights) {
        return write!(
            out,
            " has rights {}, and it has {}",
            source.rights, entry.rights
        );
    }
    write!(
        out,
        " has badge {}, and it has {}",
        source.badge, entry.badge
    )
}

// Why the source of an entry is not right.
fn untied(image: Image<'_>, places: &Places, entry: &Entry, out: &mut Text) -> fmt::Result {
    if let Some(place) = entry.source {
        write!(out, "its source, {place},")?;
    }
    match places.source(image, entry) {
        Some(source) => unfit(entry, &source, out),
        None => write!(out, " is no entry's place"),
    }
}

// 26.
fn sources(image: Image<'_>, out: &mut Text) -> fmt::Result {
    let places = Places::new(image);
    if let Some(entry) = image.entries().find(|entry| !places.ties(image, entry)) {
        name(image, entry.number, out)?;
        return untied(image, &places, &entry, out);
    }
    if let Some(entry) = image.entries().find(|entry| places.returns(image, entry)) {
        name(image, entry.number, out)?;
        write!(out, "following sources from it comes back to it")?;
    }
    Ok(())
}

// The line of a refusal.
pub fn show(image: Image<'_>, refusal: Refusal, out: &mut Text) -> fmt::Result {
    match refusal {
        Refusal::ImageShort => short(image, out)?,
        Refusal::ImageSizes => sizes(image, out)?,
        Refusal::ImageLength => length(image, out)?,
        Refusal::ImageTurns => turns(image, out)?,
        Refusal::ImageEntry => entries(image, out)?,
        Refusal::ImageOrder => order(image, out)?,
        _ => sources(image, out)?,
    }
    writeln!(out)
}
