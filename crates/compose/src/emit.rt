// The image's bytes, document 01, section 5, from the book, by the functions that the kernel writes an image with.
ghost use Rattle.std.specs.Prelude.{◌≤◌};

use crate::book::{Book, count};
use crate::gift::Gift;
use image::{ENTRY, HEADER, Header, IMAGE_MOST};
use rules::Capability;

// The entry of a gift.
fn entry(gift: &Gift<'_>) -> [u8; ENTRY] {
    let capability = Capability {
        kind: gift.kind.number(),
        rights: gift.rights.0,
        object: gift.object,
        badge: gift.badge.unwrap_or(0),
        source: gift.source.map_or(0, |source| source.place.number() + 1),
    };
    write::entry(gift.place.number(), capability)
}

// The header.
fn header(book: &Book<'_>) -> Header
    ensures { result.turns ≤ 64 }
{
    Header {
        domains: count(&book.domains) as u32,
        turns: count(&book.turns) as u32,
        entries: count(&book.gifts) as u32,
        frames: book.frames.unwrap_or(0),
    }
}

// The whole image, at the beginning of a space of zeros.
pub fn image<'a>(book: &Book<'_>, space: &'a mut [u8; IMAGE_MOST]) -> &'a [u8] {
    let header = header(book);
    let entries_at = header.entries_at();
    let (head, rest) = space.split_at_mut(HEADER);
    head.copy_from_slice(&write::header(header));
    let (turns, entries) = rest.split_at_mut(entries_at - HEADER);
    for (room, domain) in turns.iter_mut().zip(book.turns.iter().flatten()) {
        *room = *domain;
    }
    let rooms = entries.chunks_exact_mut(ENTRY);
    for (room, gift) in rooms.zip(book.gifts.iter().flatten()) {
        room.copy_from_slice(&entry(gift));
    }
    &space[..entries_at + ENTRY * count(&book.gifts)]
}
