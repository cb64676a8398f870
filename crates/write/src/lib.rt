// Writing the image of the state in memory, document 01, section 5. Memory is only read. The buffer is written only once nothing refuses:
// first the state is looked through for refusal 27, then the entries are counted for refusal 28, then the front of the buffer that just
// holds the image is split into header, turns, padding and entries, and each is written. On any memory each function does exactly what the
// rules say of the state that stands there; a number that no byte holds, which good memory does not have, is written modulo 256.
#![tactic(auto)]

mod blank;
mod put;

ghost use Rattle.std.specs.Prelude.{◌≡◌, ◌*◌, ◌≤◌, length, map, true};
ghost use Rattle.std.specs.List.{filter, range_with_len};
ghost use Rattle.rules.specs.Refusal.{status_of};
ghost use Rattle.rules.specs.Sizes.{places, turns_most};
ghost use Rattle.rules.specs.Image.{entry_bytes, length_for, occupied, entries_for, bytes_for};
ghost use Rattle.layout.specs.Layout.{state_of};
ghost use Rattle.write.specs.Written.{sized, size_of, Wrote};
ghost use Rattle.write.specs.Laid.{held, low, Ready};

use image::{ENTRY, HEADER, Header};
use layout::Memory;
pub use put::{entry, header};
use rules::{Refusal, SLOTS};

// How many of the first n places hold a capability.
fn count(memory: &Memory<'_>, n: u32) -> u32
    requires n_in_range { n ≤ places }
    ensures { result ≡ length (filter (held (state_of memory.now.words.now).capability) (range_with_len 0 n)) }
{
    (0..n).filter(|p| memory.see(*p, &mut 0).kind != 0).count() as u32
}

// The header of the state's image.
fn header_of(memory: &Memory<'_>) -> Header
    requires { sized (state_of memory.now.words.now) ≡ true }
    ensures { Ready (state_of memory.now.words.now) result }
{
    let head = memory.head();
    Header {
        domains: head.domains,
        turns: head.turns,
        entries: count(memory, head.domains * SLOTS),
        frames: head.frames,
    }
}

// The bytes of an image with this header.
#[tactic(auto, unfolding(rules::specs::Image::length_for, rules::specs::Image::entries_at, rules::specs::Image::padded))]
fn size_for(h: Header) -> usize
    requires { h.turns ≤ turns_most }
    ensures { result ≡ length_for h.turns h.entries }
{
    h.entries_at() + ENTRY * h.entries as usize
}

// The domains of the turns into the table.
fn table(memory: &Memory<'_>, turns: &mut [u8])
    requires turns_fit { length turns.old ≡ length (state_of memory.now.words.now).turns }
    requires turns_in_range { length turns.old ≤ turns_most }
    ensures { turns.new ≡ map low (state_of memory.now.words.now).turns }
{
    for (k, turn) in turns.iter_mut().enumerate() {
        *turn = put::byte(memory.turn_at(k as u32));
    }
}

// The entries of the first n places into bytes that just hold them.
#[tactic(auto, using(crate::proofs::Entering::entry_fits))]
fn entries(memory: &Memory<'_>, bytes: &mut [u8], n: u32)
    requires n_in_range { n ≤ places }
    requires bytes_fit { length bytes.old ≡ entry_bytes * length (occupied (state_of memory.now.words.now).capability n 0) }
    ensures { bytes.new ≡ map low (entries_for (state_of memory.now.words.now).capability (occupied (state_of memory.now.words.now).capability n 0)) }
{
    // A position, not chunks: nothing is known of what is written into the library's chunks of a slice.
    let mut at = 0;
    for p in 0..n {
        let c = memory.see(p, &mut 0);
        if c.kind != 0 {
            bytes[at..at + ENTRY].copy_from_slice(&put::entry(p, c));
            at += ENTRY;
        }
    }
}

// The whole image, whose header is h, into bytes that just hold it.
#[tactic(auto, unfolding(rules::specs::Image::length_for, rules::specs::Image::entries_at, rules::specs::Image::padded))]
fn fill(memory: &Memory<'_>, image: &mut [u8], h: Header)
    requires ready { Ready (state_of memory.now.words.now) h }
    requires image_fits { length image.old ≡ length_for h.turns h.entries }
    ensures { image.new ≡ map low (bytes_for (state_of memory.now.words.now)) }
{
    let (header, rest) = image.split_at_mut(HEADER);
    let (turns, rest) = rest.split_at_mut(h.turns as usize);
    let (padding, bytes) = rest.split_at_mut(h.entries_at() - HEADER - h.turns as usize);
    header.copy_from_slice(&put::header(h));
    table(memory, turns);
    padding.fill(0);
    entries(memory, bytes, h.domains * SLOTS);
}

// The same as write, of memory that is long enough.
fn written(memory: &Memory<'_>, image: &mut [u8]) -> Result<u32, Refusal>
    ensures { Wrote memory.now.words.now image.old (status_of result) (size_of result) image.new }
{
    if !blank::describable(memory) {
        return Err(Refusal::Unwritable);
    }
    let h = header_of(memory);
    let size = size_for(h);
    if image.len() < size {
        return Err(Refusal::BufferShort);
    }
    fill(memory, &mut image[..size], h);
    Ok(size as u32)
}

// The image of the state in memory into the buffer, and how many bytes it has. Memory that is too short is refused with 29; a state that no
// image describes, with 27; a buffer that is too short, with 28. A refusal leaves the buffer as it was.
pub fn write(mem: &[u32], image: &mut [u8]) -> Result<u32, Refusal>
    ensures { Wrote mem.now image.old (status_of result) (size_of result) image.new }
{
    match Memory::of(mem) {
        Some(memory) => written(&memory, image),
        None => Err(Refusal::TooShort),
    }
}
