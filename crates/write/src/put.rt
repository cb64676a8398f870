// The parts of an image as arrays of bytes. Numbers of two bytes have the high byte first; a number that no byte holds is written modulo
// 256.
ghost use Rattle.std.specs.Prelude.{◌≡◌, [], ◌∷◌, ◌++◌, ◌/◌, ◌%◌, map};
ghost use Rattle.rules.specs.Sizes.{slots};
ghost use Rattle.rules.specs.Image.{bytes_of, source_bytes, entry_for};
ghost use Rattle.write.specs.Laid.{low};

use image::{ENTRY, HEADER, Header, NO_DOMAIN};
use rules::{Capability, SLOTS};

// One byte.
pub fn byte(v: u32) -> u8
    ensures { result ≡ low v }
{
    (v % 256) as u8
}

// A number of two bytes.
fn two(v: u32) -> [u8; 2]
    ensures { result ≡ map low (bytes_of v) }
{
    [byte(v / 256), byte(v)]
}

// The domain and the slot of place p.
fn place(p: u32) -> [u8; 2]
    ensures { result ≡ map low (p / slots ∷ p % slots ∷ []) }
{
    [byte(p / SLOTS), byte(p % SLOTS)]
}

// The domain and the slot of source number x, or 255 and 0 where there is none.
#[tactic(auto, unfolding(rules::specs::Image::source_bytes))]
fn source(x: u32) -> [u8; 2]
    ensures { result ≡ map low (source_bytes x) }
{
    if x == 0 {
        [byte(NO_DOMAIN), 0]
    } else {
        place(x - 1)
    }
}

// The entry for place p, which holds c.
#[tactic(auto, unfolding(rules::specs::Image::entry_for))]
pub fn entry(p: u32, c: Capability) -> [u8; ENTRY]
    ensures { result ≡ map low (entry_for p c) }
{
    let [domain, slot] = place(p);
    let [object, object_low] = two(c.object);
    let [badge, badge_low] = two(c.badge);
    let [source_domain, source_slot] = source(c.source);
    [
        domain,
        slot,
        byte(c.kind),
        byte(c.rights),
        object,
        object_low,
        badge,
        badge_low,
        source_domain,
        source_slot,
        0,
        0,
    ]
}

// The header: D, T, C, F and 0.
pub fn header(h: Header) -> [u8; HEADER]
    ensures { result ≡ map low ((h.domains ∷ h.turns ∷ []) ++ (bytes_of h.entries ++ (bytes_of h.frames ++ (0 ∷ 0 ∷ [])))) }
{
    let [entries, entries_low] = two(h.entries);
    let [frames, frames_low] = two(h.frames);
    [
        byte(h.domains),
        byte(h.turns),
        entries,
        entries_low,
        frames,
        frames_low,
        0,
        0,
    ]
}
