// Reading a boot image into memory, document 01, section 5. The bytes are only read, first for a refusal and then, once accepted, from
// the header to the last entry, each entry fetched once. Memory is written only for an accepted image that it is long enough for:
// cleared, then the head, the table of turns, and a capability for each entry.
#![tactic(auto)]

ghost use Rattle.std.specs.Prelude.{◌≡◌, ◌≤◌, length};
ghost use Rattle.rules.specs.Refusal.{status_of};
ghost use Rattle.rules.specs.Image.{size_t, size_c, size_f};
ghost use Rattle.layout.specs.Layout.{frames_at, words_for};
ghost use Rattle.boot.specs.Booted.{Loaded, Booted, Tabled, Entered};

use image::Accepted;
use rules::Refusal;

// The table of turns into memory with its head.
fn table(accepted: &Accepted, mem: &mut [u32])
    requires mem_long_enough { frames_at ≤ length mem.old }
    requires tabled { Tabled accepted.now.image.bytes.now mem.old mem.old 0 }
    ensures { Tabled accepted.now.image.bytes.now mem.old mem.new (size_t accepted.now.image.bytes.now) }
{
    for (i, turn) in accepted.image.turns().iter().enumerate() {
        layout::set_turn(mem, i, u32::from(*turn));
    }
}

// The entries into memory with its head and its table.
fn entries(accepted: &Accepted, mem: &mut [u32])
    requires mem_long_enough { words_for (size_f accepted.now.image.bytes.now) ≤ length mem.old }
    requires entered { Entered accepted.now.image.bytes.now mem.old mem.old 0 }
    ensures { Entered accepted.now.image.bytes.now mem.old mem.new (size_c accepted.now.image.bytes.now) }
{
    for i in 0..accepted.image.header.entries {
        let entry = accepted.image.entry(i);
        let p = entry.place();
        layout::place(mem, p, entry.capability(), &mut 0);
    }
}

// An accepted image into memory that is long enough: words is what its state takes.
fn load(accepted: &Accepted, mem: &mut [u32], words: usize)
    requires words_is { words ≡ words_for (size_f accepted.now.image.bytes.now) }
    requires mem_long_enough { words ≤ length mem.old }
    ensures { Loaded accepted.now.image.bytes.now mem.old mem.new }
{
    layout::clear(mem, words);
    let header = accepted.image.header;
    layout::set_head(mem, header.domains, header.frames, header.turns);
    table(accepted, mem);
    entries(accepted, mem);
}

// A boot image into memory. An image is refused with the first refusal that applies; memory that is too short for the image's frames, with
// 29. A refusal changes nothing.
pub fn read(image: &[u8], mem: &mut [u32]) -> Result<(), Refusal>
    ensures { Booted image.now mem.old (status_of result) mem.new }
{
    let accepted = Accepted::of(image)?;
    let words = layout::words(accepted.image.header.frames);
    if mem.len() < words {
        return Err(Refusal::TooShort);
    }
    load(&accepted, mem, words);
    Ok(())
}
