// The boot image, document 01, section 5: the first refusal that applies to any bytes, and an image's header and entries. It only reads, and
// its cost is linear in the number of entries. Numbers of two bytes have the high byte first. Refusals 20 to 25 are tested in their order,
// each by a function of its own, which may rely on the tests before it. Refusal 26 comes last: an index from places to entries finds the
// entry that defines a source at once, and marks at places find a chain of sources that comes back, each place being passed once.
#![tactic(auto)]

ghost use Rattle.std.specs.Prelude.{◌≡◌, ◌+◌, ◌*◌, ◌/◌, ◌≤◌, ◌<◌, length, ltb, IfOk};
ghost use Rattle.std.specs.List.{list_all};
ghost use Rattle.rules.specs.Sizes.{all_slots};
ghost use Rattle.rules.specs.State.{objects as objects_of};
ghost use Rattle.rules.specs.Kind.{kind_number};
ghost use Rattle.rules.specs.Refusal.{status_of};
ghost use Rattle.rules.specs.Image.{byte as byte_at, two as two_at, header_bytes, entry_bytes, size_d, size_t, size_c, size_f, header_last, entries_at, entry_at, place_of, source_of, capability_given, all, right_sizes, right_length, right_turns, right_entry, table_of, rising, fitting, right_source, refusal_of_form, refusal_of};
ghost use Rattle.image.specs.Said.{said, Fetched, Headed, Whole};
ghost use Rattle.image.specs.Sources.{entries_of, given_by, Formed, unnumbered, Indexed, Linked, Marked, Climbed, NoReturn, tied, each_entry};

use rules::{
    BELLS, Capability, DOMAINS_MOST, ENTRIES_MOST, FRAMES_MOST, GRANT, Kind, MAILBOXES, READ,
    Refusal, SLOTS, TURNS_MOST, WRITE,
};

// The bytes of the header and of an entry.
pub const HEADER: usize = 8;

pub const ENTRY: usize = 12;

// The bytes of the longest image.
pub const IMAGE_MOST: usize = HEADER + TURNS_MOST as usize + ENTRY * ENTRIES_MOST as usize;

// The slots of all domains.
const ALL_SLOTS: usize = rules::ALL_SLOTS as usize;

// The source's domain where there is no source.
pub const NO_DOMAIN: u32 = 255;

// The number of byte i.
fn byte(image: &[u8], i: usize) -> u32
    requires { i < length image.now }
    ensures { (result ≡ byte_at image.now i) × (result < 256) }
{
    u32::from(image[i])
}

// The number of the two bytes at i, high byte first.
fn two(image: &[u8], i: usize) -> u32
    requires { i + 1 < length image.now }
    ensures { (result ≡ two_at image.now i) × (result < 65536) }
{
    byte(image, i) * 256 + byte(image, i + 1)
}

// What the header says: D, T, C and F.
#[derive(Clone, Copy, Debug, PartialEq, Eq)]
pub struct Header {
    pub domains: u32,
    pub turns: u32,
    pub entries: u32,
    pub frames: u32,
}

impl Header {
    // The header of bytes that are long enough for one.
    pub fn of(image: &[u8]) -> Header
        requires { header_bytes ≤ length image.now }
        ensures { Headed image.now result }
    {
        Header {
            domains: byte(image, 0),
            turns: byte(image, 1),
            entries: two(image, 2),
            frames: two(image, 4),
        }
    }

    // Where the entries begin.
    pub fn entries_at(self) -> usize
        requires { self.turns < 256 }
        ensures { (result ≡ entries_at self.turns) × (result ≡ header_bytes + (self.turns + 3) / 4 * 4) }
    {
        HEADER + (self.turns as usize + 3) / 4 * 4
    }
}

// Refusal 21: D is 1 to 16, T 1 to 64, C 0 to 1,024, F 1 to 256, and bytes 6 and 7 are 0.
fn sizes_right(image: &[u8], header: Header) -> bool
    requires long_enough { header_bytes ≤ length image.now }
    requires headed { Headed image.now header }
    ensures { result ≡ right_sizes image.now }
{
    ((1 <= header.domains) & (header.domains <= DOMAINS_MOST))
        & ((1 <= header.turns) & (header.turns <= TURNS_MOST))
        & (header.entries <= ENTRIES_MOST)
        & ((1 <= header.frames) & (header.frames <= FRAMES_MOST))
        & (two(image, 6) == 0)
}

// Refusal 22: the length is exactly what T and C give.
fn length_right(image: &[u8], header: Header) -> bool
    requires { Headed image.now header }
    ensures { result ≡ right_length image.now }
{
    image.len() == header.entries_at() + ENTRY * header.entries as usize
}

// Each byte is below limit.
fn below(bytes: &[u8], limit: u32) -> bool
    ensures { result ≡ list_all (λ x. ltb x limit) bytes.now }
{
    bytes.iter().all(|b| u32::from(*b) < limit)
}

// The fields of an entry, as numbers: any bytes may stand there.
#[derive(Clone, Copy, Debug, PartialEq, Eq)]
pub struct Fields {
    pub domain: u32,
    pub slot: u32,
    pub kind: u32,
    pub rights: u32,
    pub object: u32,
    pub badge: u32,
    pub source_domain: u32,
    pub source_slot: u32,
    pub last: u32,
}

impl Fields {
    // The place that it is for.
    pub fn place(self) -> u32
        requires { (self.domain < 256) × (self.slot < 256) }
        ensures { result ≡ place_of (said self) }
    {
        self.domain * SLOTS + self.slot
    }

    // Its source number: 0 for none, else the source's place + 1.
    pub fn source(self) -> u32
        requires { (self.source_domain < 256) × (self.source_slot < 256) }
        ensures { (result ≡ source_of (said self)) × (result ≤ 16576) }
    {
        if self.source_domain == NO_DOMAIN && self.source_slot == 0 {
            return 0;
        }
        self.source_domain * SLOTS + self.source_slot + 1
    }

    // Its capability.
    pub fn capability(self) -> Capability
        requires { (self.source_domain < 256) × (self.source_slot < 256) }
        ensures { (result ≡ capability_given (said self)) × (result.source ≤ 16576) }
    {
        Capability {
            kind: self.kind,
            rights: self.rights,
            object: self.object,
            badge: self.badge,
            source: self.source(),
        }
    }
}

// The entry whose first byte is byte at.
pub fn entry(image: &[u8], at: usize) -> Fields
    requires { at + 12 ≤ length image.now }
    ensures { Fetched image.now at result }
{
    Fields {
        domain: byte(image, at),
        slot: byte(image, at + 1),
        kind: byte(image, at + 2),
        rights: byte(image, at + 3),
        object: two(image, at + 4),
        badge: two(image, at + 6),
        source_domain: byte(image, at + 8),
        source_slot: byte(image, at + 9),
        last: two(image, at + 10),
    }
}

// The objects that there are of a kind, in an image with so many frames.
fn objects(frames: u32, kind: Kind) -> u32
    ensures { result ≡ objects_of frames (kind_number kind) }
{
    match kind {
        Kind::Frame => frames,
        Kind::Mailbox => MAILBOXES,
        Kind::Bell => BELLS,
    }
}

// Refusal 24 for one entry, in an image with so many domains and frames.
pub fn entry_right(e: Fields, domains: u32, frames: u32) -> bool
    ensures { result ≡ right_entry domains frames (said e) }
{
    let Ok(kind) = Kind::try_from(e.kind) else {
        return false;
    };
    (e.domain < domains)
        & (e.slot < SLOTS)
        & (e.rights <= READ + WRITE + GRANT)
        & ((GRANT & e.rights != GRANT) | (kind == Kind::Mailbox))
        & (e.object < objects(frames, kind))
        & (e.last == 0)
}

// Bytes whose length is what their header says: each entry lies in them.
#[derive(Clone, Copy)]
pub struct Image<'a> {
    pub bytes: &'a [u8],
    pub header: Header,
    pub ghost domains_is: { header.domains ≡ size_d bytes.now },
    pub ghost turns_is: { header.turns ≡ size_t bytes.now },
    pub ghost entries_is: { header.entries ≡ size_c bytes.now },
    pub ghost frames_is: { header.frames ≡ size_f bytes.now },
    pub ghost turns_in_byte: { header.turns < 256 },
    pub ghost entries_in_bytes: { header.entries < 65536 },
    pub ghost whole: { length bytes.now ≡ header_bytes + (header.turns + 3) / 4 * 4 + entry_bytes * header.entries },
}

impl<'a> Image<'a> {
    // The image in bytes whose length is right.
    pub fn of(bytes: &'a [u8]) -> Image<'a>
        requires { Whole bytes.now }
        ensures { result.bytes.now ≡ bytes.now }
    {
        Image {
            bytes,
            header: Header::of(bytes),
        }
    }

    // The table of turns.
    pub fn turns(&self) -> &[u8]
        ensures { result.now ≡ table_of self.now.bytes.now }
    {
        &self.bytes[HEADER..HEADER + self.header.turns as usize]
    }

    // Entry number i, counted from 0.
    pub fn entry(&self, i: u32) -> Fields
        requires { i < self.now.header.entries }
        ensures { Fetched self.now.bytes.now (entries_at (size_t self.now.bytes.now) + entry_bytes * i) result }
    {
        entry(self.bytes, self.header.entries_at() + ENTRY * i as usize)
    }

    // The place of entry i.
    fn place(&self, i: u32) -> usize
        requires formed { Formed self.now.bytes.now }
        requires i_in_range { i < self.now.header.entries }
        ensures { (result ≡ place_of (entry_at self.now.bytes.now (entries_at (size_t self.now.bytes.now) + entry_bytes * i))) × (result < all_slots) }
    {
        self.entry(i).place() as usize
    }

    // Refusal 23: each turn names a domain of the image, and the padding is 0.
    fn turns_right(&self) -> bool
        ensures { result ≡ right_turns self.now.bytes.now }
    {
        let padding = &self.bytes[HEADER + self.header.turns as usize..self.header.entries_at()];
        below(self.turns(), self.header.domains) & below(padding, 1)
    }

    // Refusal 24: every entry is right.
    fn entries_right(&self) -> bool
        ensures { result ≡ each_entry (right_entry self.now.header.domains self.now.header.frames) self.now.bytes.now self.now.header.entries }
    {
        (0..self.header.entries).all(|i| entry_right(
            self.entry(i),
            self.header.domains,
            self.header.frames,
        ))
    }

    // Refusal 25: strictly rising order of domain, then slot. next is the least place that may come next.
    fn rises(&self) -> bool
        ensures { result ≡ rising (entries_of self.now.bytes.now) }
    {
        let mut next = 0;
        for i in 0..self.header.entries {
            let place = self.entry(i).place();
            if place < next {
                return false;
            }
            next = place + 1;
        }
        true
    }
}

// The image in bytes to which no refusal below 26 applies, or the first that does.
fn formed(image: &[u8]) -> Result<Image<'_>, Refusal>
    ensures refusal { status_of result ≡ refusal_of_form image.now }
    ensures same { IfOk result (λ i. i.bytes.now ≡ image.now) }
{
    if image.len() < HEADER {
        return Err(Refusal::ImageShort);
    }
    let header = Header::of(image);
    if !sizes_right(image, header) {
        return Err(Refusal::ImageSizes);
    }
    if !length_right(image, header) {
        return Err(Refusal::ImageLength);
    }
    let image = Image::of(image);
    if !image.turns_right() {
        return Err(Refusal::ImageTurns);
    }
    if !image.entries_right() {
        return Err(Refusal::ImageEntry);
    }
    if !image.rises() {
        return Err(Refusal::ImageOrder);
    }
    Ok(image)
}

// The first refusal below 26 that applies.
pub fn accept_form(image: &[u8]) -> Result<(), Refusal>
    ensures { status_of result ≡ refusal_of_form image.now }
{
    formed(image)?;
    Ok(())
}

// A capability against its source: the same kind and object, no right that the source lacks, the source's badge if that isn't 0.
fn fits(c: Capability, p: Capability) -> bool
    ensures { result ≡ fitting c p }
{
    (c.kind == p.kind)
        & (c.object == p.object)
        & (c.rights & p.rights == c.rights)
        & ((p.badge == 0) | (c.badge == p.badge))
}

// An image to which no refusal below 26 applies, and for each place the number of the entry for it, if there is one. The caller lends what the
// numbers stand in, so that they stand in memory once.
#[derive(Drop)]
struct Index<'a> {
    image: Image<'a>,
    numbers: &'a [Option<u16>; ALL_SLOTS],
    ghost formed: { Formed image.bytes.now },
    ghost indexed: { Indexed image.bytes.now numbers.now },
}

impl<'a> Index<'a> {
    // The index is filled from the last entry to the first.
    fn of(image: Image<'a>, numbers: &'a mut [Option<u16>; ALL_SLOTS]) -> Index<'a>
        requires formed { Formed image.bytes.now }
        requires none { numbers.old ≡ unnumbered }
        ensures { result.image.bytes.now ≡ image.entry.bytes.now }
    {
        for i in (0..image.header.entries).rev() {
            numbers[image.place(i)] = Some(i as u16);
        }
        Index { image, numbers }
    }

    // What the entries give at place p.
    fn given_at(&self, p: usize) -> Capability
        ensures { result ≡ given_by self.now.image.bytes.now p }
    {
        if p < ALL_SLOTS {
            if let Some(i) = self.numbers[p] {
                return self.image.entry(u32::from(i)).capability();
            }
        }
        Capability::NOTHING
    }

    // Refusal 26 for one entry, but for where following sources leads: it has no source, or one that an entry defines and that it fits.
    fn source_tied(&self, e: Fields) -> bool
        requires { (e.source_domain < 256) × (e.source_slot < 256) }
        ensures { result ≡ tied (entries_of self.now.image.bytes.now) (said e) }
    {
        let c = e.capability();
        if c.source == 0 {
            return true;
        }
        if SLOTS <= e.source_slot {
            return false;
        }
        let p = self.given_at(c.source as usize - 1);
        (p.kind != 0) & fits(c, p)
    }

    // The same for every entry.
    fn sources_tied(&self) -> bool
        ensures { result ≡ each_entry (tied (entries_of self.now.image.bytes.now)) self.now.image.bytes.now self.now.image.header.entries }
    {
        (0..self.image.header.entries).all(|i| self.source_tied(self.image.entry(i)))
    }

    // Follows sources from a place and leaves a mark at each place that it comes to, up to one without a source or with a mark. False where
    // that mark is its own: following sources comes back. Mark 0 is none, so that each mark is below the next climb's.
    fn climb(&self, marks: &mut [u16; ALL_SLOTS], from: usize, mark: u16) -> bool
        requires linked { Linked self.now.image.bytes.now self.now.numbers.now }
        requires marked { Marked (given_by self.now.image.bytes.now) mark marks.old }
        requires from_in_range { from < all_slots }
        ensures { Climbed (given_by self.now.image.bytes.now) from mark result marks.old marks.new }
    {
        let mut p = from;
        while marks[p] == 0 {
            marks[p] = mark;
            let source = self.given_at(p).source;
            if source == 0 {
                return true;
            }
            p = source as usize - 1;
        }
        marks[p] != mark
    }

    // Following sources never comes back to where it began: a climb from the place of each entry, each with a mark of its own.
    fn ends(&self) -> bool
        requires { Linked self.now.image.bytes.now self.now.numbers.now }
        ensures { NoReturn (given_by self.now.image.bytes.now) result }
    {
        let mut marks = [0u16; ALL_SLOTS];
        for i in 0..self.image.header.entries {
            if !self.climb(&mut marks, self.image.place(i), (i + 1) as u16) {
                return false;
            }
        }
        true
    }

    // Refusal 26: every source is right.
    fn sources_right(&self) -> bool
        ensures { result ≡ all (right_source (entries_of self.now.image.bytes.now)) (entries_of self.now.image.bytes.now) }
    {
        if !self.sources_tied() {
            return false;
        }
        self.ends()
    }
}

// An image to which no refusal applies.
#[derive(Clone, Copy)]
pub struct Accepted<'a> {
    pub image: Image<'a>,
    pub ghost not_refused: { refusal_of image.bytes.now ≡ 0 },
}

impl<'a> Accepted<'a> {
    // The image in bytes, or the first refusal that applies to them.
    pub fn of(bytes: &'a [u8]) -> Result<Accepted<'a>, Refusal>
        ensures refusal { status_of result ≡ refusal_of bytes.now }
        ensures same { IfOk result (λ a. a.image.bytes.now ≡ bytes.now) }
    {
        let image = formed(bytes)?;
        let mut numbers = [None; ALL_SLOTS];
        if !Index::of(image, &mut numbers).sources_right() {
            return Err(Refusal::ImageSource);
        }
        Ok(Accepted { image })
    }
}

// The first refusal that applies.
pub fn accept(image: &[u8]) -> Result<(), Refusal>
    ensures { status_of result ≡ refusal_of image.now }
{
    Accepted::of(image)?;
    Ok(())
}
