// What the written rules (specs/) and the kernel's code share: the plain data of documents 01 and 03; the refusals by name; and the sizes
// of specs/Sizes, each named here once for the code. In the data numbers stand for everything, as the words of memory and of an answer do,
// and 0 for nothing: kind 0 is an empty place, source 0 is no source, and source p + 1 is place p.
#![tactic(auto)]

ghost use Rattle.std.specs.Prelude.{◌≡◌};
ghost use Rattle.rules.specs.State.{within};
ghost use Rattle.rules.specs.Turn.{words};
ghost use Rattle.rules.specs.Kind.{kind_number, Known};
ghost use Rattle.rules.specs.Refusal.{number_of, status_of, number_in};

use std::fmt;

// Domains are 0 to 15 at most.
pub const DOMAINS_MOST: u32 = 16;

// The slots of a domain, and of all domains: where the mailboxes' rooms begin. As a slot argument of SEND and RECEIVE the first means no slot.
pub const SLOTS: u32 = 64;

pub const ALL_SLOTS: u32 = DOMAINS_MOST * SLOTS;

pub const MAILBOXES: u32 = 64;

pub const BELLS: u32 = 64;

// The slots of all domains and the mailboxes' rooms.
pub const PLACES: u32 = ALL_SLOTS + MAILBOXES;

pub const FRAMES_MOST: u32 = 256;

pub const FRAME_WORDS: u32 = 256;

// The turns in the table, at most.
pub const TURNS_MOST: u32 = 64;

pub const BADGE_MOST: u32 = 65535;

// The entries of an image, at most.
pub const ENTRIES_MOST: u32 = 1024;

// The rights.
pub const READ: u32 = 1;

pub const WRITE: u32 = 2;

pub const GRANT: u32 = 4;

// What a place holds.
#[derive(Clone, Copy)]
pub struct Capability {
    pub kind: u32,
    pub rights: u32,
    pub object: u32,
    pub badge: u32,
    pub source: u32,
}

impl Capability {
    // What an empty place holds.
    pub const NOTHING: Capability = Capability {
        kind: 0,
        rights: 0,
        object: 0,
        badge: 0,
        source: 0,
    };
}

// What a mailbox holds, but for a capability under way, which stands in the mailbox's room, a place. full is 0 or 1.
#[derive(Clone, Copy)]
pub struct Message {
    pub full: u32,
    pub badge: u32,
    pub w0: u32,
    pub w1: u32,
    pub w2: u32,
    pub w3: u32,
}

impl Message {
    // What an empty mailbox holds.
    pub const NONE: Message = Message {
        full: 0,
        badge: 0,
        w0: 0,
        w1: 0,
        w2: 0,
        w3: 0,
    };
}

// An operation: its number and seven argument words, by their names as an answer's.
#[derive(Clone, Copy)]
pub struct Operation {
    pub number: u32,
    pub first: u32,
    pub second: u32,
    pub third: u32,
    pub fourth: u32,
    pub fifth: u32,
    pub sixth: u32,
    pub seventh: u32,
}

// A status, 0 or a refusal number, and six words, each by its name: so the theorems and the header for C speak of them.
#[derive(Clone, Copy)]
pub struct Answer {
    pub status: u32,
    pub w0: u32,
    pub w1: u32,
    pub w2: u32,
    pub w3: u32,
    pub w4: u32,
    pub w5: u32,
}

impl Answer {
    // Status 0 and these words.
    pub fn of(w0: u32, w1: u32, w2: u32, w3: u32, w4: u32, w5: u32) -> Answer
        ensures { result ≡ words w0 w1 w2 w3 w4 w5 }
    {
        Answer {
            status: 0,
            w0,
            w1,
            w2,
            w3,
            w4,
            w5,
        }
    }
}

// What an operation does to the state. It holds nothing that its domain may not see.
#[derive(Clone, Copy)]
pub enum Effect {
    Nothing,
    // STORE: the frame, the word's number, its value.
    Store(u32, u32, u32),
    // RING: the bell, the badge.
    Ring(u32, u32),
    // HEAR: the bell.
    Hush(u32),
    // DERIVE: the place, its capability.
    Put(u32, Capability),
    // DELETE: the place.
    Drop(u32),
    // REVOKE: the place.
    Prune(u32),
    // SEND: the mailbox, its message, the capability under way, of kind 0 where there is none.
    Post(u32, Message, Capability),
    // RECEIVE: the mailbox. A capability under way is dropped.
    Take(u32),
    // RECEIVE: the mailbox, and the place to which the capability under way moves.
    Move(u32, u32),
}

// What the checks of an operation come to.
#[derive(Clone, Copy)]
pub struct Decision {
    pub effect: Effect,
    pub answer: Answer,
}

// What a capability is for.
#[derive(Clone, Copy, Debug, PartialEq, Eq)]
pub enum Kind {
    Frame = 1,
    Mailbox = 2,
    Bell = 3,
}

impl Kind {
    // Its number, as it stands in a capability.
    pub fn number(self) -> u32
        ensures { result ≡ kind_number self }
    {
        self as u32
    }
}

impl fmt::Display for Kind {
    fn fmt<W: fmt::Write>(&self, f: &mut fmt::Formatter<W>) -> fmt::Result {
        f.write_str(match self {
            Kind::Frame => "frame",
            Kind::Mailbox => "mailbox",
            Kind::Bell => "bell",
        })
    }
}

// A number that no kind has.
#[derive(Clone, Copy, Debug, PartialEq, Eq)]
pub struct UnknownKind(pub u32);

impl TryFrom<u32> for Kind {
    type Error = UnknownKind;

    ghost try_from_gives = { Known };

    fn try_from(number: u32) -> Result<Self, UnknownKind> {
        match number {
            1 => Ok(Kind::Frame),
            2 => Ok(Kind::Mailbox),
            3 => Ok(Kind::Bell),
            _ => Err(UnknownKind(number)),
        }
    }
}

// The rights of a capability: a sum of READ, WRITE and GRANT.
#[derive(Clone, Copy, Debug, PartialEq, Eq)]
pub struct Rights(pub u32);

impl Rights {
    // Each right alone.
    pub const READ: Rights = Rights(READ);

    pub const WRITE: Rights = Rights(WRITE);

    pub const GRANT: Rights = Rights(GRANT);

    // All those are among these.
    pub fn have(self, others: Rights) -> bool
        ensures { result ≡ within others.0 self.0 }
    {
        others.0 & self.0 == others.0
    }

    // The letter of a right that is among these, else a dash.
    fn letter(self, right: Rights, letter: char) -> char {
        if self.have(right) { letter } else { '-' }
    }
}

// Rights are shown as `rwg`, with a dash for each that is not among them.
impl fmt::Display for Rights {
    fn fmt<W: fmt::Write>(&self, f: &mut fmt::Formatter<W>) -> fmt::Result {
        f.write_char(self.letter(Rights::READ, 'r'))?;
        f.write_char(self.letter(Rights::WRITE, 'w'))?;
        f.write_char(self.letter(Rights::GRANT, 'g'))
    }
}

// Why an operation, an image or a memory is refused, by the documents' numbers.
#[derive(Clone, Copy, Debug, PartialEq, Eq)]
pub enum Refusal {
    NoOperation = 1,
    NoSlot = 2,
    EmptySlot = 3,
    WrongKind = 4,
    NoRight = 5,
    OutOfRange = 6,
    TakenSlot = 7,
    MailboxFull = 8,
    MailboxEmpty = 9,
    ImageShort = 20,
    ImageSizes = 21,
    ImageLength = 22,
    ImageTurns = 23,
    ImageEntry = 24,
    ImageOrder = 25,
    ImageSource = 26,
    Unwritable = 27,
    BufferShort = 28,
    TooShort = 29,
}

impl Refusal {
    // Its number.
    pub fn number(self) -> u32
        ensures { result ≡ number_of self }
    {
        self as u32
    }
}

// A refusal is shown by its number.
impl fmt::Display for Refusal {
    fn fmt<W: fmt::Write>(&self, f: &mut fmt::Formatter<W>) -> fmt::Result {
        write!(f, "{}", self.number())
    }
}

// The number that was answered, or the refusal's.
pub fn number(answer: Result<u32, Refusal>) -> u32
    ensures { result ≡ number_in answer }
{
    match answer {
        Ok(number) => number,
        Err(refusal) => refusal.number(),
    }
}

// 0 where something was done, else the refusal's number.
pub fn status<T: Copy>(answer: Result<T, Refusal>) -> u32
    ensures { result ≡ status_of answer }
{
    match answer {
        Ok(_) => 0,
        Err(refusal) => refusal.number(),
    }
}
