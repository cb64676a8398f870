// What may be wrong with a text, and how it is said.
use rules::Refusal;
use std::fmt;

// What is wrong.
#[derive(Clone, Copy, Debug, PartialEq, Eq)]
pub enum Fault {
    LongText,
    RefusedImage(Refusal),
    MissingWord,
    ExtraWord,
    UnknownLine,
    NoNumber { low: u32, high: u32 },
    NoName,
    LongName,
    NoRights,
    GrantedElsewhere,
    SecondFrames,
    FramesBefore,
    SameDomain,
    ManyDomains,
    NoDomain,
    ManyTurns,
    SameObject,
    ManyObjects,
    NoObject,
    SameSlot,
    NoLineFrames,
    NoLineDomain,
    NoLineTurns,
    NoSource,
    OtherObject,
    MoreRights,
    OtherBadge,
    EndlessSource,
}

impl fmt::Display for Fault {
    fn fmt<W: fmt::Write>(&self, f: &mut fmt::Formatter<W>) -> fmt::Result {
        f.write_str(match self {
            Fault::RefusedImage(refusal) => {
                return write!(f, "the image is refused with {refusal}");
            }
            Fault::NoNumber { low, high } => {
                return write!(f, "a number from {low} to {high} is wanted here");
            }
            Fault::LongText => "the text is longer than 262144 bytes",
            Fault::MissingWord => "a word is missing on this line",
            Fault::ExtraWord => "this word is one too many",
            Fault::UnknownLine => "no line begins with this word",
            Fault::NoName => "a name is a letter, then letters, digits, - and _",
            Fault::LongName => "a name has at most 31 bytes",
            Fault::NoRights => "rights are letters of r, w and g, each once, or - for none",
            Fault::GrantedElsewhere => "only a mailbox is given with g",
            Fault::SecondFrames => "there is such a line already",
            Fault::FramesBefore => "the line frames has to come before this one",
            Fault::SameDomain => "there is such a domain already",
            Fault::ManyDomains => "there are 16 domains already",
            Fault::NoDomain => "there is no such domain",
            Fault::ManyTurns => "there are 64 turns already",
            Fault::SameObject => "there is such an object already",
            Fault::ManyObjects => "there are 1024 names of objects already",
            Fault::NoObject => "there is no such object",
            Fault::SameSlot => "this slot is given already",
            Fault::NoLineFrames => "there is no line frames",
            Fault::NoLineDomain => "there is no line domain",
            Fault::NoLineTurns => "there is no line turns",
            Fault::NoSource => "no line gives this source",
            Fault::OtherObject => "this source is for another object",
            Fault::MoreRights => "this source lacks a right that is given here",
            Fault::OtherBadge => "this source has another badge",
            Fault::EndlessSource => "following the sources comes back here",
        })
    }
}

// What is wrong, and where.
pub type Complaint<'a> = words::Complaint<'a, Fault>;
