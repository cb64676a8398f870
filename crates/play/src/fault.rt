// What may be wrong with what is played, and how it is said.
use rules::Refusal;
use std::fmt;

// What is wrong with the image or with a line.
#[derive(Clone, Copy, Debug, PartialEq, Eq)]
pub enum Fault {
    RefusedImage(Refusal),
    LongLine,
    NoOperation,
    NoNumber,
    ManyArguments,
}

impl fmt::Display for Fault {
    fn fmt<W: fmt::Write>(&self, f: &mut fmt::Formatter<W>) -> fmt::Result {
        match self {
            Fault::RefusedImage(refusal) => write!(f, "the image is refused with {refusal}"),
            Fault::LongLine => f.write_str("a line has at most 1024 bytes"),
            Fault::NoOperation => f.write_str("there is no such operation"),
            Fault::NoNumber => f.write_str("a number from 0 to 4294967295 is wanted here"),
            Fault::ManyArguments => f.write_str("an operation has at most seven arguments"),
        }
    }
}

// What is wrong, and where.
pub type Complaint<'a> = words::Complaint<'a, Fault>;
