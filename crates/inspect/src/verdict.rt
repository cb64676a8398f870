// What the proved functions of `flow` answer about an image: only here are they asked.
use crate::domains::{DOMAINS, Table};
use crate::fields::Image;
use rules::{ENTRIES_MOST, Refusal};
use std::fmt;
use std::iter::Take;
use std::slice::Iter;

// Why a view ends before its end: the bytes are no image, or the text could not be written.
#[derive(Clone, Copy, Debug)]
pub enum Stop {
    Refused(Refusal),
    Unwritten,
}

impl From<Refusal> for Stop {
    fn from(refusal: Refusal) -> Self {
        Stop::Refused(refusal)
    }
}

impl From<fmt::Error> for Stop {
    fn from(_error: fmt::Error) -> Self {
        Stop::Unwritten
    }
}

// What may flow where: from the row's domain to the column's. The image's domains take the first rows and columns.
#[derive(Drop)]
pub struct Flows {
    table: Table<bool>,
    pub domains: usize,
}

impl Flows {
    // What may flow where in an image. `flow` answers with 1 and 0, in rows of the image's domains.
    pub fn new(image: Image<'_>) -> Result<Self, Refusal> {
        let mut answers = [0; DOMAINS * DOMAINS];
        flow::flow(image.bytes, &mut answers)?;
        let domains = usize::from(image.domains);
        let mut table = Table::new(false);
        for (from, row) in answers
            .chunks_exact(domains.max(1))
            .take(domains)
            .enumerate()
        {
            for (to, answer) in row.iter().enumerate() {
                table.set(from, to, *answer == 1);
            }
        }
        Ok(Flows { table, domains })
    }

    // The rows of the image's domains.
    pub fn rows(&self) -> Take<Iter<'_, [bool; DOMAINS]>> {
        self.table.rows().take(self.domains)
    }
}

// The most answers that there are: for all domains and entries.
pub const ANSWERS: usize = DOMAINS * ENTRIES_MOST as usize;

// What each domain could hold: for each domain a row, for each entry 1 where the domain could hold what it gives. The answers stand where the
// caller lends the space: handed up in a result they would stand in memory more than once.
#[derive(Clone, Copy)]
pub struct Held<'a> {
    answers: &'a [u8],
    entries: usize,
}

impl<'a> Held<'a> {
    // What each domain of an image could hold. `flow` answers with 1 and 0, in rows of the image's entries.
    pub fn new(image: Image<'_>, space: &'a mut [u8; ANSWERS]) -> Result<Self, Refusal> {
        flow::could_hold(image.bytes, space)?;
        Ok(Held {
            answers: space,
            entries: usize::from(image.entries),
        })
    }

    // A domain's row.
    pub fn row(&self, domain: usize) -> &'a [u8] {
        let mut rows = self.answers.chunks_exact(self.entries.max(1));
        rows.nth(domain).unwrap_or(&[])
    }
}
