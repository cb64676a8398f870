// Sets of domains, and tables that have a cell for each domain and each.
use std::fmt;
use std::ops::BitOr;
use std::slice::Iter;

// The domains that there may be.
pub const DOMAINS: usize = rules::DOMAINS_MOST as usize;

// A set of domains, a bit for each.
#[derive(Clone, Copy, Debug, Default, PartialEq, Eq)]
pub struct Set(pub u16);

impl Set {
    // A domain is in it.
    pub fn has(self, domain: usize) -> bool {
        domain < DOMAINS && (self.0 >> domain) & 1 == 1
    }

    // Puts a domain in.
    pub fn insert(&mut self, domain: usize) {
        if domain < DOMAINS {
            self.0 |= 1 << domain;
        }
    }

    // All of it is in another.
    pub fn is_subset(self, other: Set) -> bool {
        self.0 & other.0 == self.0
    }

    // No domain is in it.
    pub fn is_empty(self) -> bool {
        self.0 == 0
    }
}

impl BitOr for Set {
    type Output = Set;

    fn bitor(self, other: Set) -> Set {
        Set(self.0 | other.0)
    }
}

impl fmt::Display for Set {
    fn fmt<W: fmt::Write>(&self, f: &mut fmt::Formatter<W>) -> fmt::Result {
        if self.is_empty() {
            return f.write_str(" none");
        }
        for domain in (0..DOMAINS).filter(|d| self.has(*d)) {
            write!(f, " {domain}")?;
        }
        Ok(())
    }
}

// A table with a row for each domain, of a cell for each domain.
#[derive(Drop)]
pub struct Table<T> {
    rows: [[T; DOMAINS]; DOMAINS],
}

impl<T: Copy> Table<T> {
    // The same in each cell.
    pub fn new(cell: T) -> Self {
        Table {
            rows: [[cell; DOMAINS]; DOMAINS],
        }
    }

    // The rows.
    pub fn rows(&self) -> Iter<'_, [T; DOMAINS]> {
        self.rows.iter()
    }

    // The cell of the row's domain and the column's, if both are domains.
    pub fn get(&self, row: usize, column: usize) -> Option<T> {
        self.rows.get(row)?.get(column).copied()
    }

    // Puts something into that cell. As slices the arrays are proved for things of any type.
    pub fn set(&mut self, row: usize, column: usize, cell: T) {
        if let Some(row) = self.rows.as_mut_slice().get_mut(row) {
            if let Some(place) = row.as_mut_slice().get_mut(column) {
                *place = cell;
            }
        }
    }
}
