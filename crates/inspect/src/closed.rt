// The closed sets of domains: all of them, or where those are too many the smallest one around each domain.
use crate::domains::{DOMAINS, Set};
use crate::verdict::Flows;
use std::fmt;
use std::fmt::Write;
use text::Text;

// As many closed sets are listed, and no more.
const LISTED: usize = 32;

// The smallest closed set around each domain. It is empty for what is no domain of the image.
#[derive(Drop)]
struct Around {
    sets: [Set; DOMAINS],
}

impl Around {
    // Those of a table of flows: whoever flows to a domain is around it.
    fn new(flows: &Flows) -> Self {
        let mut sets = [Set::default(); DOMAINS];
        for (from, row) in flows.rows().enumerate() {
            for (set, flow) in sets.iter_mut().zip(row) {
                if *flow {
                    set.insert(from);
                }
            }
        }
        Around { sets }
    }

    // A set is closed: each domain in it has all in it that are around it, and is one of the image.
    fn closes(&self, set: Set) -> bool {
        self.sets
            .iter()
            .enumerate()
            .filter(|(domain, _)| set.has(*domain))
            .all(|(_, around)| !around.is_empty() && around.is_subset(set))
    }

    // The number of closed sets.
    fn count(&self) -> usize {
        (0..=u16::MAX)
            .map(Set)
            .filter(|set| self.closes(*set))
            .count()
    }

    // The lines of all closed sets.
    fn list(&self, out: &mut Text) -> fmt::Result {
        for set in (0..=u16::MAX).map(Set).filter(|set| self.closes(*set)) {
            writeln!(out, " {set}")?;
        }
        Ok(())
    }

    // The lines of the smallest closed set around each domain.
    fn smallest(&self, domains: usize, out: &mut Text) -> fmt::Result {
        for (domain, around) in self.sets.iter().take(domains).enumerate() {
            writeln!(out, "  around {domain}:{around}")?;
        }
        Ok(())
    }
}

// The closed sets of a table of flows.
pub fn show(flows: &Flows, out: &mut Text) -> fmt::Result {
    let around = Around::new(flows);
    let count = around.count();
    write!(out, "\nclosed sets: {count}")?;
    if count <= LISTED {
        writeln!(out)?;
        return around.list(out);
    }
    writeln!(out, ", too many to list; the smallest around each domain")?;
    around.smallest(flows.domains, out)
}
