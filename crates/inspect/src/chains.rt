// Why there is a flow: for each yes of the table that is not from a domain to itself, the shortest chain of direct flows, each with what
// carries it.
use crate::direct::{Carrier, Carriers};
use crate::domains::{DOMAINS, Table};
use crate::verdict::Flows;
use std::fmt;
use std::fmt::Write;
use text::Text;

// As many steps stand on a line.
const STEPS: u8 = 3;

// The direct flows, and the steps of the shortest chain from the row's domain to the column's, if there is a chain.
#[derive(Drop)]
struct Chains<'a> {
    carriers: &'a Carriers,
    steps: Table<Option<u8>>,
}

impl<'a> Chains<'a> {
    // The chains of direct flows: each by way of each domain, one after the other. Three cells are read at once, so no row is walked.
    fn new(carriers: &'a Carriers) -> Self {
        let mut chains = Chains {
            carriers,
            steps: Table::new(None),
        };
        chains.begin();
        for way in 0..DOMAINS {
            for from in 0..DOMAINS {
                for to in 0..DOMAINS {
                    chains.shorten(from, way, to);
                }
            }
        }
        chains
    }

    // No step from a domain to itself, one step where there is a direct flow.
    fn begin(&mut self) {
        for (from, row) in self.carriers.rows().enumerate() {
            for (to, carrier) in row.iter().enumerate() {
                let steps = if from == to {
                    Some(0)
                } else {
                    carrier.map(|_| 1)
                };
                self.steps.set(from, to, steps);
            }
        }
    }

    // The steps from one domain to another, if there is a chain.
    fn steps(&self, from: usize, to: usize) -> Option<u8> {
        self.steps.get(from, to)?
    }

    // The steps by way of a third, if there is such a chain.
    fn steps_by(&self, from: usize, way: usize, to: usize) -> Option<u8> {
        self.steps(from, way)?.checked_add(self.steps(way, to)?)
    }

    // Goes by way of a third domain, where that is shorter.
    fn shorten(&mut self, from: usize, way: usize, to: usize) {
        if let Some(by) = self.steps_by(from, way, to)
            && self.steps(from, to).is_none_or(|steps| by < steps)
        {
            self.steps.set(from, to, Some(by));
        }
    }

    // The first step of a shortest chain: to where, and what carries it.
    fn step(&self, from: usize, to: usize) -> Option<(usize, Carrier)> {
        let left = self.steps(from, to)?;
        (0..DOMAINS)
            .filter(|way| self.steps(*way, to).is_some_and(|steps| steps < left))
            .find_map(|way| Some((way, self.carriers.get(from, way)?)))
    }

    // The steps of a shortest chain, each as `2 -> 3 by mailbox 3`. Counted, they end.
    fn chain(&self, from: usize, to: usize, out: &mut Text) -> fmt::Result {
        let mut at = from;
        for i in 0..self.steps(from, to).unwrap_or(0) {
            if let Some((next, carrier)) = self.step(at, to) {
                write!(out, "{}{at} -> {next} by {carrier}", between(i))?;
                at = next;
            }
        }
        Ok(())
    }
}

// What stands before step number i of a chain.
fn between(i: u8) -> &'static str {
    if i == 0 {
        ""
    } else if i % STEPS == 0 {
        ",\n          "
    } else {
        ", "
    }
}

// The reasons of a table of flows.
pub fn show(flows: &Flows, carriers: &Carriers, out: &mut Text) -> fmt::Result {
    let chains = Chains::new(carriers);
    writeln!(out, "\nreasons, by direct flows")?;
    for (from, row) in flows.rows().enumerate() {
        for (to, flow) in row.iter().enumerate() {
            if *flow && from != to {
                write!(out, "{from:>2} to {to:>2}: ")?;
                chains.chain(from, to, out)?;
                writeln!(out)?;
            }
        }
    }
    Ok(())
}
