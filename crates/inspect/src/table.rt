// What may flow where, as a table of the image's domains.
use crate::verdict::Flows;
use std::fmt;
use std::fmt::Write;
use text::Text;

// The numbers above the columns.
fn heading(domains: usize, out: &mut Text) -> fmt::Result {
    write!(out, "    ")?;
    for domain in 0..domains {
        write!(out, "{domain:>4}")?;
    }
    writeln!(out)
}

// The table.
pub fn show(flows: &Flows, out: &mut Text) -> fmt::Result {
    writeln!(out, "\nflow, from the row's domain to the column's")?;
    heading(flows.domains, out)?;
    for (domain, row) in flows.rows().enumerate() {
        write!(out, "{domain:>4}")?;
        for flow in row.iter().take(flows.domains) {
            write!(out, "{:>4}", if *flow { "yes" } else { "no" })?;
        }
        writeln!(out)?;
    }
    Ok(())
}
