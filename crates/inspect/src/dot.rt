// An image as a graph for Graphviz: a box for each domain and a circle for each object that an entry names; a line for each entry, with its
// rights, whose arrows go from a writer and to a reader; and a dashed arrow for each direct flow, with what carries it.
use crate::direct::Carriers;
use crate::fields::{Entry, Image};
use crate::verdict::Stop;
use rules::Rights;
use std::fmt;
use std::fmt::Write;
use text::Text;

// Where a line has arrows, by the rights.
fn arrows(rights: Rights) -> &'static str {
    match (rights.have(Rights::READ), rights.have(Rights::WRITE)) {
        (false, false) => "none",
        (true, false) => "back",
        (false, true) => "forward",
        (true, true) => "both",
    }
}

// The line of an entry.
fn line(entry: Entry, out: &mut Text) -> fmt::Result {
    let domain = entry.place.domain;
    let object = entry.object;
    let rights = entry.rights;
    let arrows = arrows(rights);
    writeln!(
        out,
        "  \"domain {domain}\" -> \"{object}\" [label=\"{rights}\", dir={arrows}];"
    )
}

// The arrows of all direct flows.
fn flows(carriers: &Carriers, out: &mut Text) -> fmt::Result {
    for (from, row) in carriers.rows().enumerate() {
        for (to, cell) in row.iter().enumerate() {
            if let Some(carrier) = cell {
                writeln!(
                    out,
                    "  \"domain {from}\" -> \"domain {to}\" [taillabel=\"{carrier}\"];"
                )?;
            }
        }
    }
    Ok(())
}

// The domains and objects.
fn graph(image: Image<'_>, out: &mut Text) -> fmt::Result {
    writeln!(out, "digraph image {{\n  rankdir=LR;")?;
    for domain in 0..image.domains {
        writeln!(out, "  \"domain {domain}\" [shape=box];")?;
    }
    for entry in image.entries() {
        line(entry, out)?;
    }
    writeln!(
        out,
        "  edge [style=dashed, constraint=false, fontsize=9, labelangle=40, labeldistance=3];"
    )
}

// The whole view.
pub fn show(image: Image<'_>, out: &mut Text) -> Result<(), Stop> {
    let mut carriers = Carriers::new();
    carriers.find(image)?;
    graph(image, out)?;
    flows(&carriers, out)?;
    writeln!(out, "}}")?;
    Ok(())
}
