// All of an image in words: its sizes, its turns, what each domain has, what may flow where, the closed sets, and the reason for each flow.
// No line has more than 100 columns.
use crate::direct::Carriers;
use crate::fields::Image;
use crate::verdict::{Flows, Stop};
use crate::{chains, closed, slots, table};
use image::HEADER;
use std::fmt;
use std::fmt::Write;
use text::Text;

// As many turns stand on a line.
const TURNS: usize = 16;

// The sizes.
fn sizes(image: Image<'_>, out: &mut Text) -> fmt::Result {
    write!(
        out,
        "bytes {}, domains {}, ",
        image.bytes.len(),
        image.domains
    )?;
    writeln!(
        out,
        "turns {}, capabilities {}, frames {}",
        image.turns, image.entries, image.frames
    )
}

// The turns.
fn turns(image: Image<'_>, out: &mut Text) -> fmt::Result {
    write!(out, "\nturns")?;
    let turns = image.bytes.get(HEADER..image.turns_end()).unwrap_or(&[]);
    for line in turns.chunks(TURNS) {
        write!(out, "\n ")?;
        for turn in line {
            write!(out, " {turn}")?;
        }
    }
    writeln!(out)
}

// The whole view.
pub fn show(image: Image<'_>, out: &mut Text) -> Result<(), Stop> {
    let flows = Flows::new(image)?;
    let mut carriers = Carriers::new();
    carriers.find(image)?;
    writeln!(out, "accepted {}", image.domains)?;
    sizes(image, out)?;
    turns(image, out)?;
    slots::show(image, out)?;
    table::show(&flows, out)?;
    closed::show(&flows, out)?;
    chains::show(&flows, &carriers, out)?;
    Ok(())
}
