// What may flow where: a line for each domain, from whom, with a character for each, to whom, 1 where it flows and 0 where not.
use crate::fields::Image;
use crate::verdict::{Flows, Stop};
use std::fmt::Write;
use text::Text;

// The whole view.
pub fn show(image: Image<'_>, out: &mut Text) -> Result<(), Stop> {
    let flows = Flows::new(image)?;
    writeln!(out, "accepted {}", image.domains)?;
    for row in flows.rows() {
        for flow in row.iter().take(flows.domains) {
            write!(out, "{}", u8::from(*flow))?;
        }
        writeln!(out)?;
    }
    Ok(())
}
