// What each domain has in its slots: the image's entries, a line for each, by domain.
use crate::fields::{Entry, Image};
use std::fmt;
use std::fmt::Write;
use text::Text;

// The line of an entry.
fn line(entry: Entry, out: &mut Text) -> fmt::Result {
    write!(
        out,
        "  slot{:>3}: {} {}, badge {}",
        entry.place.slot, entry.rights, entry.object, entry.badge
    )?;
    if let Some(source) = entry.source {
        write!(out, ", from {source}")?;
    }
    writeln!(out)
}

// The lines of all domains.
pub fn show(image: Image<'_>, out: &mut Text) -> fmt::Result {
    writeln!(out, "\ncapabilities: r READ, w WRITE, g GRANT")?;
    for domain in 0..usize::from(image.domains) {
        writeln!(out, "domain {domain}")?;
        for entry in image.entries().filter(|e| e.place.domain == domain) {
            line(entry, out)?;
        }
    }
    Ok(())
}
