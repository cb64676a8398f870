// What each domain could hold: a line `domain kind object rights` for each triple, sorted, each once. `flow` answers by entries, of which
// several may have one triple, so a domain's triples are marked, and the marks are walked in the order of the lines.
use crate::fields::{Entry, Image};
use crate::objects::{KINDS, Objects};
use crate::verdict::{ANSWERS, Held, Stop};
use std::fmt;
use std::fmt::Write;
use text::Text;

// The triples of a domain: for each object a mark for each rights.
type Triples = Objects<[bool; 8]>;

// Marks the triple of an entry.
fn mark(triples: &mut Triples, entry: Entry) {
    if let Some(marks) = triples.get_mut(entry.object)
        && let Some(mark) = marks.get_mut(entry.rights.0 as usize)
    {
        *mark = true;
    }
}

// The lines of a domain.
fn lines(domain: usize, triples: &Triples, out: &mut Text) -> fmt::Result {
    for kind in KINDS {
        for (object, marks) in triples.of(kind).iter().enumerate() {
            for (rights, mark) in marks.iter().enumerate() {
                if *mark {
                    writeln!(out, "{domain} {} {object} {rights}", kind.number())?;
                }
            }
        }
    }
    Ok(())
}

// The whole view.
pub fn show(image: Image<'_>, out: &mut Text) -> Result<(), Stop> {
    let mut space = [0; ANSWERS];
    let held = Held::new(image, &mut space)?;
    writeln!(out, "accepted {}", image.domains)?;
    for domain in 0..usize::from(image.domains) {
        let mut triples = Objects::new([false; 8]);
        for (entry, holds) in image.entries().zip(held.row(domain)) {
            if *holds == 1 {
                mark(&mut triples, entry);
            }
        }
        lines(domain, &triples, out)?;
    }
    Ok(())
}
