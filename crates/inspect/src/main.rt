// Looks at a boot image: the image on standard input, the view as the first argument. Each view has a file of its own. Of what is no image
// every view says `refused N`, and the report also why. It asks the proved functions of `flow`, so what it prints of holding and flow is
// what document 03 defines; that it prints that and nothing else is tested, not proved. Proved of it: it ends, no sum wraps, no index is
// out of range.
#![tactic(auto)]

mod chains;
mod closed;
mod direct;
mod domains;
mod dot;
mod fields;
mod hold;
mod matrix;
mod objects;
mod refused;
mod report;
mod slots;
mod table;
mod verdict;
mod words;

use fields::Image;
use std::fmt;
use std::fmt::Write;
use std::rt::Env;
use text::Text;
use verdict::Stop;

// The numbers of standard input and standard error.
const STDIN_FILENO: i32 = 0;

const STDERR_FILENO: i32 = 2;

// The views.
#[derive(Clone, Copy, Debug, PartialEq, Eq)]
enum View {
    Report,
    Dot,
    Matrix,
    Hold,
}

impl View {
    // The view of a word.
    fn named(word: &[u8]) -> Option<Self> {
        match word {
            b"report" => Some(View::Report),
            b"dot" => Some(View::Dot),
            b"matrix" => Some(View::Matrix),
            b"hold" => Some(View::Hold),
            _ => None,
        }
    }

    // Writes the view of an image, if it is one.
    fn write(self, image: Image<'_>, out: &mut Text) -> Result<(), Stop> {
        match self {
            View::Report => report::show(image, out),
            View::Dot => dot::show(image, out),
            View::Matrix => matrix::show(image, out),
            View::Hold => hold::show(image, out),
        }
    }
}

// The view of the first argument. A missing argument, and one that is longer than any view's name, is none.
fn asked(rt: &impl Env) -> Option<View> {
    let mut word = [0u8; 16];
    match rt.arg(1, &mut word) {
        Ok(length) => View::named(&word[..length]),
        Err(_) => None,
    }
}

// Says how the program is called.
fn usage() {
    io::write_all(
        STDERR_FILENO,
        b"usage: inspect report|matrix|hold|dot <IMAGE\n",
    );
}

// One byte more than the longest image has is enough to refuse a longer one as it would be refused whole.
const IMAGE: usize = image::IMAGE_MOST + 1;

// Writes a view of an image, or that it is refused, and in the report also why.
fn show(view: View, image: Image<'_>, out: &mut Text) -> fmt::Result {
    match view.write(image, out) {
        Ok(()) => Ok(()),
        Err(Stop::Unwritten) => Err(fmt::Error),
        Err(Stop::Refused(refusal)) => {
            writeln!(out, "refused {refusal}")?;
            if view == View::Report {
                refused::show(image, refusal, out)?;
            }
            Ok(())
        }
    }
}

fn main(rt: HostRuntime) {
    let Some(view) = asked(&rt) else {
        usage();
        return;
    };
    let mut space = [0u8; IMAGE];
    let length = io::read_full(STDIN_FILENO, &mut space);
    let mut out = Text::new();
    // Text gives no error.
    let _ = show(view, Image::new(&space[..length]), &mut out);
    out.flush();
}
