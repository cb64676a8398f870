// Makes a boot image of a text: the text on standard input, the image on standard output; or, where something is wrong with the text, nothing
// there and a line on standard error that names line and word. docs/IMAGES.md has the grammar. The bytes are written only where the proved
// function of `image` refuses nothing; that they are what the text says is tested, not proved. Proved of it: it ends, no sum wraps, no index
// is out of range.
#![tactic(auto)]

mod book;
mod complaint;
mod emit;
mod gift;
mod line;
mod lines;
mod sources;

use book::Book;
use complaint::{Complaint, Fault};

// The numbers of standard input and output.
const STDIN_FILENO: i32 = 0;

const STDOUT_FILENO: i32 = 1;

// The longest text.
const TEXT: usize = 262144;

// Writes an image, where it is one.
fn write(image: &[u8]) -> Result<(), Fault> {
    image::accept(image).map_err(Fault::RefusedImage)?;
    io::write_all(STDOUT_FILENO, image);
    Ok(())
}

// Writes the image that a text says.
fn compose(text: &[u8]) -> Result<(), Complaint<'_>> {
    if TEXT < text.len() {
        return Err(Fault::LongText.into());
    }
    let mut book = Book::new();
    book.read(text)?;
    book.judge()?;
    let mut space = [0u8; image::IMAGE_MOST];
    write(emit::image(&book, &mut space))?;
    Ok(())
}

fn main() {
    // One byte more than the longest text has tells a longer one.
    let mut space = [0u8; TEXT + 1];
    let length = io::read_full(STDIN_FILENO, &mut space);
    if let Err(complaint) = compose(&space[..length]) {
        complaint.say();
    }
}
