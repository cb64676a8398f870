// Plays a trace that is written as text. Standard input: a u32 image length, high byte first, the image, then a line for each operation: its
// name or number and its arguments, with blanks or commas between them; `#` begins a comment. Standard output: a line for each turn, with the
// domain, the operation and the answer. What is wrong is said on standard error, and nothing is played after it. The memory that it takes does
// not grow with the number of lines. The turns are those of the proved functions; that what it prints is what they answer is tested, not
// proved. Proved of it: it ends, no sum wraps, no index is out of range.
#![tactic(auto)]

mod answer;
mod call;
mod fault;
mod line;

use call::Call;
use fault::{Complaint, Fault};
use line::Line;
use text::Text;
use words::Words;

// Standard input's number.
const STDIN_FILENO: i32 = 0;

// The bytes that are read at once.
const CHUNK: usize = 4096;

// One byte more than the longest image has is enough to refuse a longer one as it would be refused whole.
const IMAGE: usize = image::IMAGE_MOST + 1;

// The turn of an operation, and the line of its answer.
fn turn(mem: &mut [u32], out: &mut Text, call: &Call<'_>) {
    let domain = rules::number(turn::whose(mem));
    let turned = turn::turn(mem, call.operation());
    // Text gives no error.
    let _ = answer::write(out, domain, call, turned.answer);
}

// What a line calls for, if it has words: the turn, and the line of its answer. A call is put together where it stands, since its memory is
// not small.
fn play_line<'a>(mem: &mut [u32], out: &mut Text, line: &'a Line) -> Result<(), Complaint<'a>> {
    let mut words = Words::new(line.text());
    if let Some(name) = words.next() {
        let number = call::number(name).ok_or(line.wrong(Some(name), Fault::NoOperation))?;
        let mut call = Call::new(name, number);
        call.read(words, line)?;
        turn(mem, out, &call);
    }
    Ok(())
}

// Something was wrong, and is said: nothing more is played.
#[derive(Clone, Copy)]
struct Stopped;

// Says what is wrong, behind the answers that wait.
fn stop(out: &mut Text, complaint: Complaint<'_>) -> Stopped {
    out.flush();
    complaint.say();
    Stopped
}

// What a trace is played with: the state, the line that is read, and the answers.
#[derive(Drop)]
struct Player<'a> {
    mem: &'a mut [u32],
    line: Line,
    out: Text,
}

impl Player<'_> {
    // The line is at its end: it is played, and the next one begins.
    fn end(&mut self) -> Result<(), Stopped> {
        let played = play_line(self.mem, &mut self.out, &self.line);
        played.map_err(|complaint| stop(&mut self.out, complaint))?;
        self.line.begin_next();
        Ok(())
    }

    // A byte of the trace.
    fn byte(&mut self, b: u8) -> Result<(), Stopped> {
        if b == b'\n' {
            return self.end();
        }
        self.line
            .add(b)
            .map_err(|complaint| stop(&mut self.out, complaint))
    }

    // A part of the trace from standard input; gives how many bytes it has.
    fn part(&mut self) -> Result<usize, Stopped> {
        let mut input = io::buffer();
        let got = io::read_full(STDIN_FILENO, &mut input);
        for b in &input[..got] {
            self.byte(*b)?;
        }
        Ok(got)
    }

    // The whole trace; its last line may have no end. A proved loop has to end, and nothing says that a trace does: it counts to a number that
    // no run reaches.
    fn play(&mut self) -> Result<(), Stopped> {
        for _ in 0..u64::MAX {
            if self.part()? < CHUNK {
                break;
            }
        }
        self.end()
    }
}

// Plays the trace on the state in memory.
fn play(mem: &mut [u32]) {
    let mut player = Player {
        mem,
        line: Line::first(),
        out: Text::new(),
    };
    // What stopped it is said.
    let _ = player.play();
    player.out.flush();
}

// Reads an image of that length, as far as it can be one, and boots it into memory. Other than replay it leaves the rest of a longer one.
fn begin(mem: &mut [u32], length: usize) -> Result<(), Fault> {
    let mut space = [0u8; IMAGE];
    let part = length.min(IMAGE);
    let got = io::read_full(STDIN_FILENO, &mut space[..part]);
    boot::read(&space[..got], mem).map_err(Fault::RefusedImage)
}

fn main() {
    let mut head = [0u8; 4];
    io::read_full(STDIN_FILENO, &mut head);
    let mut mem = [0u32; layout::WORDS_MOST];
    match begin(&mut mem, u32::from_be_bytes(head) as usize) {
        Ok(()) => play(&mut mem),
        Err(fault) => Complaint::from(fault).say(),
    }
}
