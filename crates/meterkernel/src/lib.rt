// The kernel's entries for C, and nothing else: each hands what it is lent to the crate that does the work. There is no state between
// calls but in the memory that the caller lends. A slice is a pointer and a length, in two parameters of C.
#![tactic(auto)]

ghost use Rattle.std.specs.Prelude.{◌≡◌, ◌≤◌, length};
ghost use Rattle.layout.specs.Layout.{words_of};
ghost use Rattle.turn.specs.Turned.{Whose};
ghost use Rattle.boot.specs.Booted.{Booted};
ghost use Rattle.flow.specs.Answer.{Flows, Held};
ghost use Rattle.meterkernel.specs.Entries.{operation_words, answer_words, operation_in, Told, TurnCalled, WriteCalled};

use rules::{Answer, Operation, Refusal, number, status};

// An operation's words, and those of an answer beside its status.
const OPERATION: usize = 8;

const ANSWER: usize = 6;

// The words of memory that a state with so many frames takes; 0 where frames is out of range.
#[unsafe(no_mangle)]
pub extern "C" fn mk_words(frames: u32) -> usize
    ensures { result ≡ words_of frames }
{
    turn::words(frames)
}

// A boot image into memory: 0, or its refusal, or 29 where the memory is too short for its frames; a refusal changes nothing.
#[unsafe(no_mangle)]
pub extern "C" fn mk_boot(image: &[u8], mem: &mut [u32]) -> u32
    ensures { Booted image.now mem.old result mem.new }
{
    status(boot::read(image, mem))
}

// The domain whose turn is next; 29, which is no domain, where memory is too short.
#[unsafe(no_mangle)]
pub extern "C" fn mk_whose(mem: &[u32]) -> u32
    ensures { Whose mem.now result }
{
    number(turn::whose(mem))
}

// The operation that the words say.
fn operation(op: &[u32]) -> Operation
    requires { operation_words ≤ length op.now }
    ensures { result ≡ operation_in op.now }
{
    Operation {
        number: op[0],
        first: op[1],
        second: op[2],
        third: op[3],
        fourth: op[4],
        fifth: op[5],
        sixth: op[6],
        seventh: op[7],
    }
}

// The six words of an answer.
fn tell(words: &mut [u32], a: Answer)
    requires { answer_words ≤ length words.old }
    ensures { Told a words.old words.new }
{
    words[0] = a.w0;
    words[1] = a.w1;
    words[2] = a.w2;
    words[3] = a.w3;
    words[4] = a.w4;
    words[5] = a.w5;
}

// One turn: the operation's number and seven arguments are in op; the result is the status, and the six words go to answer.
#[unsafe(no_mangle)]
pub extern "C" fn mk_turn(mem: &mut [u32], op: &[u32], answer: &mut [u32]) -> u32
    ensures { TurnCalled mem.old op.now answer.old mem.new answer.new result }
{
    if op.len() < OPERATION || answer.len() < ANSWER || !layout::enough(mem) {
        return Refusal::TooShort.number();
    }
    let t = turn::turn(mem, operation(op));
    tell(answer, t.answer);
    t.answer.status
}

// The image of the state in memory, and its size: 0; or 29 where memory is too short, 27 where no image describes the state, 28 where the
// buffer is too short, and then nothing has changed.
#[unsafe(no_mangle)]
pub extern "C" fn mk_write(mem: &[u32], image: &mut [u8], size: &mut u32) -> u32
    ensures { WriteCalled mem.now image.old size.old result image.new size.new }
{
    let written = write::write(mem, image);
    if let Ok(bytes) = written {
        *size = bytes;
    }
    status(written)
}

// Who can reach whom, by an image: 1 or 0 at from * D + to; or the image's refusal, or 28 where matrix is shorter than D * D.
#[unsafe(no_mangle)]
pub extern "C" fn mk_flow(image: &[u8], matrix: &mut [u8]) -> u32
    ensures { Flows image.now matrix.old result matrix.new }
{
    status(flow::flow(image, matrix))
}

// What each domain could ever hold, by an image: 1 or 0 at domain * C + entry; or the image's refusal, or 28 where rows is shorter.
#[unsafe(no_mangle)]
pub extern "C" fn mk_could_hold(image: &[u8], rows: &mut [u8]) -> u32
    ensures { Held image.now rows.old result rows.new }
{
    status(flow::could_hold(image, rows))
}
