// Replays a trace. Standard input: a u32 image length, the image, then operations of eight u32; standard output: a u32, the image's
// refusal or 0, then for each operation eight u32: the domain whose turn it was, the status, six words. With the word 'written' as its
// argument it writes instead what the writer gives after the last operation: a u32, the refusal or 0, and then the image. Numbers are
// big-endian. The memory that it takes does not grow with the number of operations.
#![tactic(auto)]

use rules::{Operation, Refusal, number, status};
use std::array;
use std::rt::Env;

// The numbers of standard input and standard output.
const STDIN_FILENO: i32 = 0;

const STDOUT_FILENO: i32 = 1;

// The bytes that are read at once.
const CHUNK: usize = 4096;

// The bytes of an operation, and of a line of the answers.
const LINE: usize = 32;

// The operation that bytes say.
fn operation(bytes: &[u8; LINE]) -> Operation {
    let (words, _) = bytes.as_chunks::<4>();
    let [number, first, second, third, fourth, fifth, sixth, seventh]: [u32; 8] = array::from_fn(
        |i| u32::from_be_bytes(words[i]),
    );
    Operation {
        number,
        first,
        second,
        third,
        fourth,
        fifth,
        sixth,
        seventh,
    }
}

// The turn of an operation, and its line of the answers.
fn replay(mem: &mut [u32], input: &[u8; LINE], output: &mut [u8; LINE]) {
    let domain = number(turn::whose(mem));
    let a = turn::turn(mem, operation(input)).answer;
    let words = [domain, a.status, a.w0, a.w1, a.w2, a.w3, a.w4, a.w5];
    let (rooms, _) = output.as_chunks_mut::<4>();
    for (room, word) in rooms.iter_mut().zip(&words) {
        *room = word.to_be_bytes();
    }
}

// The operations of a chunk, and their lines of the answers.
fn chunk(mem: &mut [u32], input: &[u8], output: &mut [u8]) {
    let (operations, _) = input.as_chunks::<LINE>();
    let (lines, _) = output.as_chunks_mut::<LINE>();
    for (operation, line) in operations.iter().zip(lines.iter_mut()) {
        replay(mem, operation, line);
    }
}

// A chunk of operations from standard input, whose answers are handed on; true where more may follow.
fn some<F: Fn(&[u8]) -> bool>(mem: &mut [u32], hand_on: &F) -> bool
    requires { F.IsAlwaysCallable hand_on.now }
{
    let mut input = io::buffer();
    let mut output = io::buffer();
    let got = io::read_full(STDIN_FILENO, &mut input);
    chunk(mem, &input[..got], &mut output);
    hand_on(&output[..got / LINE * LINE]) && got == CHUNK
}

// A proved loop has to end, and nothing says that a trace does: it counts to a number that no run reaches.
fn all<F: Fn(&[u8]) -> bool>(mem: &mut [u32], hand_on: &F)
    requires { F.IsAlwaysCallable hand_on.now }
{
    for _ in 0..u64::MAX {
        if !some(mem, hand_on) {
            return;
        }
    }
}

// Passes over n bytes of standard input. Each read takes one at least.
fn skip(n: usize) {
    let mut space = io::buffer();
    let mut left = n;
    for _ in 0..n {
        let part = left.min(CHUNK);
        let got = io::read_full(STDIN_FILENO, &mut space[..part]);
        if got == 0 {
            return;
        }
        left -= got;
    }
}

// One byte more than the longest image has is enough to refuse a longer one as it would be refused whole.
const IMAGE: usize = image::IMAGE_MOST + 1;

// Reads an image of that length, as far as it fits the space, passes over the rest, and boots it into memory.
fn begin(mem: &mut [u32], space: &mut [u8], length: usize) -> Result<(), Refusal> {
    let part = length.min(space.len());
    let got = io::read_full(STDIN_FILENO, &mut space[..part]);
    skip(length - part);
    boot::read(&space[..got], mem)
}

// The argument is the word 'written'.
fn written(rt: &impl Env) -> bool {
    let mut word = [0u8; 8];
    match rt.arg(1, &mut word) {
        Ok(n) => &word[..n] == b"written".as_slice(),
        Err(_) => false,
    }
}

// Writes a number to standard output.
fn say(n: u32) -> bool {
    io::write_all(STDOUT_FILENO, &n.to_be_bytes())
}

// What the writer gives of the state in memory.
fn give(mem: &[u32], space: &mut [u8]) {
    let written = write::write(mem, space);
    if say(status(written)) {
        let size = written.unwrap_or(0) as usize;
        io::write_all(STDOUT_FILENO, &space[..size]);
    }
}

// The operations of an accepted image: their answers, or what the writer gives after them.
fn follow(rt: &impl Env, mem: &mut [u32], space: &mut [u8]) {
    if written(rt) {
        all(mem, &|_: &[u8]| true);
        give(mem, space);
    } else if say(0) {
        all(mem, &|answers: &[u8]| io::write_all(STDOUT_FILENO, answers));
    }
}

fn main(rt: HostRuntime) {
    let mut head = [0u8; 4];
    if io::read_full(STDIN_FILENO, &mut head) < 4 {
        return;
    }
    let length = u32::from_be_bytes(head) as usize;
    let mut space = [0u8; IMAGE];
    let mut mem = [0u32; layout::WORDS_MOST];
    match begin(&mut mem, &mut space, length) {
        Ok(()) => follow(&rt, &mut mem, &mut space),
        Err(refusal) => {
            say(refusal.number());
        }
    }
}
