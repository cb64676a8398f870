// Text for standard output or standard error, which waits in a buffer of its own. Whoever writes to it uses `write!`, or `byte` for a byte
// that need not be text, and in the end `flush`. A buffer that is full is written first. A write that fails loses its bytes, and is no error.
#![tactic(auto)]

ghost use Rattle.std.specs.Prelude.{◌≡◌, ◌-◌, ◌≤◌, pos, slice_index};

use std::fmt;

// The numbers of standard output and standard error.
const STDOUT_FILENO: i32 = 1;

const STDERR_FILENO: i32 = 2;

// The bytes that may wait.
const ROOM: usize = 4096;

// The text that waits: the first bytes of the buffer; and where it is written.
#[derive(Drop)]
pub struct Text {
    buffer: [u8; ROOM],
    waiting: usize,
    stream: i32,
}

impl Text {
    // No text waits for standard output.
    pub fn new() -> Self
        ensures waiting { result.waiting ≡ 0 }
        ensures stream { result.stream ≡ pos 1 }
    {
        Text {
            buffer: [0; ROOM],
            waiting: 0,
            stream: STDOUT_FILENO,
        }
    }

    // No text waits for standard error.
    pub fn for_errors() -> Self
        ensures waiting { result.waiting ≡ 0 }
        ensures stream { result.stream ≡ pos 2 }
    {
        Text {
            stream: STDERR_FILENO,
            ..Text::new()
        }
    }

    // Writes the bytes that wait.
    pub fn flush(&mut self)
        ensures waiting { self.new.waiting ≡ 0 }
        ensures stream { self.new.stream ≡ self.old.stream }
    {
        if let Some(bytes) = self.buffer.get(..self.waiting) {
            io::write_all(self.stream, bytes);
        }
        self.waiting = 0;
    }

    // A byte, which is then the last that waits.
    pub fn byte(&mut self, b: u8)
        ensures waits { 1 ≤ self.new.waiting }
        ensures last { slice_index self.new.buffer (self.new.waiting - 1) ≡ b }
        ensures stream { self.new.stream ≡ self.old.stream }
    {
        if self.waiting >= ROOM {
            self.flush();
        }
        self.buffer[self.waiting] = b;
        self.waiting += 1;
    }
}

impl fmt::Write for Text {
    fn write_str(&mut self, s: &str) -> fmt::Result {
        for b in s.as_bytes() {
            self.byte(*b);
        }
        Ok(())
    }
}
