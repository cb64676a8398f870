// Whether an image describes the state in memory: sizes in range, empty mailboxes, frames and bells all 0, position 0. It only reads, and
// each test is exact on any memory that is long enough.
ghost use Rattle.std.specs.Prelude.{◌≡◌, ◌&&◌};
ghost use Rattle.rules.specs.Sizes.{mailboxes, bells, frame_words, domains_most, turns_most, frames_most};
ghost use Rattle.rules.specs.Image.{between, writable};
ghost use Rattle.layout.specs.Layout.{state_of};
ghost use Rattle.write.specs.Written.{sized};
ghost use Rattle.write.specs.Laid.{each_below, no_mail, zero_word, zero_bell};

use layout::{Head, Memory};
use rules::{BELLS, DOMAINS_MOST, FRAME_WORDS, FRAMES_MOST, MAILBOXES, TURNS_MOST};

// D, T and F are in range.
fn in_range(h: Head) -> bool
    ensures { result ≡ between 1 domains_most h.domains && between 1 turns_most h.turns && between 1 frames_most h.frames }
{
    ((1 <= h.domains) & (h.domains <= DOMAINS_MOST))
        & ((1 <= h.turns) & (h.turns <= TURNS_MOST))
        & ((1 <= h.frames) & (h.frames <= FRAMES_MOST))
}

// The mailboxes are empty.
fn mailboxes_empty(memory: &Memory<'_>) -> bool
    ensures { result ≡ each_below mailboxes (no_mail (state_of memory.now.words.now)) }
{
    (0..MAILBOXES).all(|m| memory.message(m).full == 0)
}

// Frame f is all 0.
fn frame_zero(memory: &Memory<'_>, f: u32) -> bool
    ensures { result ≡ each_below frame_words (zero_word (state_of memory.now.words.now) f) }
{
    (0..FRAME_WORDS).all(|w| memory.word(f, w) == 0)
}

// The first n frames are all 0.
fn frames_zero(memory: &Memory<'_>, n: u32) -> bool
    ensures { result ≡ each_below n (λ f. each_below frame_words (zero_word (state_of memory.now.words.now) f)) }
{
    (0..n).all(|f| frame_zero(memory, f))
}

// The bells are 0.
fn bells_zero(memory: &Memory<'_>) -> bool
    ensures { result ≡ each_below bells (zero_bell (state_of memory.now.words.now)) }
{
    (0..BELLS).all(|b| memory.bell(b) == 0)
}

// The state has sizes that an image can have, and it can be written.
pub fn describable(memory: &Memory<'_>) -> bool
    ensures { result ≡ sized (state_of memory.now.words.now) && writable (state_of memory.now.words.now) }
{
    let h = memory.head();
    if !in_range(h) {
        return false;
    }
    if !mailboxes_empty(memory) {
        return false;
    }
    if !frames_zero(memory, h.frames) {
        return false;
    }
    if !bells_zero(memory) {
        return false;
    }
    h.position == 0
}
