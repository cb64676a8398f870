// The memory that a state stands in: the only crate that indexes it. Whoever reads or writes what a place holds goes through a
// function here that counts the visit. A number from memory that is out of range reads as 0 and is not stored to. What writes takes the
// words themselves: were they lent by a struct, each contract would have to say that it still lends the same ones.
#![tactic(auto)]

ghost use Rattle.std.specs.Prelude.{◌≡◌, ◌↔◌, IfSome, IsNone, cond, suc, ◌+◌, ◌*◌, ◌≤◌, ◌<◌, eqb, leb, length, get_or};
ghost use Rattle.rules.specs.Sizes.{places, bells, mailboxes, turns_most, frame_words};
ghost use Rattle.rules.specs.State.{whose as turn_of};
ghost use Rattle.rules.specs.Turn.{advance};
ghost use Rattle.layout.specs.Layout.{state_of, Headed, position_at, frames_at, need, Enough, visits_most, words_of, words_for};
ghost use Rattle.layout.specs.Stored.{Stored, placed, handed, worded, belled, mailed, Placed, Elsewhere, Cleared, headed, turning};

use rules::{Capability, FRAME_WORDS, FRAMES_MOST, MAILBOXES, Message, PLACES, TURNS_MOST};

// Where each region begins: a word for each place, for each mailbox, for each turn.
const EACH_PLACE: usize = PLACES as usize;

const EACH_BOX: usize = MAILBOXES as usize;

const FRAME_COUNT: usize = 1;

const TURN_COUNT: usize = 2;

const POSITION: usize = 3;

const TURNS: usize = 4;

const KIND: usize = TURNS + TURNS_MOST as usize;

const RIGHTS: usize = KIND + EACH_PLACE;

const OBJECT: usize = RIGHTS + EACH_PLACE;

const BADGE: usize = OBJECT + EACH_PLACE;

const SOURCE: usize = BADGE + EACH_PLACE;

const BELLS: usize = SOURCE + EACH_PLACE;

const FULL: usize = BELLS + rules::BELLS as usize;

const FROM: usize = FULL + EACH_BOX;

const W0: usize = FROM + EACH_BOX;

const W1: usize = W0 + EACH_BOX;

const W2: usize = W1 + EACH_BOX;

const W3: usize = W2 + EACH_BOX;

const FRAMES: usize = W3 + EACH_BOX;

// The words of a state with as many frames as there may be.
pub const WORDS_MOST: usize = FRAMES + (FRAMES_MOST * FRAME_WORDS) as usize;

// The head of a state: D, F, how many turns the table has, and the position in it.
#[derive(Clone, Copy)]
pub struct Head {
    pub domains: u32,
    pub frames: u32,
    pub turns: u32,
    pub position: u32,
}

// The memory is long enough for the state that it claims to hold.
pub fn enough(mem: &[u32]) -> bool
    ensures { result ≡ leb (need mem.now) (length mem.now) }
{
    FRAMES <= mem.len() && words_for(mem[FRAME_COUNT]) <= mem.len()
}

// Memory that is long enough for the state that it claims to hold, to be read.
#[derive(Clone, Copy)]
pub struct Memory<'a> {
    pub words: &'a [u32],
    ghost enough: { Enough words.now },
}

impl<'a> Memory<'a> {
    // Memory that is long enough; none where it is too short.
    pub fn of(words: &'a [u32]) -> Option<Self>
        ensures some { IfSome result (λ m. m.words.now ≡ words.now) }
        ensures none { IsNone result ↔ (length words.now < need words.now) }
    {
        if enough(words) {
            Some(Memory { words })
        } else {
            None
        }
    }

    // One visit, which is counted: what place p holds.
    pub fn see(&self, p: u32, visits: &mut u32) -> Capability
        requires p_in_range { p < places }
        requires visits_left { visits.old < visits_most }
        ensures capability { result ≡ (state_of self.now.words.now).capability p }
        ensures visits { visits.new ≡ visits.old + 1 }
    {
        *visits += 1;
        let i = p as usize;
        Capability {
            kind: self.words[KIND + i],
            rights: self.words[RIGHTS + i],
            object: self.words[OBJECT + i],
            badge: self.words[BADGE + i],
            source: self.words[SOURCE + i],
        }
    }

    // One visit, which is counted: the source number at place p.
    pub fn source_of(&self, p: u32, visits: &mut u32) -> u32
        requires p_in_range { p < places }
        requires visits_left { visits.old < visits_most }
        ensures source { result ≡ ((state_of self.now.words.now).capability p).source }
        ensures visits { visits.new ≡ visits.old + 1 }
    {
        *visits += 1;
        self.words[SOURCE + p as usize]
    }

    // Word w of frame f.
    pub fn word(&self, f: u32, w: u32) -> u32
        ensures { result ≡ (state_of self.now.words.now).word f w }
    {
        if f < self.words[FRAME_COUNT] && w < FRAME_WORDS {
            self.words[word_at(f, w)]
        } else {
            0
        }
    }

    // The number of bell b.
    pub fn bell(&self, b: u32) -> u32
        ensures { result ≡ (state_of self.now.words.now).bell b }
    {
        if b < rules::BELLS {
            self.words[BELLS + b as usize]
        } else {
            0
        }
    }

    // What mailbox m holds.
    pub fn message(&self, m: u32) -> Message
        ensures { result ≡ (state_of self.now.words.now).message m }
    {
        if m >= MAILBOXES {
            return Message::NONE;
        }
        let i = m as usize;
        Message {
            full: self.words[FULL + i],
            badge: self.words[FROM + i],
            w0: self.words[W0 + i],
            w1: self.words[W1 + i],
            w2: self.words[W2 + i],
            w3: self.words[W3 + i],
        }
    }

    // The domain of turn i of the table, and 0 past its end.
    pub fn turn_at(&self, i: u32) -> u32
        ensures { result ≡ get_or (state_of self.now.words.now).turns i 0 }
    {
        if i < self.words[TURN_COUNT] && i < TURNS_MOST {
            self.words[TURNS + i as usize]
        } else {
            0
        }
    }

    // The domain whose turn is next.
    pub fn whose(&self) -> u32
        ensures { result ≡ turn_of (state_of self.now.words.now) }
    {
        self.turn_at(self.words[POSITION])
    }

    // The head of the state.
    pub fn head(&self) -> Head
        ensures { Headed (state_of self.now.words.now) result }
    {
        Head {
            domains: self.words[0],
            frames: self.words[FRAME_COUNT],
            turns: self.words[TURN_COUNT],
            position: self.words[POSITION],
        }
    }
}

// One visit, which is counted: place p holds c.
pub fn place(mem: &mut [u32], p: u32, c: Capability, visits: &mut u32)
    requires enough { Enough mem.old }
    requires p_in_range { p < places }
    requires visits_left { visits.old < visits_most }
    ensures visits { visits.new ≡ visits.old + 1 }
    ensures stored { Stored (p < places) (placed p c) mem.old mem.new }
{
    *visits += 1;
    let i = p as usize;
    mem[KIND + i] = c.kind;
    mem[RIGHTS + i] = c.rights;
    mem[OBJECT + i] = c.object;
    mem[BADGE + i] = c.badge;
    mem[SOURCE + i] = c.source;
}

// y for x, and any other number for itself.
fn swapped(s: u32, x: u32, y: u32) -> u32
    ensures { result ≡ cond (eqb s x) y s }
{
    if s == x { y } else { s }
}

// One visit, which is counted: where the capability at place p has source number x, it gets source number y.
pub fn hand_over(mem: &mut [u32], p: u32, x: u32, y: u32, visits: &mut u32)
    requires enough { Enough mem.old }
    requires p_in_range { p < places }
    requires visits_left { visits.old < visits_most }
    ensures visits { visits.new ≡ visits.old + 1 }
    ensures stored { Stored (p < places) (handed p x y) mem.old mem.new }
{
    *visits += 1;
    let i = SOURCE + p as usize;
    mem[i] = swapped(mem[i], x, y);
}

// Where word w of frame f stands.
fn word_at(f: u32, w: u32) -> usize
    ensures { result ≡ frames_at + (f * frame_words + w) }
{
    FRAMES + f as usize * FRAME_WORDS as usize + w as usize
}

// Word w of frame f becomes v.
pub fn set_word(mem: &mut [u32], f: u32, w: u32, v: u32)
    requires { Enough mem.old }
    ensures { Stored ((f < (state_of mem.old).frames) × (w < frame_words)) (worded f w v) mem.old mem.new }
{
    if f < mem[FRAME_COUNT] && w < FRAME_WORDS {
        mem[word_at(f, w)] = v;
    }
}

// The number of bell b becomes v.
pub fn set_bell(mem: &mut [u32], b: u32, v: u32)
    requires { Enough mem.old }
    ensures { Stored (b < bells) (belled b v) mem.old mem.new }
{
    if b < rules::BELLS {
        mem[BELLS + b as usize] = v;
    }
}

// Mailbox m holds g.
pub fn set_message(mem: &mut [u32], m: u32, g: Message)
    requires { Enough mem.old }
    ensures { Stored (m < mailboxes) (mailed m g) mem.old mem.new }
{
    if m < MAILBOXES {
        let i = m as usize;
        mem[FULL + i] = g.full;
        mem[FROM + i] = g.badge;
        mem[W0 + i] = g.w0;
        mem[W1 + i] = g.w1;
        mem[W2 + i] = g.w2;
        mem[W3 + i] = g.w3;
    }
}

// The position after position at, of t turns.
fn following(at: u32, t: u32) -> u32
    ensures { at < t → result ≡ cond (eqb (suc at) t) 0 (suc at) }
{
    if at < t && at + 1 < t { at + 1 } else { 0 }
}

// The position moves on by one, from the last to the first.
pub fn move_on(mem: &mut [u32])
    requires { Enough mem.old }
    ensures { Stored (Placed (state_of mem.old)) advance mem.old mem.new × Elsewhere position_at mem.old mem.new }
{
    mem[POSITION] = following(mem[POSITION], mem[TURN_COUNT]);
}

// The words that a state with so many frames takes.
fn words_for(frames: u32) -> usize
    ensures { result ≡ words_for frames }
{
    FRAMES + FRAME_WORDS as usize * frames as usize
}

// The words that a state with so many frames takes, or 0 where frames is out of range: the number that C gets.
pub fn words(frames: u32) -> usize
    ensures { result ≡ words_of frames }
{
    if 1 <= frames && frames <= FRAMES_MOST {
        words_for(frames)
    } else {
        0
    }
}

// The first n words become 0.
pub fn clear(mem: &mut [u32], n: usize)
    requires { n ≤ length mem.old }
    ensures { Cleared n mem.old mem.new }
{
    mem[..n].fill(0);
}

// The head of a state at boot: D, F and T; the position is left as it is.
pub fn set_head(mem: &mut [u32], domains: u32, frames: u32, turns: u32)
    requires { frames_at ≤ length mem.old }
    ensures { mem.new ≡ headed domains frames turns mem.old }
{
    mem[0] = domains;
    mem[FRAME_COUNT] = frames;
    mem[TURN_COUNT] = turns;
}

// Turn i of the table is domain d's.
pub fn set_turn(mem: &mut [u32], i: usize, d: u32)
    requires mem_long_enough { frames_at ≤ length mem.old }
    requires i_in_range { i < turns_most }
    ensures { mem.new ≡ turning i d mem.old }
{
    mem[TURNS + i] = d;
}
