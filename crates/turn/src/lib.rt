// A turn: the domain whose turn it is performs one operation on the state in memory, and the position moves on. Public: turn, whose, words.
#![tactic(auto)]

mod effect;

ghost use Rattle.std.specs.Prelude.{◌≡◌, ◌↔◌, ◌≤◌, ◌<◌, ◌%◌, IsErr, length};
ghost use Rattle.rules.specs.Sizes.{domains_most};
ghost use Rattle.rules.specs.State.{whose as turn_of};
ghost use Rattle.rules.specs.Turn.{named, decide as decide_rule};
ghost use Rattle.rules.specs.Refusal.{number_in};
ghost use Rattle.layout.specs.Layout.{state_of, need, Enough, words_of};
ghost use Rattle.decide.specs.Visits.{looks};
ghost use Rattle.turn.specs.Turned.{Turned as TurnedBy, Whose, Named, Applied};
ghost use Rattle.turn.specs.Visits.{allowed};

use layout::Memory;
use look::Acting;
use rules::{Answer, DOMAINS_MOST, Decision, Effect, Operation, Refusal};

// The answer, and how many places were visited.
#[derive(Clone, Copy)]
pub struct Turned {
    pub answer: Answer,
    pub visits: u32,
}

// What the checks come to for the domain whose turn it is.
fn decided(memory: Memory<'_>, op: Operation, visits: &mut u32) -> Decision
    requires first { visits.old ≡ 0 }
    ensures decision { result ≡ decide_rule (state_of memory.entry.words.now) (turn_of (state_of memory.entry.words.now) % domains_most) op }
    ensures visits { visits.new ≡ looks (state_of memory.entry.words.now) (turn_of (state_of memory.entry.words.now) % domains_most) (named op.number) op }
{
    let who = Acting {
        memory,
        domain: memory.whose() % DOMAINS_MOST,
    };
    match decide::decide(&who, op, visits) {
        Ok(decision) => decision,
        Err(refusal) => look::refused(refusal),
    }
}

// The effect is performed, without any check.
fn apply(mem: &mut [u32], e: Effect, visits: &mut u32)
    requires enough { Enough mem.old }
    requires named { Named e }
    requires visits_left { visits.old ≤ allowed e }
    ensures { Applied mem.old e mem.new visits.old visits.new }
{
    match e {
        Effect::Nothing => {}
        Effect::Store(f, w, v) => effect::store(mem, f, w, v),
        Effect::Ring(b, badge) => effect::ring(mem, b, badge),
        Effect::Hush(b) => effect::hush(mem, b),
        Effect::Put(p, c) => layout::place(mem, p, c, visits),
        Effect::Drop(p) => tree::drop_place(mem, p, visits),
        Effect::Prune(p) => tree::prune(mem, p, visits),
        Effect::Post(m, g, c) => effect::post(mem, m, g, c, visits),
        Effect::Take(m) => effect::take(mem, m, visits),
        Effect::Move(m, p) => effect::move_to(mem, m, p, visits),
    }
}

// One turn on memory. Memory that is too short for the state that it claims to hold: refusal 29, and nothing changed.
pub fn turn(mem: &mut [u32], op: Operation) -> Turned
    ensures { TurnedBy mem.old op mem.new result.answer result.visits }
{
    if !layout::enough(mem) {
        return Turned {
            answer: look::refused(Refusal::TooShort).answer,
            visits: 0,
        };
    }
    let mut visits = 0;
    let Decision { effect, answer } = decided(Memory { words: mem }, op, &mut visits);
    apply(mem, effect, &mut visits);
    layout::move_on(mem);
    Turned { answer, visits }
}

// The domain whose turn is next; memory that is too short is refused.
pub fn whose(mem: &[u32]) -> Result<u32, Refusal>
    ensures number { Whose mem.now (number_in result) }
    ensures short { IsErr result ↔ (length mem.now < need mem.now) }
{
    let memory = Memory::of(mem).ok_or(Refusal::TooShort)?;
    Ok(memory.whose())
}

// The words of memory that a state with so many frames takes, or 0 where that is out of range: a number, as C gets it from mk_words.
pub fn words(frames: u32) -> usize
    ensures { result ≡ words_of frames }
{
    layout::words(frames)
}
