// The checks of an operation: they read memory and give an effect and an answer. Each function's decision is the one of the written
// rules, on any memory that is long enough for the state that it claims to hold.
#![tactic(auto)]

mod plain;

ghost use Rattle.std.specs.Prelude.{◌<◌};
ghost use Rattle.rules.specs.Turn.{named, decide as decide_rule};
ghost use Rattle.layout.specs.Layout.{state_of};
ghost use Rattle.look.specs.Looks.{Decides};
ghost use Rattle.decide.specs.Visits.{looks};

use look::Acting;
use rules::{Decision, Operation, Refusal};

// What the domain's operation comes to.
pub fn decide(who: &Acting<'_>, op: Operation, visits: &mut u32) -> Result<Decision, Refusal>
    requires visits_left { visits.old < 4 }
    ensures { Decides result visits.new (decide_rule (state_of who.now.memory.words.now) who.now.domain op) visits.old (looks (state_of who.now.memory.words.now) who.now.domain (named op.number) op) }
{
    match op.number {
        0 => Ok(plain::idle()),
        1 => plain::load(who, op.first, op.second, visits),
        2 => plain::store(who, op.first, op.second, op.third, visits),
        3 => plain::derive(who, op.first, op.second, op.third, op.fourth, visits),
        4 => plain::delete(who, op.first, visits),
        5 => plain::revoke(who, op.first, visits),
        6 => plain::ring(who, op.first, visits),
        7 => plain::hear(who, op.first, visits),
        8 => mail::send(who, op, visits),
        9 => mail::receive(who, op.first, op.second, visits),
        10 => plain::look(who, op.first, visits),
        _ => Err(Refusal::NoOperation),
    }
}
