// Looking a slot up, and how an operation ends: what the checks of every operation share. Each function is exact on any memory that is
// long enough for the state that it claims to hold.
#![tactic(auto)]

ghost use Rattle.std.specs.Prelude.{◌≡◌, ◌≤◌, ◌<◌};
ghost use Rattle.rules.specs.Sizes.{domains_most};
ghost use Rattle.rules.specs.Kind.{kind_number};
ghost use Rattle.rules.specs.Refusal.{number_of};
ghost use Rattle.rules.specs.Turn.{any_slot_refusal, slot_for_refusal};
ghost use Rattle.layout.specs.Layout.{state_of};
ghost use Rattle.look.specs.Looks.{refused_by, done_by, Looks};

use layout::Memory;
use rules::{Answer, Capability, Decision, Effect, Kind, Refusal, SLOTS};

// The domain whose turn it is, and the memory that its operation is checked on.
#[derive(Clone, Copy)]
pub struct Acting<'a> {
    pub memory: Memory<'a>,
    pub domain: u32,
    ghost in_range: { domain < domains_most },
}

impl Acting<'_> {
    // Slot x, any kind: at most one visit.
    pub fn any_slot(&self, x: u32, visits: &mut u32) -> Result<Capability, Refusal>
        requires visits_left { visits.old < 8 }
        ensures { Looks result visits.new (state_of self.now.memory.words.now) self.now.domain x (any_slot_refusal (state_of self.now.memory.words.now) self.now.domain x) visits.old }
    {
        if x >= SLOTS {
            return Err(Refusal::NoSlot);
        }
        let c = self.memory.see(self.domain * SLOTS + x, visits);
        if c.kind == 0 {
            return Err(Refusal::EmptySlot);
        }
        Ok(c)
    }

    // Slot x, for that kind with that right: at most one visit.
    pub fn slot_for(
        &self,
        x: u32,
        kind: Kind,
        right: u32,
        visits: &mut u32,
    ) -> Result<Capability, Refusal>
        requires visits_left { visits.old < 8 }
        ensures { Looks result visits.new (state_of self.now.memory.words.now) self.now.domain x (slot_for_refusal (state_of self.now.memory.words.now) self.now.domain x (kind_number kind) right) visits.old }
    {
        let c = self.any_slot(x, visits)?;
        if c.kind != kind.number() {
            return Err(Refusal::WrongKind);
        }
        if (right & c.rights) != right {
            return Err(Refusal::NoRight);
        }
        Ok(c)
    }
}

// A refusal answers its number and six zero words, and has no effect.
pub fn refused(refusal: Refusal) -> Decision
    ensures { result ≡ refused_by (number_of refusal) }
{
    Decision {
        effect: Effect::Nothing,
        answer: Answer {
            status: refusal.number(),
            w0: 0,
            w1: 0,
            w2: 0,
            w3: 0,
            w4: 0,
            w5: 0,
        },
    }
}

// An effect with status 0 and one word.
pub fn done(effect: Effect, w: u32) -> Decision
    ensures { result ≡ done_by effect w }
{
    Decision {
        effect,
        answer: Answer::of(w, 0, 0, 0, 0, 0),
    }
}
