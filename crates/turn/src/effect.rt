// The effects, performed without any check. On memory that is not good an object may be none that there is: then nothing is stored.
ghost use Rattle.std.specs.Prelude.{ℕ, ◌<◌};
ghost use Rattle.rules.specs.Sizes.{places};
ghost use Rattle.rules.specs.declared.Effect.TheVariants.{Store, Ring, Hush, Post, Take, Move};
ghost use Rattle.layout.specs.Layout.{Enough};
ghost use Rattle.turn.specs.Turned.{Applied};

use layout::Memory;
use rules::{ALL_SLOTS, Capability, MAILBOXES, Message};

pub fn store(mem: &mut [u32], f: u32, w: u32, v: u32)
    requires { Enough mem.old }
    ensures { (visits : ℕ) → Applied mem.old (Store f w v) mem.new visits visits }
{
    layout::set_word(mem, f, w, v);
}

pub fn ring(mem: &mut [u32], b: u32, badge: u32)
    requires { Enough mem.old }
    ensures { (visits : ℕ) → Applied mem.old (Ring b badge) mem.new visits visits }
{
    let v = Memory { words: mem }.bell(b) | badge;
    layout::set_bell(mem, b, v);
}

pub fn hush(mem: &mut [u32], b: u32)
    requires { Enough mem.old }
    ensures { (visits : ℕ) → Applied mem.old (Hush b) mem.new visits visits }
{
    layout::set_bell(mem, b, 0);
}

pub fn post(mem: &mut [u32], m: u32, g: Message, c: Capability, visits: &mut u32)
    requires enough { Enough mem.old }
    requires visits_left { visits.old < 8 }
    ensures { Applied mem.old (Post m g c) mem.new visits.old visits.new }
{
    if m < MAILBOXES {
        layout::place(mem, ALL_SLOTS + m, c, visits);
        layout::set_message(mem, m, g);
    }
}

pub fn take(mem: &mut [u32], m: u32, visits: &mut u32)
    requires enough { Enough mem.old }
    requires visits_left { visits.old < 8 }
    ensures { Applied mem.old (Take m) mem.new visits.old visits.new }
{
    post(mem, m, Message::NONE, Capability::NOTHING, visits);
}

pub fn move_to(mem: &mut [u32], m: u32, p: u32, visits: &mut u32)
    requires enough { Enough mem.old }
    requires p_in_range { p < places }
    requires visits_left { visits.old < 4 }
    ensures { Applied mem.old (Move m p) mem.new visits.old visits.new }
{
    if m < MAILBOXES {
        let under = Memory { words: mem }.see(ALL_SLOTS + m, visits);
        take(mem, m, visits);
        layout::place(mem, p, under, visits);
    }
}
