// The checks of the operations on mailboxes, SEND and RECEIVE: they read memory and give an effect and an answer.
#![tactic(auto)]

ghost use Rattle.std.specs.Prelude.{◌≡◌, ◌<◌};
ghost use Rattle.rules.specs.Sizes.{all_slots, mailboxes};
ghost use Rattle.rules.specs.Turn.{send as send_rule, receive as receive_rule, copied as copied_rule};
ghost use Rattle.layout.specs.Layout.{state_of};
ghost use Rattle.look.specs.Looks.{Decides};
ghost use Rattle.mail.specs.Mail.{Carries, Moves, message_of, effect_for, flag_for, looks_send, looks_receive};

use look::{Acting, done};
use rules::{
    ALL_SLOTS, Answer, Capability, Decision, Effect, GRANT, Kind, Message, Operation, READ,
    Refusal, SLOTS, WRITE,
};

// The message that SEND makes of its operation, under that badge.
fn written(op: Operation, badge: u32) -> Message
    ensures { result ≡ message_of op badge }
{
    Message {
        full: 1,
        badge,
        w0: op.third,
        w1: op.fourth,
        w2: op.fifth,
        w3: op.sixth,
    }
}

// A copy of c, with its place as source.
fn copied(c: Capability, place: u32) -> Capability
    requires { place < all_slots }
    ensures { result ≡ copied_rule c place }
{
    Capability {
        source: place + 1,
        ..c
    }
}

// What goes along from slot c in a SEND by a capability with those rights: nothing where c is 64. At most one visit.
fn along(who: &Acting<'_>, c: u32, rights: u32, visits: &mut u32) -> Result<Capability, Refusal>
    requires visits_left { visits.old < 8 }
    ensures { Carries result visits.new (state_of who.now.memory.words.now) who.now.domain c rights visits.old }
{
    if c > SLOTS {
        return Err(Refusal::NoSlot);
    }
    if c == SLOTS {
        return Ok(Capability::NOTHING);
    }
    if (GRANT & rights) != GRANT {
        return Err(Refusal::NoRight);
    }
    let place = who.domain * SLOTS + c;
    let held = who.memory.see(place, visits);
    if held.kind == 0 {
        return Err(Refusal::EmptySlot);
    }
    Ok(copied(held, place))
}

pub fn send(who: &Acting<'_>, op: Operation, visits: &mut u32) -> Result<Decision, Refusal>
    requires visits_left { visits.old < 4 }
    ensures { Decides result visits.new (send_rule (state_of who.now.memory.words.now) who.now.domain op.first op.second op.third op.fourth op.fifth op.sixth) visits.old (looks_send (state_of who.now.memory.words.now) who.now.domain op.first op.second) }
{
    let s = who.slot_for(op.first, Kind::Mailbox, WRITE, visits)?;
    let c = along(who, op.second, s.rights, visits)?;
    if who.memory.message(s.object).full != 0 {
        return Err(Refusal::MailboxFull);
    }
    Ok(done(Effect::Post(s.object, written(op, s.badge), c), 0))
}

// Where the capability under way in mailbox m moves to, for slot argument t: nowhere where there is none, or t is no empty slot. At most
// two visits.
fn moves_to(who: &Acting<'_>, m: u32, t: u32, visits: &mut u32) -> Option<u32>
    requires m_in_range { m < mailboxes }
    requires visits_left { visits.old < 8 }
    ensures { Moves result visits.new (state_of who.now.memory.words.now) who.now.domain m t visits.old }
{
    if t >= SLOTS {
        return None;
    }
    if who.memory.see(ALL_SLOTS + m, visits).kind == 0 {
        return None;
    }
    let place = who.domain * SLOTS + t;
    if who.memory.see(place, visits).kind != 0 {
        return None;
    }
    Some(place)
}

// What RECEIVE from mailbox m does, where what is under way moves there; and the flag that says whether a capability came along.
fn taken(m: u32, to: Option<u32>) -> (Effect, u32)
    ensures { (result.0 ≡ effect_for m to) × (result.1 ≡ flag_for to) }
{
    match to {
        Some(place) => (Effect::Move(m, place), 1),
        None => (Effect::Take(m), 0),
    }
}

pub fn receive(who: &Acting<'_>, x: u32, t: u32, visits: &mut u32) -> Result<Decision, Refusal>
    requires visits_left { visits.old < 4 }
    ensures { Decides result visits.new (receive_rule (state_of who.now.memory.words.now) who.now.domain x t) visits.old (looks_receive (state_of who.now.memory.words.now) who.now.domain x t) }
{
    let m = who.slot_for(x, Kind::Mailbox, READ, visits)?.object;
    if t > SLOTS {
        return Err(Refusal::NoSlot);
    }
    let g = who.memory.message(m);
    if g.full == 0 {
        return Err(Refusal::MailboxEmpty);
    }
    let (effect, flag) = taken(m, moves_to(who, m, t, visits));
    Ok(Decision {
        effect,
        answer: Answer::of(g.badge, g.w0, g.w1, g.w2, g.w3, flag),
    })
}
