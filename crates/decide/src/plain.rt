// The operations on frames, bells and a domain's own slots.
ghost use Rattle.std.specs.Prelude.{◌≡◌, cond, ◌<◌, eqb};
ghost use Rattle.rules.specs.Sizes.{all_slots};
ghost use Rattle.rules.specs.Turn.{load as load_rule, store as store_rule, derived as derived_rule, derive as derive_rule, delete as delete_rule, revoke as revoke_rule, ring as ring_rule, hear as hear_rule, look as look_rule};
ghost use Rattle.layout.specs.Layout.{state_of};
ghost use Rattle.look.specs.Looks.{Decides, Looks, done_by, seen};
ghost use Rattle.decide.specs.Visits.{word_for, looks_derive};

use look::{Acting, done};
use rules::{
    Answer, BADGE_MOST, Capability, Decision, Effect, FRAME_WORDS, Kind, READ, Refusal, SLOTS,
    WRITE,
};

pub fn idle() -> Decision
    ensures { result ≡ done_by Effect.Nothing 0 }
{
    done(Effect::Nothing, 0)
}

// Slot x for a frame with that right, and w one of its words: at most one visit.
fn word_for(
    who: &Acting<'_>,
    x: u32,
    w: u32,
    right: u32,
    visits: &mut u32,
) -> Result<Capability, Refusal>
    requires visits_left { visits.old < 8 }
    ensures { Looks result visits.new (state_of who.now.memory.words.now) who.now.domain x (word_for (state_of who.now.memory.words.now) who.now.domain x w right) visits.old }
{
    let c = who.slot_for(x, Kind::Frame, right, visits)?;
    if w < FRAME_WORDS {
        Ok(c)
    } else {
        Err(Refusal::OutOfRange)
    }
}

pub fn load(who: &Acting<'_>, x: u32, w: u32, visits: &mut u32) -> Result<Decision, Refusal>
    requires visits_left { visits.old < 4 }
    ensures { Decides result visits.new (load_rule (state_of who.now.memory.words.now) who.now.domain x w) visits.old (seen x) }
{
    let c = word_for(who, x, w, READ, visits)?;
    Ok(done(Effect::Nothing, who.memory.word(c.object, w)))
}

pub fn store(
    who: &Acting<'_>,
    x: u32,
    w: u32,
    v: u32,
    visits: &mut u32,
) -> Result<Decision, Refusal>
    requires visits_left { visits.old < 4 }
    ensures { Decides result visits.new (store_rule (state_of who.now.memory.words.now) who.now.domain x w v) visits.old (seen x) }
{
    let c = word_for(who, x, w, WRITE, visits)?;
    Ok(done(Effect::Store(c.object, w, v), 0))
}

// The badge of c if that isn't 0, else b.
fn badge(c: u32, b: u32) -> u32
    ensures { result ≡ cond (eqb c 0) b c }
{
    if c == 0 { b } else { c }
}

// What DERIVE makes of c, which stands at that place.
fn derived(c: Capability, place: u32, r: u32, b: u32) -> Capability
    requires { place < all_slots }
    ensures { result ≡ derived_rule c place r b }
{
    Capability {
        kind: c.kind,
        rights: c.rights & r,
        object: c.object,
        badge: badge(c.badge, b),
        source: place + 1,
    }
}

pub fn derive(
    who: &Acting<'_>,
    x: u32,
    t: u32,
    r: u32,
    b: u32,
    visits: &mut u32,
) -> Result<Decision, Refusal>
    requires visits_left { visits.old < 4 }
    ensures { Decides result visits.new (derive_rule (state_of who.now.memory.words.now) who.now.domain x t r b) visits.old (looks_derive (state_of who.now.memory.words.now) who.now.domain x t) }
{
    let c = who.any_slot(x, visits)?;
    if t >= SLOTS {
        return Err(Refusal::NoSlot);
    }
    let place = who.domain * SLOTS + t;
    if who.memory.see(place, visits).kind != 0 {
        return Err(Refusal::TakenSlot);
    }
    if b > BADGE_MOST {
        return Err(Refusal::OutOfRange);
    }
    let made = derived(c, who.domain * SLOTS + x, r, b);
    Ok(done(Effect::Put(place, made), 0))
}

pub fn delete(who: &Acting<'_>, x: u32, visits: &mut u32) -> Result<Decision, Refusal>
    requires visits_left { visits.old < 4 }
    ensures { Decides result visits.new (delete_rule (state_of who.now.memory.words.now) who.now.domain x) visits.old (seen x) }
{
    who.any_slot(x, visits)?;
    Ok(done(Effect::Drop(who.domain * SLOTS + x), 0))
}

pub fn revoke(who: &Acting<'_>, x: u32, visits: &mut u32) -> Result<Decision, Refusal>
    requires visits_left { visits.old < 4 }
    ensures { Decides result visits.new (revoke_rule (state_of who.now.memory.words.now) who.now.domain x) visits.old (seen x) }
{
    who.any_slot(x, visits)?;
    Ok(done(Effect::Prune(who.domain * SLOTS + x), 0))
}

pub fn ring(who: &Acting<'_>, x: u32, visits: &mut u32) -> Result<Decision, Refusal>
    requires visits_left { visits.old < 4 }
    ensures { Decides result visits.new (ring_rule (state_of who.now.memory.words.now) who.now.domain x) visits.old (seen x) }
{
    let c = who.slot_for(x, Kind::Bell, WRITE, visits)?;
    Ok(done(Effect::Ring(c.object, c.badge), 0))
}

pub fn hear(who: &Acting<'_>, x: u32, visits: &mut u32) -> Result<Decision, Refusal>
    requires visits_left { visits.old < 4 }
    ensures { Decides result visits.new (hear_rule (state_of who.now.memory.words.now) who.now.domain x) visits.old (seen x) }
{
    let c = who.slot_for(x, Kind::Bell, READ, visits)?;
    Ok(done(Effect::Hush(c.object), who.memory.bell(c.object)))
}

pub fn look(who: &Acting<'_>, x: u32, visits: &mut u32) -> Result<Decision, Refusal>
    requires visits_left { visits.old < 4 }
    ensures { Decides result visits.new (look_rule (state_of who.now.memory.words.now) who.now.domain x) visits.old (seen x) }
{
    let c = who.any_slot(x, visits)?;
    Ok(Decision {
        effect: Effect::Nothing,
        answer: Answer::of(c.kind, c.rights, c.object, c.badge, 0, 0),
    })
}
