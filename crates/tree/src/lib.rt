// The sweeps over the places: DELETE's, which hands sources on, and REVOKE's, which mark what is derived from a place and empty it. What a
// place holds is read and written through layout, which counts the visit. Source number q + 1 is place q, and 0 is no source. Places are
// gone through by their numbers, since layout alone has the memory.
#![tactic(auto)]

ghost use Rattle.std.specs.Prelude.{◌≡◌, cond, ◌+◌, ◌*◌, ◌≤◌, ◌<◌};
ghost use Rattle.rules.specs.Sizes.{places};
ghost use Rattle.rules.specs.State.{Sound};
ghost use Rattle.layout.specs.Layout.{state_of, Enough, visits_most};
ghost use Rattle.layout.specs.Stored.{Stored};
ghost use Rattle.tree.specs.Tree.{places_of, dropping, pruning, handing, drop_visits, prune_visits};
ghost use Rattle.tree.specs.Marks.{Marks, Swept, Closed, chosen, to_empty, clearing, emptying};
ghost use Rattle.tree.specs.Sweeps.{marking, marks_to, root_mark, Searched, PruneVisits};

use layout::{Memory, hand_over, place};
use rules::{Capability, PLACES};

// A source number is 0 or a place's number and one.
const SOURCES: usize = PLACES as usize + 1;

// A visit to each place: where it has source number x it gets source number y. Each is stored to, so that this can be vector code.
fn hand_all(mem: &mut [u32], x: u32, y: u32, visits: &mut u32)
    requires enough { Enough mem.old }
    requires visits_left { visits.old + places ≤ visits_most }
    ensures visits { visits.new ≡ visits.old + places }
    ensures stored { Stored Unit (handing places x y) mem.old mem.new }
{
    for child in 0..PLACES {
        hand_over(mem, child, x, y, visits);
    }
}

// DELETE of place p: whatever has p as its source gets p's source instead; then p is empty. Exact on any memory.
pub fn drop_place(mem: &mut [u32], p: u32, visits: &mut u32)
    requires enough { Enough mem.old }
    requires p_in_range { p < places }
    requires visits_left { visits.old < 8 }
    ensures visits { visits.new ≡ visits.old + drop_visits }
    ensures stored { Stored (p < places) (dropping p) mem.old mem.new }
{
    let source = Memory { words: mem }.source_of(p, visits);
    hand_all(mem, p + 1, source, visits);
    place(mem, p, Capability::NOTHING, visits);
}

// What REVOKE has found: 1 at each source number that is marked and 0 at any other, and how many are marked.
#[derive(Drop)]
struct Found {
    marks: [u8; SOURCES],
    count: u32,
    ghost right: { Marks count marks },
}

// One visit: place to is marked where its source is.
fn mark(memory: &Memory<'_>, found: &mut Found, to: u32, visits: &mut u32)
    requires to_in_range { to < places }
    requires visits_left { visits.old < visits_most }
    ensures visits { visits.new ≡ visits.old + 1 }
    ensures swept { Swept (places_of memory.now.words.now) to (to + 1) found.old.count found.old.marks found.new.count found.new.marks }
    ensures marked { found.new.marks ≡ marking (places_of memory.now.words.now) to found.old.marks }
{
    let from = memory.source_of(to, visits) as usize;
    let i = to as usize + 1;
    if from < SOURCES && found.marks[from] == 1 && found.marks[i] == 0 {
        found.marks[i] = 1;
        found.count += 1;
    }
}

// A visit to each place: it is marked where its source is.
fn sweep(memory: &Memory<'_>, found: &mut Found, visits: &mut u32)
    requires visits_left { visits.old + places ≤ visits_most }
    ensures visits { visits.new ≡ visits.old + places }
    ensures swept { Swept (places_of memory.now.words.now) 0 places found.old.count found.old.marks found.new.count found.new.marks }
    ensures marked { found.new.marks ≡ marks_to (places_of memory.now.words.now) places found.old.marks }
{
    for to in 0..PLACES {
        mark(memory, found, to, visits);
    }
}

// Place p is marked, and nothing else.
fn root(p: u32) -> Found
    requires p_in_range { p < places }
    ensures count { result.count ≡ 1 }
    ensures marks { result.marks ≡ root_mark p }
{
    let mut found = Found {
        marks: [0; SOURCES],
        count: 1,
    };
    found.marks[p as usize + 1] = 1;
    found
}

// Marks place p and whatever is derived from it, by sweeps until one makes no mark. Each sweep but the last makes one at least, and p's was
// there before the first: there are no more sweeps than places. The visits are exactly those of the sweeps.
fn mark_derived(memory: &Memory<'_>, p: u32, visits: &mut u32) -> Found
    requires p_in_range { p < places }
    requires visits_left { visits.old ≤ 1 }
    ensures within { visits.new ≤ visits.old + places * places }
    ensures closed { Closed (places_of memory.now.words.now) p result.marks }
    ensures searched { Searched (places_of memory.now.words.now) (root_mark p) result.marks visits.old visits.new }
{
    let mut found = root(p);
    let mut before = 0;
    while before < found.count {
        before = found.count;
        sweep(memory, &mut found, visits);
    }
    found
}

// Place q is empty where it is marked and is not p: one visit then, else none.
fn clear(mem: &mut [u32], found: &Found, p: u32, q: u32, visits: &mut u32)
    requires enough { Enough mem.old }
    requires q_in_range { q < places }
    requires visits_left { visits.old < visits_most }
    ensures visits { visits.new ≡ visits.old + cond (chosen found.now.marks p q) 1 0 }
    ensures stored { Stored Unit (clearing found.now.marks p q) mem.old mem.new }
{
    if found.marks[q as usize + 1] == 0 {
        return;
    }
    if q == p {
        return;
    }
    place(mem, q, Capability::NOTHING, visits);
}

// Each marked place but p is empty: a visit to each of these.
fn clear_marked(mem: &mut [u32], found: &Found, p: u32, visits: &mut u32)
    requires enough { Enough mem.old }
    requires visits_left { visits.old + places < visits_most }
    ensures visits { visits.new ≡ visits.old + to_empty found.now.marks p places }
    ensures stored { Stored Unit (emptying places found.now.marks p) mem.old mem.new }
{
    for q in 0..PLACES {
        clear(mem, found, p, q, visits);
    }
}

// REVOKE of place p: every place derived from p is empty. Exact on sound memory; on any memory it ends, its visits are exactly those of the
// sweeps and of what is emptied, and within the limit.
pub fn prune(mem: &mut [u32], p: u32, visits: &mut u32)
    requires enough { Enough mem.old }
    requires p_in_range { p < places }
    requires visits_left { visits.old ≤ 1 }
    ensures within { visits.new ≤ visits.old + prune_visits }
    ensures stored { Stored (Sound (state_of mem.old)) (pruning p) mem.old mem.new }
    ensures counted { PruneVisits (places_of mem.old) p visits.old visits.new }
{
    let found = mark_derived(&Memory { words: mem }, p, visits);
    clear_marked(mem, &found, p, visits);
}
