// Document 03: what a domain could ever hold, and what may flow where. Rows, cells and objects are gone through by their numbers, as the
// relations of the specs count them.
#![tactic(auto)]

ghost use Rattle.std.specs.Prelude.{◌≡◌, ℕ, ◌+◌, ◌*◌, ◌^◌, ◌≤◌, ◌<◌, length};
ghost use Rattle.rules.specs.Sizes.{domains_most, mailboxes};
ghost use Rattle.rules.specs.Refusal.{status_of};
ghost use Rattle.rules.specs.Image.{size_d, size_c, image_of};
ghost use Rattle.rules.specs.Flow.{triple_of, CouldHold};
ghost use Rattle.image.specs.Said.{said};
ghost use Rattle.flow.specs.Masks.{In, row, Meeting, United, Taken, Spread, Themselves};
ghost use Rattle.flow.specs.Edges.{Users, Link, Source, Added, Joined, Closing, Whole};
ghost use Rattle.flow.specs.Answer.{Says, Tested, Held, Flows};
ghost use Rattle.flow.specs.Cells.{rights_all, objects_all, cells_all, number_of, cell_of, entry_numbered, Listed, Noted, total as total_of, Passed, Reach};

use image::{Accepted, Fields};
use rules::{DOMAINS_MOST, Kind, Refusal};

const DOMAINS: usize = DOMAINS_MOST as usize;

const MAILBOXES: usize = rules::MAILBOXES as usize;

// Where the mailboxes and the bells begin among the objects of all kinds, and how many objects there are. Frames come first.
const MAILBOX_FIRST: usize = rules::FRAMES_MOST as usize;

const BELL_FIRST: usize = MAILBOX_FIRST + MAILBOXES;

const OBJECTS: usize = BELL_FIRST + rules::BELLS as usize;

// The sets of rights: a cell for each object and set.
const RIGHTS: usize = 8;

const CELLS: usize = OBJECTS * RIGHTS;

// Masks of sets of rights: those with READ, those with WRITE, and those with both WRITE and GRANT.
const READING: u32 = 170;

const WRITING: u32 = 204;

const GRANTING: u32 = 192;

// The mask of one domain.
fn one(d: usize) -> u32
    requires { d < 16 }
    ensures { result ≡ 2 ^ d }
{
    1 << d
}

// One cell more: what it has is in the mask where it is chosen.
fn unite(cells: &[u32], first: usize, k: usize, which: u32, r: u32) -> u32
    requires cell_in_range { first + k < length cells.now }
    requires k_in_range { k < domains_most }
    requires united { United cells.now first k which r }
    ensures { United cells.now first (k + 1) which result }
{
    let digit = (which >> k) % 2;
    if digit == 1 {
        return r | cells[first + k];
    }
    r
}

// What those of n cells that are chosen have together.
fn united(cells: &[u32], first: usize, n: usize, which: u32) -> u32
    requires cells_long_enough { first + n ≤ length cells.now }
    requires n_in_range { n ≤ domains_most }
    ensures { United cells.now first n which result }
{
    let mut r = 0;
    for k in 0..n {
        r = unite(cells, first, k, which, r);
    }
    r
}

// 1 or 0 into each of d rows of n bytes, by a test of its row and its place there.
fn fill<F: Fn(usize, usize) -> bool>(out: &mut [u8], d: usize, n: usize, test: F)
    requires out_long_enough { d * n ≤ length out.old }
    requires testable { (x y : ℕ) → x < d → y < n → F.pre test x y }
    ensures { Tested (F.post test) n (d * n) out.old out.new }
{
    for (k, byte) in out[..d * n].iter_mut().enumerate() {
        *byte = u8::from(test(k / n, k % n));
    }
}

// A mask for each domain.
#[derive(Drop)]
struct Rows([u32; DOMAINS]);

impl Rows {
    // Each domain has itself alone.
    fn themselves() -> Rows
        ensures { Themselves result.0 }
    {
        Rows([
            1, 2, 4, 8, 16, 32, 64, 128, 256, 512, 1024, 2048, 4096, 8192, 16384, 32768,
        ])
    }

    // One row more: it is in the mask where it meets the other.
    fn meet(&self, mask: u32, a: usize, r: u32) -> u32
        requires a_in_range { a < domains_most }
        requires meeting { Meeting self.now.0 mask a r }
        ensures { Meeting self.now.0 mask (a + 1) result }
    {
        let both = self.0[a] & mask;
        if both == 0 {
            return r;
        }
        r | one(a)
    }

    // The rows that meet a mask.
    fn meeting(&self, mask: u32) -> u32
        ensures { Meeting self.now.0 mask domains_most result }
    {
        let mut r = 0;
        for a in 0..DOMAINS {
            r = self.meet(mask, a, r);
        }
        r
    }

    // One row more: it takes a mask in where it is chosen.
    fn take(&mut self, which: u32, what: u32, a: usize)
        requires { a < domains_most }
        ensures { Taken which what a self.old.0 self.new.0 }
    {
        let digit = (which >> a) % 2;
        if digit == 1 {
            self.0[a] |= what;
        }
    }

    // The rows that are chosen take a mask in.
    fn spread(&mut self, which: u32, what: u32)
        ensures { Spread which what domains_most self.old.0 self.new.0 }
    {
        for a in 0..DOMAINS {
            self.take(which, what, a);
        }
    }

    // The sum of the rows, as numbers.
    fn total(&self) -> u64
        ensures { (result ≡ total_of self.now.0) × (result ≤ 4294967295 * domains_most) }
    {
        let mut t = 0;
        for row in &self.0 {
            t += u64::from(*row);
        }
        t
    }

    // Whoever flows to k flows to where k flows.
    fn join(&mut self, k: usize)
        requires { k < domains_most }
        ensures { Joined k self.old.0 self.new.0 }
    {
        let to = self.0[k];
        let from = self.meeting(one(k));
        self.spread(from, to);
    }

    // The same over each domain, one after the other.
    fn close(&mut self)
        ensures { Closing domains_most self.old.0 self.new.0 }
    {
        for k in 0..DOMAINS {
            self.join(k);
        }
    }

    // Whether y is in row x.
    fn has(&self, x: usize, y: usize) -> bool
        requires { (x < domains_most) × (y < domains_most) }
        ensures { Says result (In y (row self.now.0 x)) }
    {
        (self.0[x] >> y) % 2 == 1
    }
}

// ---- the image's entries

// Entry number i, whose fields are in range.
fn entry(accepted: &Accepted, i: u32) -> Fields
    requires { i < size_c accepted.now.image.bytes.now }
    ensures { Listed accepted.now.image.bytes.now i result }
{
    accepted.image.entry(i)
}

// The number of an object among those of all kinds.
fn number(kind: u32, object: u32) -> usize
    requires { object < 65536 }
    ensures { result ≡ number_of kind object }
{
    let x = object as usize;
    // Compared as numbers: by a match on Kind::try_from the proof of the last case did not close.
    if kind == Kind::Frame.number() {
        return x;
    }
    if kind == Kind::Mailbox.number() {
        return MAILBOX_FIRST + x;
    }
    BELL_FIRST + x
}

// The cell of an entry's triple.
fn cell(e: Fields) -> usize
    requires object_in_range { e.object < 65536 }
    requires rights_in_range { e.rights < rights_all }
    requires number_in_range { number_of e.kind e.object < objects_all }
    ensures { (result ≡ cell_of (triple_of (said e))) × (result < cells_all) }
{
    number(e.kind, e.object) * RIGHTS + e.rights as usize
}

// A mask for each object and set of rights: the domains to which an entry gives exactly that.
#[derive(Drop)]
struct Cells([u32; CELLS]);

impl Cells {
    // One entry more: its domain is in its cell.
    fn note(&mut self, accepted: &Accepted, i: u32)
        requires i_in_range { i < size_c accepted.now.image.bytes.now }
        requires noted { Noted accepted.now.image.bytes.now i self.old.0 }
        ensures { Noted accepted.now.image.bytes.now (i + 1) self.new.0 }
    {
        let e = entry(accepted, i);
        let x = cell(e);
        let d = one(e.domain as usize);
        self.0[x] |= d;
    }

    // Each entry's domain is in its cell.
    fn notes(&mut self, accepted: &Accepted)
        requires { Noted accepted.now.image.bytes.now 0 self.old.0 }
        ensures { Noted accepted.now.image.bytes.now (size_c accepted.now.image.bytes.now) self.new.0 }
    {
        for i in 0..accepted.image.header.entries {
            self.note(accepted, i);
        }
    }

    // What has object o with one of those sets of rights.
    fn united(&self, o: usize, rights: u32) -> u32
        requires { o < objects_all }
        ensures { United self.now.0 (o * rights_all) rights_all rights result }
    {
        united(&self.0, o * RIGHTS, RIGHTS, rights)
    }

    // Rule 2 over mailbox m: those that could hold it with READ take in what those have together that could hold it with WRITE and GRANT.
    fn pass(&self, rows: &mut Rows, m: usize)
        requires { m < mailboxes }
        ensures { Passed self.now.0 m (m + 1) rows.old.0 rows.new.0 }
    {
        let grants = self.united(MAILBOX_FIRST + m, GRANTING);
        let senders = rows.meeting(grants);
        let what = united(&rows.0, 0, DOMAINS, senders);
        let reads = self.united(MAILBOX_FIRST + m, READING);
        let receivers = rows.meeting(reads);
        rows.spread(receivers, what);
    }

    // Rule 2 over each mailbox once.
    fn round(&self, rows: &mut Rows)
        ensures { Passed self.now.0 0 mailboxes rows.old.0 rows.new.0 }
    {
        for m in 0..MAILBOXES {
            self.pass(rows, m);
        }
    }

    // Rule 2 until a round adds nothing. Each but the last makes the sum of the rows greater.
    fn reach(&self, rows: &mut Rows)
        requires { Themselves rows.old.0 }
        ensures { Reach self.now.0 rows.new.0 }
    {
        let mut before = 0;
        let mut after = rows.total();
        while before < after {
            self.round(rows);
            before = after;
            after = rows.total();
        }
    }

    // The domains that could hold object o with one of those rights.
    fn users(&self, rows: &Rows, o: usize, rights: u32) -> u32
        requires { o < objects_all }
        ensures { Users self.now.0 rows.now.0 o rights result }
    {
        rows.meeting(self.united(o, rights))
    }

    // Direct flow over object o. A frame: from writers to readers. A mailbox: from writers and readers to writers and readers. A bell: from
    // writers to readers, who ring and hear, and from readers to readers.
    fn link(&self, rows: &Rows, flows: &mut Rows, o: usize)
        requires { o < objects_all }
        ensures { Added (Link self.now.0 rows.now.0) o (o + 1) flows.old.0 flows.new.0 }
    {
        let writers = self.users(rows, o, WRITING);
        let readers = self.users(rows, o, READING);
        if o < MAILBOX_FIRST {
            flows.spread(writers, readers);
            return;
        }
        let both = writers | readers;
        if o < BELL_FIRST {
            flows.spread(both, both);
            return;
        }
        flows.spread(both, readers);
    }

    // Direct flow over each object.
    fn links(&self, rows: &Rows, flows: &mut Rows)
        ensures { Added (Link self.now.0 rows.now.0) 0 objects_all flows.old.0 flows.new.0 }
    {
        for o in 0..OBJECTS {
            self.link(rows, flows, o);
        }
    }
}

// ---- what a domain could hold

// The cells of an accepted image, from none, and the rows that rule 2 reaches from them: with whom each domain's capabilities may come to be.
// The caller lends both, so that the cells stand in memory once.
fn holders(accepted: &Accepted, cells: &mut Cells, rows: &mut Rows)
    requires none { Noted accepted.now.image.bytes.now 0 cells.old.0 }
    requires themselves { Themselves rows.old.0 }
    ensures noted { Noted accepted.now.image.bytes.now (size_c accepted.now.image.bytes.now) cells.new.0 }
    ensures reach { Reach cells.new.0 rows.new.0 }
{
    cells.notes(accepted);
    cells.reach(rows);
}

// Whether domain d could hold the triple of entry i.
#[tactic(auto, using(crate::proofs::Answers::held_says, crate::proofs::Entries::accepted_law))]
fn held(accepted: &Accepted, cells: &Cells, rows: &Rows, d: usize, i: u32) -> bool
    requires noted { Noted accepted.now.image.bytes.now (size_c accepted.now.image.bytes.now) cells.now.0 }
    requires reach { Reach cells.now.0 rows.now.0 }
    requires d_in_range { d < domains_most }
    requires i_in_range { i < size_c accepted.now.image.bytes.now }
    ensures { Says result (CouldHold (image_of accepted.now.image.bytes.now) d (triple_of (entry_numbered accepted.now.image.bytes.now i))) }
{
    let x = cell(entry(accepted, i));
    rows.0[d] & cells.0[x] != 0
}

// What the image's domains could hold: byte d * C + e of out is 1 where domain d could hold the triple of entry number e, and 0 where not.
// Out that is shorter than D * C is refused with 28; a refusal leaves it.
#[tactic(auto, using(crate::proofs::Entries::accepted_law))]
pub fn could_hold(image: &[u8], out: &mut [u8]) -> Result<(), Refusal>
    ensures { Held image.now out.old (status_of result) out.new }
{
    let accepted = Accepted::of(image)?;
    let d = accepted.image.header.domains as usize;
    let n = accepted.image.header.entries as usize;
    if out.len() < d * n {
        return Err(Refusal::BufferShort);
    }
    let mut cells = Cells([0; CELLS]);
    let mut rows = Rows::themselves();
    holders(&accepted, &mut cells, &mut rows);
    fill(
        out,
        d,
        n,
        |x, y| held(&accepted, &cells, &rows, x, y as u32),
    );
    Ok(())
}

// ---- flow

// Direct flow from the domain of entry i's source to the domain of the entry. Without a source the source's domain is 255.
fn derive(accepted: &Accepted, flows: &mut Rows, i: u32)
    requires { i < size_c accepted.now.image.bytes.now }
    ensures { Added (Source accepted.now.image.bytes.now) i (i + 1) flows.old.0 flows.new.0 }
{
    let e = entry(accepted, i);
    if e.source_domain < DOMAINS_MOST {
        let from = one(e.source_domain as usize);
        let to = one(e.domain as usize);
        flows.spread(from, to);
    }
}

// The same for each entry.
fn derives(accepted: &Accepted, flows: &mut Rows)
    ensures { Added (Source accepted.now.image.bytes.now) 0 (size_c accepted.now.image.bytes.now) flows.old.0 flows.new.0 }
{
    for e in 0..accepted.image.header.entries {
        derive(accepted, flows, e);
    }
}

// What may flow where, from rows that have themselves alone.
fn weave(accepted: &Accepted, flows: &mut Rows)
    requires { Themselves flows.old.0 }
    ensures { Whole accepted.now.image.bytes.now flows.new.0 }
{
    let mut cells = Cells([0; CELLS]);
    let mut rows = Rows::themselves();
    holders(accepted, &mut cells, &mut rows);
    cells.links(&rows, flows);
    derives(accepted, flows);
    flows.close();
}

// What may flow where: byte x * D + y of out is 1 where there is a flow from domain x to domain y, and 0 where not. Out that is shorter than
// D * D is refused with 28; a refusal leaves it.
#[tactic(auto, using(crate::proofs::Entries::accepted_law))]
pub fn flow(image: &[u8], out: &mut [u8]) -> Result<(), Refusal>
    ensures { Flows image.now out.old (status_of result) out.new }
{
    let accepted = Accepted::of(image)?;
    let n = accepted.image.header.domains as usize;
    if out.len() < n * n {
        return Err(Refusal::BufferShort);
    }
    let mut flows = Rows::themselves();
    weave(&accepted, &mut flows);
    fill(out, n, n, |x, y| flows.has(x, y));
    Ok(())
}
