// What is read off the log of one principal's facts: the derivation of a fact.
#![tactic(auto)]

ghost use Rattle.std.specs.Prelude.{◌≡◌, ◌+◌, ◌<◌, ◌≤◌, length, get_or, set};
ghost use Rattle.std.proofs.lemmas.List.Edits.{sets};
ghost use Rattle.logic.specs.Step.{numbers_in};
ghost use Rattle.facts.specs.Block.{mode_of, place_in};
ghost use Rattle.derive.specs.Log.{instance_at, instances};
ghost use Rattle.logic.proofs.Steps.{step_bytes};
ghost use Rattle.derive.specs.Written.{writing_of, SameMemory};
ghost use Rattle.derive.specs.Steps.{table_size, blank, premises_for, wants, want_all, wanted_by, wanted, kept, first_number, step_number, step_with, steps_of, derivation, Writes, entry_written, mode_byte, other_in};

use facts::{Cell, Instance};

// The log of one principal's facts, of so many entries: entry k stands at byte 8 × k.
#[derive(Clone, Copy)]
pub struct Log<'a> {
    pub bytes: &'a [u8],
    pub count: u16,
}

impl Log<'_> {
    // Entry k: the instance that found its fact.
    #[tactic(auto, unfolding(crate::specs::Log::instance_at))]
    fn entry(&self, k: u16) -> Instance
        ensures { result ≡ instance_at self.now.bytes.now k }
    {
        let at = usize::from(k) * 8;
        Instance {
            kind: format::byte(self.bytes, at + 2),
            first: Cell {
                formula: format::byte(self.bytes, at + 4),
                bit: format::byte(self.bytes, at + 5),
            },
            second: Cell {
                formula: format::byte(self.bytes, at + 6),
                bit: format::byte(self.bytes, at + 7),
            },
            gives: Cell {
                formula: format::byte(self.bytes, at),
                bit: format::byte(self.bytes, at + 1),
            },
        }
    }
}

// The place among those of its formula that a bit has, with p principals.
#[tactic(auto, unfolding(facts::specs::Block::mode_of))]
fn mode_in(p: u8, b: u8) -> usize
    ensures { (result ≡ mode_of p b) × (result ≤ 502) }
{
    if b < facts::BELIEVED {
        usize::from(b)
    } else {
        usize::from(b - facts::BELIEVED) + (3 + usize::from(p))
    }
}

// The place of a fact in the principal's block.
#[tactic(auto, unfolding(facts::specs::Block::place_in))]
pub fn place_in(p: u8, q: Cell) -> usize
    ensures { result ≡ place_in p q }
{
    usize::from(q.formula) * (3 + 2 * usize::from(p)) + mode_in(p, q.bit)
}

// Whether a fact is marked. The marks and the number of principals go along as two arguments, with no struct of both: one pass writes the marks and
// the next reads them, so there would be two structs, and the first would say in each contract that its memory is the same. That is no plainer.
#[tactic(auto, unfolding(crate::specs::Steps::wants))]
fn is_wanted(marks: &[u8], p: u8, q: Cell) -> bool
    ensures { result ≡ wants p marks.now q }
{
    format::byte(marks, place_in(p, q)) == 1
}

fn want(marks: &mut [u8], p: u8, q: Cell)
    ensures { marks.new ≡ set marks.old (place_in p q) 1 }
{
    let at = place_in(p, q);
    digits::put_byte(marks, at, 0, 1);
}

#[tactic(auto, unfolding(crate::specs::Steps::premises_for, crate::specs::Steps::want_all))]
fn want_premises(marks: &mut [u8], p: u8, i: Instance)
    ensures { marks.new ≡ want_all p marks.old (premises_for i) }
{
    if i.kind < facts::RULE_1 {
        return;
    }
    let n = steps::numbers_in(i.kind);
    if n == 0 {
        return;
    }
    want(marks, p, i.first);
    if n == 1 {
        return;
    }
    want(marks, p, i.second);
}

// Where what an entry found is wanted, so are its premises.
#[tactic(auto, unfolding(crate::specs::Steps::wanted_by))]
fn want_by(marks: &mut [u8], p: u8, i: Instance)
    ensures { marks.new ≡ wanted_by p marks.old i }
{
    if is_wanted(marks, p, i.gives) {
        want_premises(marks, p, i);
    }
}

// All that is wanted, with what is wanted at the start: backwards, since an entry's premises were found before it.
fn mark_wanted(log: &Log, p: u8, marks: &mut [u8])
    ensures { marks.new ≡ wanted p marks.old (instances log.now.bytes.now log.now.count) }
{
    for k in (0..log.count).rev() {
        want_by(marks, p, log.entry(k));
    }
}

// The mode byte of a fact with this bit.
#[tactic(auto, unfolding(crate::specs::Steps::mode_byte))]
fn mode_of(b: u8) -> u8
    ensures { result ≡ mode_byte b }
{
    if b < facts::SAID {
        b + 1
    } else if b < facts::BELIEVED {
        4
    } else {
        5
    }
}

// The principal whose log it is, by his formula number, and the formula numbers of all `principals` by rank.
#[derive(Clone, Copy)]
pub struct Holder<'a> {
    pub formula: u8,
    pub names: &'a [u8],
    pub principals: u8,
}

impl Holder<'_> {
    // The formula number of the principal of whom the fact is believed, or 0.
    #[tactic(auto, unfolding(crate::specs::Steps::other_in))]
    fn other_in(&self, b: u8) -> u8
        ensures { result ≡ other_in self.now.names.now b }
    {
        if b < facts::SAID {
            return 0;
        }
        if b < facts::BELIEVED {
            return format::byte(self.names, usize::from(b - facts::SAID));
        }
        format::byte(self.names, usize::from(b - facts::BELIEVED))
    }

    // The step of an entry, with its numbers a and b, at a place; the place behind it.
    fn write_step(&self, out: &mut [u8], at: usize, i: Instance, a: u16, b: u16) -> usize
        requires { at < 1000000 }
        ensures { (out.new ≡ sets out.old at (step_bytes (step_with self.now.names.now self.now.formula i a b)))
            × (result ≡ at + length (step_bytes (step_with self.now.names.now self.now.formula i a b))) × (result ≤ at + 12) }
    {
        let g = i.gives;
        let n = 8 + 2 * steps::numbers_in(i.kind);
        let mode = mode_of(g.bit);
        let other = self.other_in(g.bit);
        let x = g.formula;
        let [a_high, a_low] = a.to_be_bytes();
        let [b_high, b_low] = b.to_be_bytes();
        let step = [
            i.kind,
            mode,
            0,
            self.formula,
            0,
            other,
            0,
            x,
            a_high,
            a_low,
            b_high,
            b_low,
        ];
        digits::put_text(out, at, &step[..n]);
        at + n
    }
}

// How many steps are written, and how many bytes.
#[derive(Clone, Copy)]
pub struct Derived {
    pub steps: u16,
    pub bytes: usize,
}

// The steps that are written to the front of a buffer, the number of the step of each fact, and how many there are.
#[derive(Drop)]
struct Written<'a> {
    out: &'a mut [u8],
    numbers: &'a mut [u16],
    done: Derived,
}

impl Written<'_> {
    // The number of the step that states a fact.
    #[tactic(auto, unfolding(crate::specs::Steps::step_number))]
    fn number_of(&self, p: u8, q: Cell) -> u16
        ensures { result ≡ step_number p self.now.numbers.now q }
    {
        self.numbers.get(place_in(p, q)).copied().unwrap_or(0)
    }

    // The first number of a step: that of its assumption or message, or that of the step of its first premise.
    #[tactic(auto, unfolding(crate::specs::Steps::first_number))]
    fn first_number(&self, p: u8, i: Instance) -> u16
        ensures { result ≡ first_number p self.now.numbers.now i }
    {
        if i.kind < facts::RULE_1 {
            u16::from(i.first.formula)
        } else {
            self.number_of(p, i.first)
        }
    }

    // The number of a step, for the fact of a place.
    fn note(&mut self, place: usize, number: u16)
        ensures memory { SameMemory self.old self.new }
        ensures written { writing_of self.new ≡ record { out = self.old.out.now; numbers = set self.old.numbers.now place number; steps = self.old.done.steps; bytes = self.old.done.bytes } }
    {
        if place < self.numbers.len() {
            self.numbers[place] = number;
        }
    }

    // Writes an entry whose fact is marked as the next step, and notes its number.
    fn write_entry(&mut self, marks: &[u8], holder: &Holder, i: Instance)
        requires { (self.old.done.steps < 65535) × (self.old.done.bytes < 1000000) }
        ensures memory { SameMemory self.old self.new }
        ensures written { writing_of self.new ≡ entry_written holder.now.principals holder.now.names.now holder.now.formula marks.now (writing_of self.old) i }
        ensures few { (self.new.done.steps ≤ self.old.done.steps + 1) × (self.new.done.bytes ≤ self.old.done.bytes + 12) }
    {
        let p = holder.principals;
        if !is_wanted(marks, p, i.gives) {
            return;
        }
        let a = self.first_number(p, i);
        let b = self.number_of(p, i.second);
        self.done.bytes = holder.write_step(self.out, self.done.bytes, i, a, b);
        self.note(place_in(p, i.gives), self.done.steps);
        self.done.steps += 1;
    }
}

// The entries whose facts are marked, as steps at the front of the buffer. The table of step numbers is blank at first.
fn write_marked(
    log: &Log,
    holder: &Holder,
    marks: &[u8],
    numbers: &mut [u16],
    out: &mut [u8],
) -> Derived
    requires { numbers.old ≡ blank (length numbers.old) }
    ensures { Writes (steps_of (length numbers.old) holder.now.principals holder.now.names.now holder.now.formula (kept holder.now.principals marks.now (instances log.now.bytes.now log.now.count))) out.old out.new result.steps result.bytes }
{
    let mut written = Written {
        out,
        numbers,
        done: Derived { steps: 0, bytes: 0 },
    };
    for k in 0..log.count {
        written.write_entry(marks, holder, log.entry(k));
    }
    written.done
}

// The derivation, by two blank tables of N places: first the facts that the goal needs are marked, backwards over the log, then their
// entries are written, forwards. The tables are cleared in each proof, and to clear the large ones takes a good part of a short proof. So
// there is one function of two sizes, and only the tables that are used are cleared.
fn write_within<const N: usize>(log: &Log, holder: &Holder, goal: Cell, out: &mut [u8]) -> Derived
    requires { N ≤ 4864 }
    ensures { Writes (derivation N holder.now.principals holder.now.names.now holder.now.formula goal log.now.bytes.now log.now.count) out.old out.new result.steps result.bytes }
{
    let mut marks = [0u8; N];
    let mut numbers = [0u16; N];
    want(&mut marks, holder.principals, goal);
    mark_wanted(log, holder.principals, &mut marks);
    write_marked(log, holder, &marks, &mut numbers, out)
}

// The places that the small tables have.
const FEW: usize = 512;

// Writes the derivation of the goal's fact to the front of the buffer, from the log of its holder; n is the number of formulas. A
// buffer with twelve bytes for each entry has room for it; what does not fit is not written. Its tables take 1,536 bytes where a
// principal's block has at most 512 places, else 14,592.
pub fn write_derivation(log: &Log, holder: &Holder, n: u16, goal: Cell, out: &mut [u8]) -> Derived
    ensures { Writes (derivation (table_size n holder.now.principals) holder.now.principals holder.now.names.now holder.now.formula goal log.now.bytes.now log.now.count) out.old out.new result.steps result.bytes }
{
    let places = usize::from(n) * (3 + 2 * usize::from(holder.principals));
    if places <= FEW {
        write_within::<512>(log, holder, goal, out)
    } else {
        write_within::<4864>(log, holder, goal, out)
    }
}
