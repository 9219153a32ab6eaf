// What a step of a derivation claims, and which rule it is an instance of: tests on claims and on the records of a book's index.
#![tactic(auto)]

ghost use Rattle.std.specs.Prelude.{◌≡◌, cond, set};
ghost use Rattle.format.specs.Index.{record_in, look_in};
ghost use Rattle.format.specs.Variables.{loose_in};
ghost use Rattle.logic.proofs.Clear.{clear_by};
ghost use Rattle.claims.specs.Claim.{claim, claim_in, packed_claim, unpacked_claim, claim_at, is_partner, is_sound, opened_claim, stated_claim};
ghost use Rattle.claims.specs.Follow.{is_clear_in, clears_up_to, is_assumption_in, is_message_in, are_ends, is_under, follows1, follows2, follows3, follows4, follows5, follows9, follows10, follows11, follows20, follows21, follows22, is_delegated, is_seen_part, is_fresh_whole, is_held_part, is_believed_part, follows_in};

use format::Index;
use logic::{Counts, Record};

// A fact over formula numbers, as it is written: its mode, P, Q (0 in modes 1 to 3) and X. The mode is the byte that document 01 names, and no
// enum: a fact may have any.
#[derive(Clone, Copy, PartialEq, Eq)]
pub struct Claim {
    pub mode: u8,
    pub p: u16,
    pub q: u16,
    pub x: u16,
}

impl Claim {
    // P sees X: what rules 6 to 11 conclude, and what a message gives.
    fn sees(p: u16, x: u16) -> Claim
        ensures { result ≡ claim 1 p 0 x }
    {
        Claim {
            mode: 1,
            p,
            q: 0,
            x,
        }
    }

    // P believes X, where X is not opened.
    fn believes(p: u16, x: u16) -> Claim
        ensures { result ≡ claim 2 p 0 x }
    {
        Claim {
            mode: 2,
            p,
            q: 0,
            x,
        }
    }

    // P believes X fresh.
    fn believes_fresh(p: u16, x: u16) -> Claim
        ensures { result ≡ claim 3 p 0 x }
    {
        Claim {
            mode: 3,
            p,
            q: 0,
            x,
        }
    }

    // P believes Q said X: what rules 1 to 3 conclude.
    fn believes_said(p: u16, q: u16, x: u16) -> Claim
        ensures { result ≡ claim 4 p q x }
    {
        Claim { mode: 4, p, q, x }
    }

    // P believes Q believes X.
    fn believes_believes(p: u16, q: u16, x: u16) -> Claim
        ensures { result ≡ claim 5 p q x }
    {
        Claim { mode: 5, p, q, x }
    }

    // The claim of the step at the front of some bytes.
    pub fn read(s: &[u8]) -> Claim
        ensures { result ≡ claim_in s.now }
    {
        Claim {
            mode: format::byte(s, 1),
            p: format::word(s, 2),
            q: format::word(s, 4),
            x: format::word(s, 6),
        }
    }

    // A sound claim in four bytes: its P, Q and X are formula numbers, and a book has at most 256 formulas.
    pub fn pack(self) -> u32
        ensures { result ≡ packed_claim self }
    {
        u32::from_be_bytes([
            self.mode,
            (self.p % 256) as u8,
            (self.q % 256) as u8,
            (self.x % 256) as u8,
        ])
    }

    fn unpack(packed: u32) -> Claim
        ensures { result ≡ unpacked_claim packed }
    {
        let [mode, p, q, x] = packed.to_be_bytes();
        Claim {
            mode,
            p: u16::from(p),
            q: u16::from(q),
            x: u16::from(x),
        }
    }

    // The claim of step i.
    pub fn of_step(claims: &[u32], i: usize) -> Claim
        ensures { result ≡ claim_at claims.now i }
    {
        Claim::unpack(claims.get(i).copied().unwrap_or(0))
    }

    // Q is 0 in modes 1 to 3, and a principal in modes 4 and 5.
    fn is_partner(self, index: &Index) -> bool
        ensures { result ≡ is_partner (look_in index.now.formulas index.now.numbers.now) self }
    {
        if self.mode <= 3 {
            self.q == 0
        } else {
            index.kind_at(self.q) == 1
        }
    }

    // Whether a claim is no malformed fact of the book with this index. Each test is made only where those before it have passed: with all
    // of them made at first a check took longer.
    pub fn is_sound(self, index: &Index) -> bool
        ensures { result ≡ is_sound (look_in index.now.formulas index.now.numbers.now) (loose_in index.now.numbers.now) self }
    {
        let kind = index.kind_at(self.x);
        (1..=5).contains(&self.mode)
            && index.kind_at(self.p) == 1
            && format::is_formula_kind(kind)
            && !index.is_loose(self.x)
            && self.is_partner(index)
            && !(self.mode == 2 && format::is_opening_kind(kind))
    }
}

// The belief of p in formula x, whose record is r. A belief in a formula of kind 11, 14 or 12 is opened.
fn opened(r: Record, p: u16, x: u16) -> Claim
    ensures { result ≡ opened_claim r p x }
{
    match r.kind {
        11 => Claim::believes_fresh(p, r.first),
        14 => Claim::believes_said(p, r.first, r.second),
        12 => Claim::believes_believes(p, r.first, r.second),
        _ => Claim::believes(p, x),
    }
}

// What a formula record of kind 12 or 13 states.
pub fn stated(index: &Index, r: Record) -> Claim
    ensures { result ≡ stated_claim (look_in index.now.formulas index.now.numbers.now) r }
{
    if r.kind == 12 {
        opened(index.look(r.second), r.first, r.second)
    } else {
        Claim::sees(r.first, r.second)
    }
}

// Clear formulas, in a table of a byte for each: 1 if it is clear, and any other if not. (Of `bool`s the table would ask more of who lends it
// than `clears_up_to` and `follow_if` do, which are of any numbers.) A formula may share its parts with many others, so whether it is clear
// is found once for each record, from its parts, which are earlier.
fn is_clear(clears: &[u8], x: u16) -> bool
    ensures { result ≡ is_clear_in clears.now x }
{
    format::byte(clears, usize::from(x)) == 1
}

#[tactic(auto, unfolding(logic::proofs::Clear::clear_by))]
fn is_clear_record(clears: &[u8], r: Record) -> bool
    ensures { result ≡ clear_by (is_clear_in clears.now) r }
{
    match r.kind {
        5 | 6 => false,
        4 | 7 => is_clear(clears, r.first) && is_clear(clears, r.second),
        11 => is_clear(clears, r.first),
        0..=9 | 16 => true,
        _ => is_clear(clears, r.second),
    }
}

// Whether formula i is clear. By a test and not by `get_mut`, after which the check does not know what the bytes are.
fn put_clear(clears: &mut [u8], i: usize, clear: bool)
    ensures { clears.new ≡ set clears.old i (cond clear 1 0) }
{
    if i < clears.len() {
        clears[i] = u8::from(clear);
    }
}

// Which of the formulas of a book are clear.
#[tactic(auto, unfolding(crate::specs::Follow::clears_up_to))]
pub fn fill_clears(index: &Index, clears: &mut [u8])
    ensures { clears.new ≡ clears_up_to (record_in index.now.numbers.now) clears.old index.now.formulas }
{
    for i in 0..index.formulas {
        let clear = is_clear_record(clears, index.record_in(i));
        put_clear(clears, i, clear);
    }
}

// Whether p and q are the two ends of a shared key or secret.
fn are_ends(p: u16, q: u16, y: Record) -> bool
    ensures { result ≡ are_ends p q y }
{
    p == y.first && q == y.third || p == y.third && q == y.first
}

// A step by a rule: y, e and z are the records of the formulas of the first premise a, the second premise b and the conclusion g.
#[derive(Clone, Copy)]
struct Step {
    y: Record,
    e: Record,
    z: Record,
    a: Claim,
    b: Claim,
    g: Claim,
}

impl Step {
    // Whether P believes y, of kind i, and sees e, of kind j, and the key or secret of y is that of e.
    fn is_under(&self, i: u8, j: u8, key: u16) -> bool
        ensures { result ≡ is_under i j key self.now.y self.now.e self.now.a self.now.b }
    {
        self.a.mode == 2
            && self.b.mode == 1
            && self.b.p == self.a.p
            && self.y.kind == i
            && self.e.kind == j
            && key == self.e.second
    }

    fn rule_1(&self) -> bool
        ensures { result ≡ follows1 self.now.y self.now.e self.now.a self.now.b self.now.g }
    {
        let Claim { p, .. } = self.a;
        let Claim { q, .. } = self.g;
        self.is_under(8, 5, self.y.second)
            && self.e.third != p
            && are_ends(p, q, self.y)
            && self.g == Claim::believes_said(p, q, self.e.first)
    }

    fn rule_2(&self) -> bool
        ensures { result ≡ follows2 self.now.y self.now.e self.now.a self.now.b self.now.g }
    {
        self.is_under(9, 6, self.y.first)
            && self.e.third != self.a.p
            && self.g == Claim::believes_said(self.a.p, self.y.second, self.e.first)
    }

    fn rule_3(&self) -> bool
        ensures { result ≡ follows3 self.now.y self.now.e self.now.a self.now.b self.now.g }
    {
        self.is_under(10, 7, self.y.second)
            && are_ends(self.a.p, self.g.q, self.y)
            && self.g == Claim::believes_said(self.a.p, self.g.q, self.e.first)
    }

    // `clear` says whether the formula of b is.
    fn rule_4(&self, clear: bool) -> bool
        ensures { result ≡ follows4 clear self.now.a self.now.b self.now.g }
    {
        let Claim { p, q, x, .. } = self.b;
        self.b.mode == 4
            && clear
            && self.a == Claim::believes_fresh(p, x)
            && self.g == Claim::believes_believes(p, q, x)
    }

    fn rule_5(&self, index: &Index) -> bool
        ensures { result ≡ follows5 (look_in index.now.formulas index.now.numbers.now) self.now.y self.now.a self.now.b self.now.g }
    {
        let Record { first, second, .. } = self.y;
        self.a.mode == 2
            && self.y.kind == 15
            && self.b == Claim::believes_believes(self.a.p, first, second)
            && self.g == opened(index.look(second), self.a.p, second)
    }

    // 6, 7, 8: P sees a formula of this kind, and so its part x.
    fn is_seen_part(&self, kind: u8, x: u16) -> bool
        ensures { result ≡ is_seen_part kind x self.now.y self.now.a self.now.g }
    {
        self.a.mode == 1 && self.y.kind == kind && self.g == Claim::sees(self.a.p, x)
    }

    fn rule_9(&self) -> bool
        ensures { result ≡ follows9 self.now.y self.now.e self.now.a self.now.b self.now.g }
    {
        self.is_under(8, 5, self.y.second)
            && self.e.third != self.a.p
            && (self.a.p == self.y.first || self.a.p == self.y.third)
            && self.g == Claim::sees(self.a.p, self.e.first)
    }

    fn rule_10(&self) -> bool
        ensures { result ≡ follows10 self.now.y self.now.e self.now.a self.now.b self.now.g }
    {
        self.is_under(9, 5, self.y.first)
            && self.e.third != self.a.p
            && self.y.second == self.a.p
            && self.g == Claim::sees(self.a.p, self.e.first)
    }

    fn rule_11(&self) -> bool
        ensures { result ≡ follows11 self.now.y self.now.e self.now.a self.now.b self.now.g }
    {
        self.is_under(9, 6, self.y.first)
            && self.e.third != self.a.p
            && self.g == Claim::sees(self.a.p, self.e.first)
    }

    // 12, 13: P believes the part x fresh, and so the conjunction.
    fn is_fresh_whole(&self, x: u16) -> bool
        ensures { result ≡ is_fresh_whole x self.now.z self.now.a self.now.g }
    {
        self.g.mode == 3 && self.z.kind == 4 && self.a == Claim::believes_fresh(self.g.p, x)
    }

    // 14 to 17: P believes that Q said, or believes, a conjunction, and so its part x.
    fn is_held_part(&self, mode: u8, x: u16) -> bool
        ensures { result ≡ is_held_part mode x self.now.y self.now.a self.now.g }
    {
        self.a.mode == mode && self.y.kind == 4 && self.g == Claim { mode, x, ..self.a }
    }

    // 18, 19: P believes a conjunction, and so its part x.
    fn is_believed_part(&self, index: &Index, x: u16) -> bool
        ensures { result ≡ is_believed_part (look_in index.now.formulas index.now.numbers.now) x self.now.y self.now.a self.now.g }
    {
        self.a.mode == 2 && self.y.kind == 4 && self.g == opened(index.look(x), self.a.p, x)
    }

    fn rule_20(&self, index: &Index) -> bool
        ensures { result ≡ follows20 (look_in index.now.formulas index.now.numbers.now) self.now.z self.now.a self.now.b self.now.g }
    {
        let Record { first, second, .. } = self.z;
        self.g.mode == 2
            && self.z.kind == 4
            && self.a == opened(index.look(first), self.g.p, first)
            && self.b == opened(index.look(second), self.g.p, second)
    }

    // Whether P believes y, which is of kind 17: for every V, Q controls X.
    fn is_delegated(&self) -> bool
        ensures { result ≡ is_delegated self.now.y self.now.a }
    {
        self.a.mode == 2 && self.y.kind == 17
    }

    fn rule_21(&self, index: &Index) -> bool
        ensures { result ≡ follows21 (look_in index.now.formulas index.now.numbers.now) self.now.y self.now.e self.now.a self.now.b self.now.g }
    {
        let control = index.look(self.y.second);
        let believed = Claim::believes_believes(self.a.p, control.first, self.b.x);
        self.is_delegated()
            && self.b == believed
            && self.g == opened(self.e, self.a.p, self.b.x)
            && matching::is_instance(index, self.y.first, control.second, self.b.x)
    }

    fn rule_22(&self, index: &Index) -> bool
        ensures { result ≡ follows22 (look_in index.now.formulas index.now.numbers.now) self.now.y self.now.z self.now.a self.now.g }
    {
        self.is_delegated()
            && self.z.kind == 15
            && self.g == Claim::believes(self.a.p, self.g.x)
            && matching::is_instance(index, self.y.first, self.y.second, self.g.x)
    }
}

// What a derivation may start from: a book by the numbers of its index and its counts, which of its formulas are clear, and the number of the
// last message that is given.
#[derive(Clone, Copy)]
pub struct Basis<'a> {
    pub numbers: &'a [u64],
    pub counts: Counts,
    pub clears: &'a [u8],
    pub message: u16,
}

impl Basis<'_> {
    // The index of the book.
    pub fn index(&self) -> Index<'_>
        ensures { (result.numbers.now ≡ self.now.numbers.now) × (result.formulas ≡ self.now.counts.formulas) }
    {
        Index {
            numbers: self.numbers,
            formulas: self.counts.formulas,
        }
    }

    // Steps of kind 64 and 65.
    fn is_assumption(&self, i: u16, g: Claim) -> bool
        ensures { result ≡ is_assumption_in self.now.numbers.now self.now.counts i g }
    {
        let number = usize::from(i);
        let index = self.index();
        number < self.counts.assumptions
            && g == stated(&index, index.look(index.assumption_at(number).first))
    }

    fn is_message(&self, i: u16, g: Claim) -> bool
        ensures { result ≡ is_message_in self.now.numbers.now self.now.counts self.now.message i g }
    {
        let number = usize::from(i);
        let index = self.index();
        let delivered = index.message_at(number);
        1 <= i
            && i <= self.message
            && number <= self.counts.messages
            && g == Claim::sees(delivered.second, delivered.third)
    }

    // Whether g follows by a step of this kind, whose first number is i and whose premises, if it has them, are a and b.
    #[tactic(auto, unfolding(crate::specs::Follow::follows_in, crate::specs::Follow::rule_tests))]
    pub fn follows(&self, kind: u8, i: u16, a: Claim, b: Claim, g: Claim) -> bool
        ensures { result ≡ follows_in self.now.numbers.now self.now.counts self.now.clears.now self.now.message kind i a b g }
    {
        let index = self.index();
        let y = index.look(a.x);
        let e = index.look(b.x);
        let z = index.look(g.x);
        let step = Step { y, e, z, a, b, g };
        match kind {
            64 => self.is_assumption(i, g),
            65 => self.is_message(i, g),
            66 => step.rule_1(),
            67 => step.rule_2(),
            68 => step.rule_3(),
            69 => step.rule_4(is_clear(self.clears, b.x)),
            70 => step.rule_5(&index),
            71 => step.is_seen_part(4, y.first),
            72 => step.is_seen_part(4, y.second),
            73 => step.is_seen_part(7, y.first),
            74 => step.rule_9(),
            75 => step.rule_10(),
            76 => step.rule_11(),
            77 => step.is_fresh_whole(z.first),
            78 => step.is_fresh_whole(z.second),
            79 => step.is_held_part(4, y.first),
            80 => step.is_held_part(4, y.second),
            81 => step.is_held_part(5, y.first),
            82 => step.is_held_part(5, y.second),
            83 => step.is_believed_part(&index, y.first),
            84 => step.is_believed_part(&index, y.second),
            85 => step.rule_20(&index),
            86 => step.rule_21(&index),
            87 => step.rule_22(&index),
            // No step is of such a kind; they stand here so that no kind of step can be left out above.
            0..=63 | 88..=255 => false,
        }
    }
}
