// The stages: what is given is given, and closed. The survey stamps what is new after each.
#![tactic(auto)]

ghost use Rattle.std.specs.Prelude.{◌≡◌, ◌==◌, ◌%◌, ℕ, true, cond, ◌+◌, ◌*◌, ◌/◌, ◌<◌, ◌≤◌, length, get_or, set, replicate, MatchOption, All, []};
ghost use Rattle.std.specs.Int.Count.{ones};
ghost use Rattle.logic.proofs.Bytes.{Bytes};
ghost use Rattle.facts.specs.Facts.{bit_at};
ghost use Rattle.flat.specs.Layout.{at, assumption_at};
ghost use Rattle.lanes.specs.Lanes.{entered};
ghost use Rattle.lanes.specs.Held.{state_of, SameLog};
ghost use Rattle.stamps.specs.Stamped as stamped;
ghost use Rattle.rules.specs.Close.{Pending, taken};
ghost use Rattle.engine.specs.Laid.{array_of};
ghost use Rattle.stages.specs.Stages.{gives, nothing, none_stamped, assumed, assumed_in, only, delivered_from, Turning, stamped_with, held_in};
ghost use Rattle.stages.specs.Given.{AllWords, ClosesTo, StageFrom, TurnFrom, StagesOf, SurveyOf, FoundIn, FindingOf};

use engine::Laid;
use facts::{Cell, Instance};
use flat::Flat;
use lanes::Held;
use stamps::Stamped;

// How many formula records, principals and assumptions there are.
#[derive(Clone, Copy)]
pub struct Sizes {
    pub formulas: usize,
    pub principals: u8,
    pub assumptions: usize,
}

// What is given of a book: its sizes, the set of its assumptions in force, and the deliveries. A delivery is a number and no struct, as the
// definitions `receiver_in` and `formula_in` have it: 256 times the rank of who receives it, and the formula.
#[derive(Clone, Copy)]
pub struct Given<'a> {
    pub sizes: Sizes,
    pub force: u64,
    pub deliveries: &'a [u16],
}

// The highest bit of a number.
fn top_bit(w: u64) -> u8
    requires { 0 < w }
    ensures { (result < 64) × (true ≡ bit_at w result) }
{
    63 - u64::leading_zeros(w) as u8
}

// The last word that has a pending record.
fn last_word(pending: &[u64; 4]) -> Option<usize>
    ensures { MatchOption result (All (λ w. w ≡ 0) pending.now) (λ i. (i < 4) × (0 < get_or pending.now i 0)) }
{
    pending.iter().rposition(|w| *w != 0)
}

// The last record that is pending.
fn last_pending(held: &Held) -> Option<u8>
    ensures { MatchOption result ((j : ℕ) → j < 256 → Pending held.now.pending j → ⊥) (λ r. Pending held.now.pending r) }
{
    let i = last_word(&held.pending)?;
    Some(64 * i as u8 + top_bit(held.pending[i]))
}

// A pending record is taken: it is no longer pending.
fn take(held: &mut Held, r: u8)
    requires { Pending held.old.pending r }
    ensures { held.new ≡ record held.old { pending = taken held.old.pending r } }
{
    held.pending[usize::from(r / 64)] -= 1 << (r % 64);
}

// The formula of assumption a.
fn assumption_at(flat: &Flat, a: u8) -> u8
    requires { a < 64 }
    ensures { result ≡ assumption_at flat.now.bytes a }
{
    flat.bytes[2048 + usize::from(a)]
}

// Whether assumption a is one of those in force.
fn is_in_force(force: u64, a: u8) -> bool
    requires { a < 64 }
    ensures { result ≡ bit_at force a }
{
    (force >> a) % 2 == 1
}

// A given fact: an assumption or a message, with its number in the place of a premise.
fn giving(kind: u8, number: u8, c: Cell) -> Instance
    ensures { result ≡ gives kind number c }
{
    Instance {
        kind,
        first: Cell {
            formula: number,
            bit: 0,
        },
        second: Cell { formula: 0, bit: 0 },
        gives: c,
    }
}

// Assumption a is given to its principal.
fn assume(book: &Laid, held: &mut Held, a: u8)
    requires { a < 64 }
    ensures log { SameLog held.old held.new }
    ensures state { state_of held.new ≡ assumed (array_of book.now) book.now.users.now held.old.logged a (state_of held.old) }
{
    let f = assumption_at(book.flat, a);
    let who = engine::only_one(book.flat, book.flat.first_at(f));
    let fact = giving(facts::ASSUMED, a, book.flat.stated_at(f));
    held.give(book.users, who, fact);
}

// Assumption a, if it is in force.
fn assume_in_force(book: &Laid, held: &mut Held, force: u64, a: u8)
    requires { a < 64 }
    ensures log { SameLog held.old held.new }
    ensures state { state_of held.new ≡ cond (bit_at force a) (assumed (array_of book.now) book.now.users.now held.old.logged a (state_of held.old)) (state_of held.old) }
{
    if is_in_force(force, a) {
        assume(book, held, a);
    }
}

// The rank of who receives a delivery, and its formula.
fn receiver_of(delivery: u16) -> u8
    ensures { result ≡ delivery / 256 }
{
    delivery.to_be_bytes()[0]
}

fn formula_of(delivery: u16) -> u8
    ensures { result ≡ delivery % 256 }
{
    delivery.to_be_bytes()[1]
}

// The set of one rank; above 7 there is nobody.
fn only(rank: u8) -> u8
    ensures { result ≡ only rank }
{
    if rank < 8 { 1 << rank } else { 0 }
}

// A delivery, the message of this number, is given to its receiver.
fn deliver(book: &Laid, held: &mut Held, message: u8, delivery: u16)
    ensures log { SameLog held.old held.new }
    ensures state { state_of held.new ≡ entered book.now.users.now held.old.logged (only (delivery / 256)) (gives 65 message (at (delivery % 256) 0)) (state_of held.old) }
{
    let who = only(receiver_of(delivery));
    let seen = Cell {
        formula: formula_of(delivery),
        bit: facts::SEES,
    };
    let fact = giving(facts::DELIVERED, message, seen);
    held.give(book.users, who, fact);
}

// The stamp of a rank: of nobody it is 1.
fn stamp_of(each: &[u8; 8], rank: u8) -> u8
    ensures { result ≡ get_or each.now rank 1 }
{
    if rank < 8 { each[usize::from(rank)] } else { 1 }
}

fn put_stamp(each: &mut [u8; 8], rank: u8, v: u8)
    ensures { each.new ≡ set each.old rank v }
{
    if rank < 8 {
        each[usize::from(rank)] = v;
    }
}

// Whether a turn goes on with a delivery: it is for someone who has received none in this turn. The stamp itself says so, and no flag beside it, as
// the definitions `goes_on` and `IsTurn` have it.
fn goes_on(each: &[u8; 8], delivery: u16) -> bool
    ensures { result ≡ (get_or each.now (delivery / 256) 1 == 1) }
{
    stamp_of(each, receiver_of(delivery)) == 1
}

// What is new gets the stamp of who holds it.
fn stamp(given: &Given, held: &Held, each: &[u8; 8], out: &mut Stamped)
    ensures table { stamped.SameTable out.old out.new }
    ensures state { stamped.state_of out.new ≡ stamped_with held.now.words each.now given.now.sizes.formulas given.now.sizes.principals out.old.before out.old.table.now }
    ensures few { out.new.count ≤ 65536 }
{
    out.stamp_new(
        &held.words,
        given.sizes.formulas,
        given.sizes.principals,
        each,
    );
}

// How many bits of a word are set.
fn ones(w: u64) -> usize
    ensures { (result ≡ ones w) × (result ≤ 64) }
{
    u64::count_ones(w) as usize
}

// How many facts about the first n formulas are held, by all principals. As the sum of an iterator it was tried, and the proof did not close: that
// the sum of what a range is mapped to fits is not found.
fn count_held(held: &Held, n: usize) -> usize
    requires { n ≤ 256 }
    ensures { result ≡ held_in held.now.words n }
{
    let mut facts: usize = 0;
    for x in 0..n {
        facts += ones(held.words[x]) + (ones(held.words[256 + x]) + ones(held.words[512 + x]));
    }
    facts
}

// What is found for the prover: the entries of the log, and how many facts are held by all principals.
#[derive(Clone, Copy)]
pub struct Found {
    pub count: u16,
    pub held: usize,
}

// A book and what is given of it, within the limits of a book: the proof that closing ends asks for bytes, a set of assumptions has 64 bits, and a
// stamp counts to 255.
#[derive(Clone, Copy)]
struct Bounded<'a> {
    book: &'a Laid<'a>,
    given: &'a Given<'a>,
    ghost bytes: { Bytes (array_of book.now) },
    ghost few: { (given.now.sizes.assumptions ≤ 64) × (length given.now.deliveries.now ≤ 254) },
}

impl Bounded<'_> {
    // Applies the rules of pending records until none is pending.
    fn close(&self, held: &mut Held)
        requires { AllWords held.old }
        ensures log { SameLog held.old held.new }
        ensures state { ClosesTo self.now.book.now held.old.logged (state_of held.old) (state_of held.new) }
    {
        while let Some(r) = last_pending(held) {
            take(held, r);
            engine::apply(self.book, held, r);
        }
    }

    // Of the first so many assumptions those in force.
    fn assume_all(&self, held: &mut Held)
        ensures log { SameLog held.old held.new }
        ensures state { state_of held.new ≡ assumed_in (array_of self.now.book.now) self.now.book.now.users.now held.old.logged self.now.given.now.force self.now.given.now.sizes.assumptions (state_of held.old) }
    {
        for a in 0..self.given.sizes.assumptions {
            assume_in_force(self.book, held, self.given.force, a as u8);
        }
    }

    // All deliveries.
    fn deliver_all(&self, held: &mut Held)
        ensures log { SameLog held.old held.new }
        ensures state { state_of held.new ≡ delivered_from self.now.given.now.deliveries.now self.now.book.now.users.now held.old.logged 0 (length self.now.given.now.deliveries.now) (state_of held.old) }
    {
        for (m, &d) in self.given.deliveries.iter().enumerate() {
            deliver(self.book, held, m as u8 + 1, d);
        }
    }

    // A turn from delivery m on: as many as go to different principals. Each who receives one has its stamp then. The next delivery.
    fn deliver_turn(&self, held: &mut Held, m: usize, each: &mut [u8; 8]) -> usize
        requires { (m ≤ length self.now.given.now.deliveries.now) × (held.old.logged ≡ 8) × (each.old ≡ replicate 8 1) }
        ensures log { SameLog held.old held.new }
        ensures turn { Turning self.now.given.now.deliveries.now self.now.book.now.users.now m (state_of held.old) result (state_of held.new) each.new }
        ensures goes { m < length self.now.given.now.deliveries.now → m < result }
    {
        for next in m..self.given.deliveries.len() {
            let delivery = self.given.deliveries[next];
            if !goes_on(each, delivery) {
                return next;
            }
            deliver(self.book, held, next as u8 + 1, delivery);
            put_stamp(each, receiver_of(delivery), next as u8 + 2);
        }
        self.given.deliveries.len()
    }

    // The first stage: the assumptions.
    fn begin(&self, held: &mut Held, out: &mut Stamped)
        requires { AllWords held.old × (held.old.logged ≡ 8) }
        ensures log { SameLog held.old held.new }
        ensures table { stamped.SameTable out.old out.new }
        ensures stage { StageFrom self.now.book.now self.now.given.now (assumed_in (array_of self.now.book.now) self.now.book.now.users.now 8 self.now.given.now.force self.now.given.now.sizes.assumptions (state_of held.old)) held.new (replicate 8 1) out.old out.new }
    {
        self.assume_all(held);
        self.close(held);
        stamp(self.given, held, &[1u8; 8], out);
    }

    // The stage of a turn from delivery m on. The next delivery.
    fn next_turn(&self, held: &mut Held, out: &mut Stamped, m: usize) -> usize
        requires { AllWords held.old × (m ≤ length self.now.given.now.deliveries.now) × (held.old.logged ≡ 8) }
        ensures log { SameLog held.old held.new }
        ensures table { stamped.SameTable out.old out.new }
        ensures turn { TurnFrom self.now.book.now self.now.given.now held.old held.new m result out.old out.new }
        ensures goes { m < length self.now.given.now.deliveries.now → m < result }
    {
        let mut each = [1u8; 8];
        let next = self.deliver_turn(held, m, &mut each);
        self.close(held);
        stamp(self.given, held, &each, out);
        next
    }

    // All stages, where nothing is held and nothing is stamped yet. Each turn says where the next one begins, so the loop is no `for`. Answers how
    // many facts are stamped.
    fn run_turns(&self, held: &mut Held, out: &mut Stamped) -> usize
        requires { (state_of held.old ≡ nothing []) × (held.old.logged ≡ 8) × (out.old.before ≡ none_stamped) }
        ensures table { stamped.SameTable out.old out.new }
        ensures stages { StagesOf self.now.book.now self.now.given.now out.old.table.now out.new.table.now result }
    {
        self.begin(held, out);
        let mut stamps = out.count;
        let mut m = 0;
        // A turn takes one delivery or more, and says where the next begins.
        while m < self.given.deliveries.len() {
            m = self.next_turn(held, out, m);
            stamps += out.count;
        }
        stamps
    }

    // The tables of the survey: the words, and what of them has been stamped. They take 14,368 bytes.
    fn survey_within(&self, table: &mut [u8]) -> usize
        ensures { StagesOf self.now.book.now self.now.given.now table.old table.new result }
    {
        let mut held = Held {
            words: [0u64; 1024],
            pending: [0u64; 4],
            log: &mut [],
            count: 0,
            logged: facts::RANKS,
        };
        let mut out = Stamped {
            before: [0u64; 768],
            table,
            count: 0,
        };
        self.run_turns(&mut held, &mut out)
    }

    // The assumptions in force and all deliveries are given, and closed once, where nothing is held yet.
    fn find_all(&self, held: &mut Held) -> Found
        requires { (state_of held.old ≡ nothing held.old.log.now) × (self.now.given.now.sizes.formulas ≤ 256) }
        ensures log { SameLog held.old held.new }
        ensures found { FoundIn self.now.book.now self.now.given.now held.old.logged held.old.log.now held.new.log.now result }
    {
        self.assume_all(held);
        self.deliver_all(held);
        self.close(held);
        Found {
            count: held.count,
            held: count_held(held, self.given.sizes.formulas),
        }
    }

    fn find_within(&self, logged: u8, log: &mut [u8]) -> Found
        requires { self.now.given.now.sizes.formulas ≤ 256 }
        ensures { FoundIn self.now.book.now self.now.given.now logged log.old log.new result }
    {
        let mut held = Held {
            words: [0u64; 1024],
            pending: [0u64; 4],
            log,
            count: 0,
            logged,
        };
        self.find_all(&mut held)
    }
}

// A slice of bytes holds bytes. This is all that it says, and it does nothing: the proof that closing ends asks for it, and of an array in a
// struct it is not known.
fn holds_bytes(_bytes: &[u8])
    ensures { Bytes _bytes.now }
{}

// The survey of a book that is laid out, by what is given of it, into a table of zeros: the stamp of each fact at its place, 1 after the
// assumptions, else 1 + the number of the message after which it was found. How many facts these are.
pub fn survey(book: &Laid, given: &Given, table: &mut [u8]) -> usize
    ensures { SurveyOf book.now given.now table.old table.new result }
{
    if given.sizes.assumptions > 64 || given.deliveries.len() > 254 {
        return 0;
    }
    holds_bytes(&book.flat.bytes);
    Bounded { book, given }.survey_within(table)
}

// What follows from the assumptions in force and the deliveries of a book: the facts of the principal with the rank `logged`, with how
// each was found, in the log. Nothing is found for sizes that no book has. `logged` is a number and no Option, as `FindingOf` promises this for
// any number; 8 or more is nobody's.
pub fn find(book: &Laid, given: &Given, logged: u8, log: &mut [u8]) -> Found
    ensures { FindingOf book.now given.now logged log.old log.new result }
{
    if given.sizes.formulas > 256 || given.sizes.assumptions > 64 || given.deliveries.len() > 254 {
        return Found { count: 0, held: 0 };
    }
    holds_bytes(&book.flat.bytes);
    Bounded { book, given }.find_within(logged, log)
}
