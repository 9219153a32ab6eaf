// The tests on a written fact and on a step of a derivation, by the index of a book: whether a fact may be written, whether its bytes are
// malformed, and why a step cannot be printed.
#![tactic(auto)]

ghost use Rattle.std.specs.Prelude.{◌≡◌, ◌&&◌, ◌||◌, not, leb, eqb};
ghost use Rattle.format.specs.Index.{look_in};
ghost use Rattle.format.specs.Variables.{loose_in};
ghost use Rattle.written.specs.Stated.{may_state, is_stated, is_wrong, is_malformed_by, unreadable_by, numbers_of, told_cause};

use format::Index;
use logic::Cause;

// What the bytes of a fact say: the mode, which is the byte of document 01 and may be any, and the formula numbers P, Q and X.
#[derive(Clone, Copy)]
pub struct Numbers {
    pub mode: u8,
    pub p: u16,
    pub q: u16,
    pub x: u16,
}

// The numbers in the bytes of a fact, whatever bytes these are.
pub fn numbers_of(fact: &[u8]) -> Numbers
    ensures { result ≡ numbers_of fact.now }
{
    Numbers {
        mode: format::byte(fact, 0),
        p: format::word(fact, 1),
        q: format::word(fact, 3),
        x: format::word(fact, 5),
    }
}

// Whether a formula of this kind may stand in a fact of this mode.
fn may_state(mode: u8, kind: u8) -> bool
    ensures { result ≡ may_state mode kind }
{
    format::is_formula_kind(kind) && (mode != 2 || !format::is_opening_kind(kind))
}

// Whether Q is a principal, in the modes that have a Q.
fn is_other(index: &Index, n: Numbers) -> bool
    ensures { result ≡ (leb n.mode 3 || eqb (look_in index.now.formulas index.now.numbers.now n.q).kind 1) }
{
    n.mode <= 3 || index.kind_at(n.q) == 1
}

// Whether a fact about these formula numbers may be written.
#[tactic(auto, unfolding(crate::specs::Stated::is_stated))]
pub fn is_stated(index: &Index, n: Numbers) -> bool
    ensures { result ≡ is_stated (look_in index.now.formulas index.now.numbers.now) (loose_in index.now.numbers.now) n.mode n.p n.q n.x }
{
    index.kind_at(n.p) == 1
        && is_other(index, n)
        && !index.is_loose(n.x)
        && may_state(n.mode, index.kind_at(n.x))
}

// Whether Q is not 0 in a mode that has none.
fn is_stray(n: Numbers) -> bool
    ensures { result ≡ (leb n.mode 3 && not (eqb n.q 0)) }
{
    n.mode <= 3 && n.q != 0
}

// Whether a fact of seven bytes is malformed.
#[tactic(auto, unfolding(crate::specs::Stated::is_wrong))]
fn is_wrong(index: &Index, n: Numbers) -> bool
    ensures { result ≡ is_wrong (look_in index.now.formulas index.now.numbers.now) (loose_in index.now.numbers.now) n.mode n.p n.q n.x }
{
    n.mode < 1 || 5 < n.mode || is_stray(n) || !is_stated(index, n)
}

// Whether the bytes of a written fact are malformed.
#[tactic(auto, unfolding(crate::specs::Stated::is_malformed_by))]
pub fn is_malformed(index: &Index, fact: &[u8]) -> bool
    ensures { result ≡ is_malformed_by (look_in index.now.formulas index.now.numbers.now) (loose_in index.now.numbers.now) fact.now }
{
    fact.len() != 7 || is_wrong(index, numbers_of(fact))
}

// Why the step at the front of some bytes cannot be printed: its kind is unknown or it is cut (16), or its fact is malformed (17). None
// where it can be.
#[tactic(auto, unfolding(crate::specs::Stated::unreadable_by, logic::specs::Step::step_at))]
pub fn unreadable_as(index: &Index, step: &[u8]) -> Option<Cause>
    ensures { told_cause result ≡ unreadable_by (look_in index.now.formulas index.now.numbers.now) (loose_in index.now.numbers.now) step.now }
{
    let kind = format::byte(step, 0);
    if steps::numbers_in(kind) == 0 || step.len() < steps::size_of(kind) {
        return Some(Cause::BadStepKind);
    }
    if is_malformed(index, &step[1..8]) {
        return Some(Cause::MalformedFact);
    }
    None
}
