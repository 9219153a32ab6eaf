// The checker: whether the bytes of a derivation are steps that lead to a goal of a book.
#![tactic(auto)]

ghost use Rattle.std.specs.Prelude.{◌≡◌, ◌<◌, ◌≤◌, length, set};
ghost use Rattle.logic.specs.Refusal.{told};
ghost use Rattle.logic.specs.Step.{numbers_in, Checked};
ghost use Rattle.checker.specs.Judge.{are_earlier, fault_in, JudgedIs, ending, HasRoom, VerdictOf};

use claims::{Basis, Claim};
use format::Index;
use logic::{Cause, Refusal};

// How many numbers a step of this kind has. The kind of a step is looked at here first, and an unknown kind is turned away here and
// nowhere else: it has 0 numbers, which `judge_step` refuses before it looks at anything behind the kind. The crate `steps` has the same for the
// texts and the search, with which the checker shares no code. The ranges are the form that document 01 names.
#[tactic(auto, unfolding(logic::specs::Step::numbers_in))]
fn numbers_in(kind: u8) -> usize
    ensures { (result ≡ numbers_in kind) × (result ≤ 2) }
{
    match kind {
        64 | 65 | 71..=73 | 77..=84 | 87 => 1,
        66..=70 | 74..=76 | 85..=86 => 2,
        0..=63 | 88..=255 => 0,
    }
}

// Whether the premises i and j of a step of this kind, with so many numbers, are among the first `count` steps.
fn are_earlier(kind: u8, numbers: usize, i: u16, j: u16, count: usize) -> bool
    requires { numbers ≡ numbers_in kind }
    ensures { result ≡ are_earlier kind i j count }
{
    kind < 66 || usize::from(i) < count && (numbers != 2 || usize::from(j) < count)
}

// A step in which no fault is found: its claim and how many bytes it has.
#[derive(Clone, Copy)]
struct Sound {
    claim: Claim,
    size: usize,
}

// The step at the front of `rest`, the bytes behind `count` steps, or what is wrong with it. In the order 21, 16, 17, 18, 19.
#[tactic(auto, unfolding(crate::specs::Judge::fault_in, logic::specs::Step::step_size))]
fn judge_step(rest: &[u8], count: usize, basis: &Basis, claims: &[u32]) -> Result<Sound, Cause>
    ensures { JudgedIs result (fault_in basis.now.numbers.now basis.now.counts basis.now.clears.now basis.now.message claims.now count rest.now) rest.now }
{
    if 65535 <= count {
        return Err(Cause::TooManySteps);
    }
    let kind = format::byte(rest, 0);
    let numbers = numbers_in(kind);
    let size = 8 + 2 * numbers;
    if numbers == 0 || rest.len() < size {
        return Err(Cause::BadStepKind);
    }
    let claim = Claim::read(rest);
    if !claim.is_sound(&basis.index()) {
        return Err(Cause::MalformedFact);
    }
    let i = format::word(rest, 8);
    let j = format::word(rest, 10);
    if !are_earlier(kind, numbers, i, j, count) {
        return Err(Cause::PremiseNotEarlier);
    }
    let a = Claim::of_step(claims, usize::from(i));
    let b = Claim::of_step(claims, usize::from(j));
    if !basis.follows(kind, i, a, b, claim) {
        return Err(Cause::DoesNotFollow);
    }
    Ok(Sound { claim, size })
}

// Behind the last of `count` steps: it is the goal, or there is a refusal.
fn at_end(claims: &[u32], count: usize, goal: Claim) -> Result<(), Refusal>
    ensures { told result ≡ ending claims.now count goal }
{
    if 0 < count {
        let last = Claim::of_step(claims, count - 1);
        if last == goal {
            return Ok(());
        }
    }
    Err(Cause::NotTheGoal.at(count))
}

// What step i claims. By a test and not by `get_mut`, after which the check does not know what the numbers are.
fn put_claim(claims: &mut [u32], i: usize, x: u32)
    ensures { claims.new ≡ set claims.old i x }
{
    if i < claims.len() {
        claims[i] = x;
    }
}

// Checks a derivation step by step. The claim of each step is kept, so that a premise is one look-up. A step has ten bytes or more,
// so a table with a claim for every ten bytes has room for all; 65,535 claims are enough for any derivation, as it has no more steps.
// The loop works on a copy of the basis: what stands behind a reference is read anew after each write to the claims.
fn check_steps(
    derivation: &[u8],
    basis: &Basis,
    goal: Claim,
    claims: &mut [u32],
) -> Result<(), Refusal>
    requires { HasRoom (length derivation.now) (length claims.old) }
    ensures { VerdictOf basis.now.numbers.now basis.now.counts basis.now.clears.now basis.now.message goal derivation.now (told result) }
{
    let basis = *basis;
    let mut at = 0;
    let mut count = 0;
    // Steps have two sizes: the place goes on by the size of the step.
    while at < derivation.len() {
        let step = judge_step(&derivation[at..], count, &basis, claims).map_err(|cause| cause.at(
            count,
        ))?;
        put_claim(claims, count, step.claim.pack());
        count += 1;
        at += step.size;
    }
    at_end(claims, count, goal)
}

// With a table of N claims. A table is cleared at each call, and to clear the largest takes fifteen times as long as to check nine steps.
// So there are four sizes, each in a function of its own: this one with another N.
fn check_within<const N: usize>(
    derivation: &[u8],
    basis: &Basis,
    goal: Claim,
) -> Result<(), Refusal>
    requires room { HasRoom (length derivation.now) N }
    requires fits { N ≤ 65535 }
    ensures { VerdictOf basis.now.numbers.now basis.now.counts basis.now.clears.now basis.now.message goal derivation.now (told result) }
{
    let mut claims = [0u32; N];
    check_steps(derivation, basis, goal, &mut claims)
}

// How many bytes each step has at least.
const SHORTEST: usize = 10;

// With the smallest table that has room, from `size` claims on. The sizes are tried in turn, by a call of itself: the compiler inlines no
// function with a large table into one that calls itself. Without that the frame of every check would have all four tables, and
// to reserve it would take longer than to check nine steps.
fn check_sized(size: usize, derivation: &[u8], basis: &Basis, goal: Claim) -> Result<(), Refusal>
    requires { 0 < size }
    ensures { VerdictOf basis.now.numbers.now basis.now.counts basis.now.clears.now basis.now.message goal derivation.now (told result) }
{
    if 8192 < size {
        return check_within::<65535>(derivation, basis, goal);
    }
    if SHORTEST * size < derivation.len() {
        return check_sized(16 * size, derivation, basis, goal);
    }
    if 512 < size {
        return check_within::<8192>(derivation, basis, goal);
    }
    if 32 < size {
        return check_within::<512>(derivation, basis, goal);
    }
    check_within::<32>(derivation, basis, goal)
}

// Checks a derivation of goal `goal` of a book: accepted, or the refusal of the book, 13 for a goal that is not there, or
// that of the first step at fault.
pub fn check(book: &[u8], goal: u32, derivation: &[u8]) -> Result<(), Refusal>
    ensures { Checked book.now goal derivation.now (told result) }
{
    let mut numbers = [0u64; format::INDEX_SIZE];
    let counts = book::index(book, &mut numbers)?;
    let place = goal as usize;
    if counts.goals <= place {
        return Err(Cause::NoSuchGoal.at(place));
    }
    let index = Index {
        numbers: &numbers,
        formulas: counts.formulas,
    };
    let mut clears = [0u8; 256];
    claims::fill_clears(&index, &mut clears);
    let asked = index.goal_at(place);
    let wanted = claims::stated(&index, index.look(asked.second));
    let basis = Basis {
        numbers: &numbers,
        counts,
        clears: &clears,
        message: asked.first,
    };
    check_sized(32, derivation, &basis, wanted)
}
