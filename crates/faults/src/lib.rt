// What is wrong with one record, behind the records before it: the refusals from 3 on, in their order. And which variables a record has as
// a formula, by those of the formulas before it.
#![tactic(auto)]

ghost use Rattle.std.specs.Prelude.{◌≡◌, ℕ, Bool, true, false, cond, ◌&&◌, ◌||◌, not, ltb, leb, eqb};
ghost use Rattle.logic.specs.declared.Sort.{Sort};
ghost use Rattle.logic.specs.Kind.{body_of, is_formula, is_key, is_statement, refers, fits, states, keeps_to};
ghost use Rattle.logic.specs.Record.{each_field};
ghost use Rattle.logic.specs.Reading.{out_of_order, over_limit, is_dangling, is_misfit, is_not_rising, is_wrong_delegation, is_to_sender, is_no_statement, has_loose, is_after_last, fault_of};
ghost use Rattle.format.specs.Index.{look_in};
ghost use Rattle.format.specs.Variables.{variables_in, loose_in, allows_by, joined_low, joined, field_variables, variables_of};
ghost use Rattle.faults.specs.Fault.{told_fault};
ghost use Rattle.faults.specs.Sound.{field_sound};

use format::Index;
use logic::{Body, Cause, Counts, Record, Sort};

fn one(x: Sort) -> Body
    ensures { result ≡ record { first = x; second = Sort.Absent; third = Sort.Absent } }
{
    Body {
        first: x,
        second: Sort::Absent,
        third: Sort::Absent,
    }
}

fn two(x: Sort, y: Sort) -> Body
    ensures { result ≡ record { first = x; second = y; third = Sort.Absent } }
{
    Body {
        first: x,
        second: y,
        third: Sort::Absent,
    }
}

fn three(x: Sort, y: Sort, z: Sort) -> Body
    ensures { result ≡ record { first = x; second = y; third = z } }
{
    Body {
        first: x,
        second: y,
        third: z,
    }
}

// The fields of a kind, all absent for a byte that is no kind.
fn body_of(kind: u8) -> Body
    ensures { result ≡ body_of kind }
{
    match kind {
        1 => one(Sort::Name),
        2 => one(Sort::Name),
        3 => one(Sort::Name),
        4 => two(Sort::Formula, Sort::Formula),
        5 => three(Sort::Formula, Sort::Key, Sort::Principal),
        6 => three(Sort::Formula, Sort::Key, Sort::Principal),
        7 => two(Sort::Formula, Sort::Formula),
        8 => three(Sort::Principal, Sort::Key, Sort::Principal),
        9 => two(Sort::Key, Sort::Principal),
        10 => three(Sort::Principal, Sort::Formula, Sort::Principal),
        11 => one(Sort::Formula),
        12 => two(Sort::Principal, Sort::Formula),
        13 => two(Sort::Principal, Sort::Formula),
        14 => two(Sort::Principal, Sort::Formula),
        15 => two(Sort::Principal, Sort::Formula),
        16 => one(Sort::Name),
        17 => two(Sort::Variable, Sort::Control),
        32 => one(Sort::Statement),
        33 => three(Sort::Principal, Sort::Principal, Sort::Formula),
        34 => two(Sort::Message, Sort::Statement),
        _ => one(Sort::Absent),
    }
}

// Refusal 3, by the counts of the records before: assumptions, messages and goals keep their order, formula records stand anywhere.
#[tactic(auto, unfolding(logic::specs::Reading::out_of_order))]
fn is_out_of_order(n: Counts, kind: u8) -> bool
    ensures { result ≡ out_of_order n kind }
{
    match kind {
        32 => 0 < n.messages || 0 < n.goals,
        33 => 0 < n.goals,
        _ => false,
    }
}

// Refusal 9.
#[tactic(auto, unfolding(logic::specs::Reading::over_limit))]
fn is_over_limit(n: Counts, kind: u8) -> bool
    ensures { result ≡ over_limit n kind }
{
    match kind {
        1 => 256 <= n.formulas || 8 <= n.principals,
        2..=17 => 256 <= n.formulas,
        32 => 64 <= n.assumptions,
        33 => 16 <= n.messages,
        34 => 32 <= n.goals,
        _ => false,
    }
}

fn is_reference(s: Sort) -> bool
    ensures { result ≡ refers s }
{
    !matches!(s, Sort::Absent | Sort::Name | Sort::Message)
}

// Whether a field that refers does so to one of f formulas.
fn is_earlier(f: usize, s: Sort, x: u16) -> bool
    ensures { result ≡ (not (refers s) || ltb x f) }
{
    !is_reference(s) || usize::from(x) < f
}

// Whether a field of this sort may refer to a record of this kind, but for the statements of assumptions and goals.
fn is_fit(s: Sort, kind: u8) -> bool
    ensures { result ≡ fits s kind }
{
    match s {
        Sort::Principal => kind == 1,
        Sort::Key => matches!(kind, 2 | 16),
        Sort::Formula => format::is_formula_kind(kind),
        Sort::Variable => kind == 16,
        Sort::Control => kind == 15,
        _ => true,
    }
}

fn is_stated(s: Sort, kind: u8) -> bool
    ensures { result ≡ states s kind }
{
    s != Sort::Statement || matches!(kind, 12 | 13)
}

// Whether a message number is one of m, or 0.
fn is_kept_to(m: usize, s: Sort, x: u16) -> bool
    ensures { result ≡ keeps_to m s x }
{
    s != Sort::Message || usize::from(x) <= m
}

// Whether a test holds of each field of a record.
fn each_field<F: Fn(Sort, u16) -> bool>(r: Record, test: F) -> bool
    requires { F.IsAlwaysCallable test }
    ensures { (p : Sort → ℕ → Bool) → ((s : Sort) (x : ℕ) (y : Bool) → F.post test s x y → y ≡ p s x) → result ≡ each_field p r }
{
    let b = body_of(r.kind);
    test(b.first, r.first) && test(b.second, r.second) && test(b.third, r.third)
}

// Refusal 4.
fn is_dangling(n: Counts, r: Record) -> bool
    ensures { result ≡ is_dangling n r }
{
    !each_field(r, |s, x| is_earlier(n.formulas, s, x))
}

// Refusal 5.
fn is_misfit(index: &Index, r: Record) -> bool
    ensures { result ≡ is_misfit (look_in index.now.formulas index.now.numbers.now) r }
{
    !each_field(r, |s, x| is_fit(s, index.kind_at(x)))
}

// Refusal 6.
#[tactic(auto, unfolding(logic::specs::Reading::is_not_rising))]
fn is_not_rising(index: &Index, r: Record) -> bool
    ensures { result ≡ is_not_rising (look_in index.now.formulas index.now.numbers.now) r }
{
    (r.kind == 8 || r.kind == 10) && index.name_at(r.third) <= index.name_at(r.first)
}

// Whether "for every v, z" is allowed: z has no variable, or just v, and holds no kind 17.
#[tactic(auto, unfolding(format::specs::Variables::allows_by))]
fn is_allowed(index: &Index, v: u16, z: u16) -> bool
    ensures { result ≡ allows_by index.now.numbers.now v z }
{
    let s = index.variables_at(z);
    s == 0 || s == 1 + u64::from(v)
}

// Which variables a formula has is a number, since it stands in the index, and that is numbers which the caller lends: 0 for none, 1 + v for
// the variable v alone, and this for several.
const SEVERAL: u64 = 257;

// And so much more if it is of kind 17 or holds one.
const DELEGATES: u64 = 512;

// What two parts have together: at the low end none, just one variable, or several.
#[tactic(auto, unfolding(format::specs::Variables::joined_low))]
fn join_low(a: u64, b: u64) -> u64
    ensures { result ≡ joined_low a b }
{
    if a == 0 {
        return b;
    }
    if b == 0 {
        return a;
    }
    if a == b { a } else { SEVERAL }
}

// And at the high end whether one of them holds a kind 17.
#[tactic(auto, unfolding(format::specs::Variables::joined))]
fn join_variables(a: u64, b: u64) -> u64
    ensures { result ≡ joined a b }
{
    let low = join_low(a % DELEGATES, b % DELEGATES);
    if DELEGATES <= a || DELEGATES <= b {
        return DELEGATES + low;
    }
    low
}

// What the field of a record has.
fn field_variables(index: &Index, s: Sort, x: u16) -> u64
    ensures { result ≡ field_variables (variables_in index.now.numbers.now) s x }
{
    if is_reference(s) {
        return index.variables_at(x);
    }
    0
}

// Which variables record r has as formula n.
#[tactic(auto, unfolding(format::specs::Variables::variables_of))]
pub fn variables_of(index: &Index, n: u16, r: Record) -> u64
    ensures { result ≡ variables_of (variables_in index.now.numbers.now) n r }
{
    if r.kind == 16 {
        return 1 + u64::from(n);
    }
    if r.kind == 17 {
        return DELEGATES;
    }
    let b = body_of(r.kind);
    let first = field_variables(index, b.first, r.first);
    let second = field_variables(index, b.second, r.second);
    let third = field_variables(index, b.third, r.third);
    join_variables(first, join_variables(second, third))
}

// Refusal 23.
#[tactic(auto, unfolding(logic::specs::Reading::is_wrong_delegation))]
fn is_wrong_delegation(index: &Index, r: Record) -> bool
    ensures { result ≡ is_wrong_delegation (allows_by index.now.numbers.now) r }
{
    r.kind == 17 && !is_allowed(index, r.first, r.second)
}

// Refusal 7.
#[tactic(auto, unfolding(logic::specs::Reading::is_to_sender))]
fn is_to_sender(r: Record) -> bool
    ensures { result ≡ is_to_sender r }
{
    r.kind == 33 && r.first == r.second
}

// Refusal 10.
fn is_no_statement(index: &Index, r: Record) -> bool
    ensures { result ≡ is_no_statement (look_in index.now.formulas index.now.numbers.now) r }
{
    !each_field(r, |s, x| is_stated(s, index.kind_at(x)))
}

// Whether one of three formulas has a variable outside kind 17.
fn is_any_loose(index: &Index, r: Record) -> bool
    ensures { result ≡ (loose_in index.now.numbers.now r.first || (loose_in index.now.numbers.now r.second || loose_in index.now.numbers.now r.third)) }
{
    index.is_loose(r.first) || index.is_loose(r.second) || index.is_loose(r.third)
}

// Refusal 22.
fn has_loose(index: &Index, r: Record) -> bool
    ensures { result ≡ has_loose (loose_in index.now.numbers.now) r }
{
    match r.kind {
        32 => index.is_loose(r.first),
        33 => is_any_loose(index, r),
        34 => index.is_loose(r.second),
        _ => false,
    }
}

// Refusal 11.
fn is_after_last(n: Counts, r: Record) -> bool
    ensures { result ≡ is_after_last n r }
{
    !each_field(r, |s, x| is_kept_to(n.messages, s, x))
}

// Refusal 8.
fn repeated(again: bool) -> Option<Cause>
    ensures { told_fault result ≡ cond again 8 0 }
{
    again.then_some(Cause::RepeatedFormula)
}

// The first fault of a record from refusal 3 on, in the order 3, 9, 4, 5, 6, 23, 7, 10, 22, 11, 8. n counts the records before
// it, the index has the formulas among them, and `again` says whether it is one of these.
#[tactic(auto, unfolding(logic::specs::Reading::fault_of))]
pub fn fault_of(n: Counts, numbers: &[u64], again: bool, r: Record) -> Option<Cause>
    ensures { told_fault result ≡ fault_of n (look_in n.formulas numbers.now) (allows_by numbers.now) (loose_in numbers.now) again r }
{
    let index = &Index {
        numbers,
        formulas: n.formulas,
    };
    if is_out_of_order(n, r.kind) {
        return Some(Cause::OutOfOrder);
    }
    if is_over_limit(n, r.kind) {
        return Some(Cause::OverLimit);
    }
    if is_dangling(n, r) {
        return Some(Cause::DanglingReference);
    }
    if is_misfit(index, r) {
        return Some(Cause::WrongSort);
    }
    if is_not_rising(index, r) {
        return Some(Cause::NamesNotRising);
    }
    if is_wrong_delegation(index, r) {
        return Some(Cause::WrongDelegation);
    }
    if is_to_sender(r) {
        return Some(Cause::SenderIsReceiver);
    }
    if is_no_statement(index, r) {
        return Some(Cause::NotStatement);
    }
    if has_loose(index, r) {
        return Some(Cause::LooseVariable);
    }
    if is_after_last(n, r) {
        return Some(Cause::MessageAfterLast);
    }
    repeated(again)
}

// Whether formula x is there, and a key or a variable.
fn is_key(index: &Index, x: u16) -> bool
    ensures { result ≡ is_key (look_in index.now.formulas index.now.numbers.now x).kind }
{
    matches!(index.kind_at(x), 2 | 16)
}

// Whether formula x is there, and a variable.
fn is_variable(index: &Index, x: u16) -> bool
    ensures { result ≡ eqb (look_in index.now.formulas index.now.numbers.now x).kind 16 }
{
    index.kind_at(x) == 16
}

// Whether formula x is there, and says what somebody controls.
fn is_control(index: &Index, x: u16) -> bool
    ensures { result ≡ eqb (look_in index.now.formulas index.now.numbers.now x).kind 15 }
{
    index.kind_at(x) == 15
}

// Whether formula x is there, and of kinds 3 to 15 or 17.
fn is_formula(index: &Index, x: u16) -> bool
    ensures { result ≡ is_formula (look_in index.now.formulas index.now.numbers.now x).kind }
{
    format::is_formula_kind(index.kind_at(x))
}

// Whether formula x is there, and of kind 12 or 13.
fn is_statement(index: &Index, x: u16) -> bool
    ensures { result ≡ is_statement (look_in index.now.formulas index.now.numbers.now x).kind }
{
    matches!(index.kind_at(x), 12 | 13)
}

// The fields of a record, by kind. All of them are looked at, by `&`: with `&&` each is a jump more, and reading a book took a seventh to a
// third longer.

// The fields of kinds 4 and 7: two formulas.
fn is_pair(index: &Index, r: Record) -> bool
    ensures { result ≡ (is_formula (look_in index.now.formulas index.now.numbers.now r.first).kind && (is_formula (look_in index.now.formulas index.now.numbers.now r.second).kind && true)) }
{
    is_formula(index, r.first) & is_formula(index, r.second)
}

// The fields of kinds 5 and 6: a formula under a key, from a principal.
fn is_sealed(index: &Index, r: Record) -> bool
    ensures { result ≡ (is_formula (look_in index.now.formulas index.now.numbers.now r.first).kind && (is_key (look_in index.now.formulas index.now.numbers.now r.second).kind && eqb (look_in index.now.formulas index.now.numbers.now r.third).kind 1)) }
{
    is_formula(index, r.first) & is_key(index, r.second) & index.is_principal(r.third)
}

// The fields of kinds 12 to 15: a principal, and what he believes, sees, said or controls.
fn is_claim(index: &Index, r: Record) -> bool
    ensures { result ≡ (eqb (look_in index.now.formulas index.now.numbers.now r.first).kind 1 && (is_formula (look_in index.now.formulas index.now.numbers.now r.second).kind && true)) }
{
    index.is_principal(r.first) & is_formula(index, r.second)
}

// The fields of kind 8: two principals, and a key between them.
fn is_shared_key(index: &Index, r: Record) -> bool
    ensures { result ≡ (eqb (look_in index.now.formulas index.now.numbers.now r.first).kind 1 && (is_key (look_in index.now.formulas index.now.numbers.now r.second).kind && eqb (look_in index.now.formulas index.now.numbers.now r.third).kind 1)) }
{
    index.is_principal(r.first) & is_key(index, r.second) & index.is_principal(r.third)
}

// The fields of kind 9: a key and its owner.
fn is_public_key(index: &Index, r: Record) -> bool
    ensures { result ≡ (is_key (look_in index.now.formulas index.now.numbers.now r.first).kind && (eqb (look_in index.now.formulas index.now.numbers.now r.second).kind 1 && true)) }
{
    is_key(index, r.first) & index.is_principal(r.second)
}

// The fields of kind 10: two principals, and a formula between them.
fn is_shared_secret(index: &Index, r: Record) -> bool
    ensures { result ≡ (eqb (look_in index.now.formulas index.now.numbers.now r.first).kind 1 && (is_formula (look_in index.now.formulas index.now.numbers.now r.second).kind && eqb (look_in index.now.formulas index.now.numbers.now r.third).kind 1)) }
{
    index.is_principal(r.first) & is_formula(index, r.second) & index.is_principal(r.third)
}

// The fields of kind 17: a variable, and what somebody controls.
fn is_delegation(index: &Index, r: Record) -> bool
    ensures { result ≡ (eqb (look_in index.now.formulas index.now.numbers.now r.first).kind 16 && (eqb (look_in index.now.formulas index.now.numbers.now r.second).kind 15 && true)) }
{
    is_variable(index, r.first) & is_control(index, r.second)
}

// The fields of kind 33: sender, receiver and formula.
fn is_message(index: &Index, r: Record) -> bool
    ensures { result ≡ (eqb (look_in index.now.formulas index.now.numbers.now r.first).kind 1 && (eqb (look_in index.now.formulas index.now.numbers.now r.second).kind 1 && is_formula (look_in index.now.formulas index.now.numbers.now r.third).kind)) }
{
    index.is_principal(r.first) & index.is_principal(r.second) & is_formula(index, r.third)
}

// The fields of kind 34: the number of one of m messages, or 0, and a statement.
fn is_goal(index: &Index, m: usize, r: Record) -> bool
    ensures { result ≡ (leb r.first m && (is_statement (look_in index.now.formulas index.now.numbers.now r.second).kind && true)) }
{
    (usize::from(r.first) <= m) & is_statement(index, r.second)
}

// Whether none of refusals 4, 5, 10 and 11 fits a record, with the formulas of the index and m messages before it. A `match`, where each
// kind has its own test: as `||` of the kinds it would be a chain of jumps for each record that is read.
fn are_fields_sound(index: &Index, m: usize, r: Record) -> bool
    ensures { result ≡ each_field (field_sound index.now.formulas m (look_in index.now.formulas index.now.numbers.now)) r }
{
    match r.kind {
        4 => is_pair(index, r),
        5 => is_sealed(index, r),
        6 => is_sealed(index, r),
        7 => is_pair(index, r),
        8 => is_shared_key(index, r),
        9 => is_public_key(index, r),
        10 => is_shared_secret(index, r),
        11 => is_formula(index, r.first),
        12 => is_claim(index, r),
        13 => is_claim(index, r),
        14 => is_claim(index, r),
        15 => is_claim(index, r),
        17 => is_delegation(index, r),
        32 => is_statement(index, r.first),
        33 => is_message(index, r),
        34 => is_goal(index, m, r),
        _ => true,
    }
}

// Whether none of the tests fits a record, those of its fields last.
fn is_unfaulted(index: &Index, n: Counts, r: Record) -> bool
    ensures { result ≡ (not (out_of_order n r.kind) && (not (over_limit n r.kind) && (not (is_not_rising (look_in index.now.formulas index.now.numbers.now) r)
        && (not (is_to_sender r) && (not (is_wrong_delegation (allows_by index.now.numbers.now) r) && (not (has_loose (loose_in index.now.numbers.now) r)
        && each_field (field_sound index.now.formulas n.messages (look_in index.now.formulas index.now.numbers.now)) r)))))) }
{
    !is_out_of_order(n, r.kind)
        && !is_over_limit(n, r.kind)
        && !is_not_rising(index, r)
        && !is_to_sender(r)
        && !is_wrong_delegation(index, r)
        && !has_loose(index, r)
        && are_fields_sound(index, n.messages, r)
}

// Whether a record has no fault from refusal 3 on, but that it may be there already. `fault_of` tells the same, and the cause, by one test
// after the other over the sorts of the fields. This is what the reader asks of each record, told again for speed: it knows the fields of
// each kind, it has one caller, and the compiler inlines it.
pub fn is_sound(n: Counts, numbers: &[u64], r: Record) -> bool
    ensures { result ≡ eqb (fault_of n (look_in n.formulas numbers.now) (allows_by numbers.now) (loose_in numbers.now) false r) 0 }
{
    let index = Index {
        numbers,
        formulas: n.formulas,
    };
    is_unfaulted(&index, n, r)
}
