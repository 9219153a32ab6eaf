// A book as one flat array of bytes, from its index: what the search looks at in its inner loops.
#![tactic(auto)]

ghost use Rattle.std.specs.Prelude.{◌≡◌, cond, ◌+◌, ◌*◌, ◌%◌, ◌<◌, ◌≤◌, eqb};
ghost use Rattle.std.proofs.lemmas.List.Edits.{sets};
ghost use Rattle.format.specs.Variables.{loose_in};
ghost use Rattle.layout.specs.Flat.{byte_of, clear_in, opened_in, bit_in, form_in, eight, forms_in, assumptions_in, messages_in, laid_out};

use format::Index;
use logic::{Counts, Record};

// The array is lent as it is, and not as a `flat::Flat`, which is what the search reads: the contract of `lay_out`, which is not to change, and the
// definitions of this crate (`laid_out`, `byte_of`) are of the array, and with the struct each place here would be `flat.bytes[..]`: no plainer.

// The eight bytes of a formula record.
#[derive(Clone, Copy)]
struct Form {
    kind: u8,
    first: u8,
    second: u8,
    third: u8,
    clear: u8,
    rank: u8,
    formula: u8,
    bit: u8,
}

fn low(x: u16) -> u8
    ensures { result ≡ x % 256 }
{
    (x % 256) as u8
}

#[tactic(auto, unfolding(crate::specs::Flat::byte_of))]
fn byte_of(flat: &[u8; 2144], x: u16, k: usize) -> u8
    requires { k < 8 }
    ensures { result ≡ byte_of flat.now x k }
{
    flat[usize::from(low(x)) * 8 + k]
}

fn is_marked(flat: &[u8; 2144], x: u16) -> bool
    ensures { result ≡ eqb (byte_of flat.now x 4) 1 }
{
    byte_of(flat, x, 4) == 1
}

fn rank_of(flat: &[u8; 2144], x: u16) -> u8
    ensures { (result ≡ byte_of flat.now x 5 % 8) × (result < 8) }
{
    byte_of(flat, x, 5) % 8
}

// Whether a record is clear, by the records before it.
#[tactic(auto, unfolding(crate::specs::Flat::clear_in))]
fn is_clear(flat: &[u8; 2144], r: Record) -> bool
    ensures { result ≡ clear_in flat.now r }
{
    match r.kind {
        5 | 6 => false,
        // both are looked at, with no jump between them
        4 | 7 => is_marked(flat, r.first) & is_marked(flat, r.second),
        11 => is_marked(flat, r.first),
        16 => true,
        10.. => is_marked(flat, r.second),
        _ => true,
    }
}

// The formula, and the bit, where the belief in record x is kept.
#[tactic(auto, unfolding(crate::specs::Flat::opened_in))]
fn opened(r: Record, x: u16) -> u8
    ensures { result ≡ opened_in r x }
{
    match r.kind {
        11 => low(r.first),
        12 | 14 => low(r.second),
        _ => low(x),
    }
}

#[tactic(auto, unfolding(crate::specs::Flat::bit_in))]
fn bit_in(flat: &[u8; 2144], r: Record) -> u8
    ensures { result ≡ bit_in flat.now r }
{
    match r.kind {
        11 => 2,
        14 => 3 + rank_of(flat, r.first),
        12 => 11 + rank_of(flat, r.first),
        _ => 1,
    }
}

// The kind of a record in the array: 0 for a formula with a loose variable, which no rule and no fact is about.
fn kind_in(loose: bool, kind: u8) -> u8
    ensures { result ≡ cond loose 0 kind }
{
    if loose { 0 } else { kind }
}

// Record x with k principals before it.
#[tactic(auto, unfolding(crate::specs::Flat::form_in))]
fn form_in(flat: &[u8; 2144], k: u16, x: u16, loose: bool, r: Record) -> Form
    ensures { result ≡ form_in flat.now k x loose r }
{
    Form {
        kind: kind_in(loose, r.kind),
        first: low(r.first),
        second: low(r.second),
        third: low(r.third),
        clear: u8::from(is_clear(flat, r)),
        rank: low(k),
        formula: opened(r, x),
        bit: bit_in(flat, r),
    }
}

// The bytes are stored one by one: put together first and copied as one part they go through memory, and the processor waits for them (4 % of
// the prover's time).
fn put_form(flat: &mut [u8; 2144], x: usize, f: Form)
    requires { x < 256 }
    ensures { flat.new ≡ sets flat.old (x * 8) (eight f) }
{
    let at = x * 8;
    flat[at] = f.kind;
    flat[at + 1] = f.first;
    flat[at + 2] = f.second;
    flat[at + 3] = f.third;
    flat[at + 4] = f.clear;
    flat[at + 5] = f.rank;
    flat[at + 6] = f.formula;
    flat[at + 7] = f.bit;
}

// How many principals there are with a record of this kind more.
fn one_more(k: u16, kind: u8) -> u16
    requires { k ≤ 256 }
    ensures { result ≡ cond (eqb kind 1) (k + 1) k }
{
    k + u16::from(kind == 1)
}

// The first n formula records of the index, upwards: whether a record is clear, and where the belief in it is kept, goes by
// records before it.
#[tactic(auto, unfolding(crate::specs::Flat::forms_in, crate::specs::Flat::principals_in))]
fn lay_forms(index: &Index, n: usize, flat: &mut [u8; 2144])
    requires { n ≤ 256 }
    ensures { flat.new ≡ forms_in index.now.numbers.now n flat.old }
{
    let mut k: u16 = 0;
    for x in 0..n {
        let r = index.record_in(x);
        let loose = index.is_loose(x as u16);
        let f = form_in(flat, k, x as u16, loose, r);
        put_form(flat, x, f);
        k = one_more(k, r.kind);
    }
}

#[tactic(auto, unfolding(crate::specs::Flat::assumptions_in))]
fn lay_assumptions(index: &Index, n: usize, flat: &mut [u8; 2144])
    requires { n ≤ 64 }
    ensures { flat.new ≡ assumptions_in index.now.numbers.now n flat.old }
{
    for a in 0..n {
        flat[2048 + a] = low(index.assumption_at(a).first);
    }
}

#[tactic(auto, unfolding(crate::specs::Flat::messages_in))]
fn lay_messages(index: &Index, n: usize, flat: &mut [u8; 2144])
    requires { n ≤ 16 }
    ensures { flat.new ≡ messages_in index.now.numbers.now n flat.old }
{
    for m in 0..n {
        let r = index.message_at(m + 1);
        flat[2112 + m * 2] = low(r.second);
        flat[2112 + m * 2 + 1] = low(r.third);
    }
}

// The whole book, from its index and its counts. Counts above the limits, which no book has, leave the array as it is.
#[tactic(auto, unfolding(crate::specs::Flat::laid_out))]
pub fn lay_out(index: &Index, n: Counts, flat: &mut [u8; 2144])
    ensures { flat.new ≡ laid_out index.now.numbers.now n flat.old }
{
    if 256 < n.formulas || 64 < n.assumptions || 16 < n.messages {
        return;
    }
    // A copy of its own: then it is seen that what is stored into the array leaves the index as it is, and it is not read anew each time (2 to
    // 4 % of the prover's time).
    let index = *index;
    lay_forms(&index, n.formulas, flat);
    lay_assumptions(&index, n.assumptions, flat);
    lay_messages(&index, n.messages, flat);
}
