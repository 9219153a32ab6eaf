// The fixed words and the names that stand around the formulas in a text, and how long the text of a formula is by the lengths of those
// inside it.
#![tactic(auto)]

ghost use Rattle.std.specs.Prelude.{◌≡◌, ◌∷◌, cond, ◌+◌, ◌≤◌, length, get_or, eqb};
ghost use Rattle.format.specs.Index.{look_in};
ghost use Rattle.digits.specs.Puts.{Appends};
ghost use Rattle.words.specs.Words.{is_leaf, is_named, inner_of, letter_of, is_hidden, leaf_text, opening, before, sealing, closing, has_owner, owner, behind, is_pair, goes_on, ending, outer, nested, ahead};
ghost use Rattle.words.specs.Lengths.{capped, front_length, length_by, fact_length};

use digits::Writer;
use format::Index;
use logic::{Audience, Record};
use written::Numbers;

// Whether the text of this kind is a name.
pub fn is_leaf(kind: u8) -> bool
    ensures { result ≡ is_leaf kind }
{
    kind <= 3 || kind == 16
}

// Whether the text of this kind begins with the principal in the first field, or with the variable there.
fn is_named(kind: u8) -> bool
    ensures { result ≡ is_named kind }
{
    kind == 8 || kind == 10 || 12 <= kind
}

// The formula that stands inside a formula that is no name. In a shared key and a public key it is the key.
#[tactic(auto, unfolding(crate::specs::Words::inner_of))]
pub fn inner_of(r: Record) -> u16
    ensures { result ≡ inner_of r }
{
    if is_named(r.kind) { r.second } else { r.first }
}

// The letter of a principal, a key, a variable or a datum.
fn letter_of(kind: u8) -> u8
    ensures { result ≡ letter_of kind }
{
    match kind {
        1 => b'P',
        2 => b'K',
        16 => b'V',
        _ => b'N',
    }
}

// Whether the name of a leaf is not for this audience: a datum's is not for a guest.
fn is_hidden(audience: Audience, kind: u8) -> bool
    ensures { result ≡ is_hidden audience kind }
{
    match audience {
        Audience::Owner => false,
        Audience::Guest => kind == 3,
    }
}

// The text of leaf x, whose record is r: its letter and its number, or `N#` and the formula number where the name is not for this audience.
pub fn put_leaf(audience: Audience, x: u16, r: Record, w: &mut Writer)
    ensures same_buffer { w.new.out.ghost_name ≡ w.old.out.ghost_name }
    ensures put { Appends w.old.out.now w.old.at (leaf_text audience x r) w.new.out.now w.new.at }
    ensures few { length (leaf_text audience x r) ≤ 22 }
{
    if is_hidden(audience, r.kind) {
        w.text(b"N#");
        w.short(x);
        return;
    }
    w.byte(letter_of(r.kind));
    w.short(r.first);
}

// The fixed word before the inner formula. Each word is put where it is told, so that its copy is of constant length: words that are told
// first, and put by one call, made the printing of a listing a fifth slower.
#[tactic(auto, unfolding(crate::specs::Words::opening))]
fn put_opening(kind: u8, w: &mut Writer)
    ensures same_buffer { w.new.out.ghost_name ≡ w.old.out.ghost_name }
    ensures put { Appends w.old.out.now w.old.at (opening kind) w.new.out.now w.new.at }
    ensures few { length (opening kind) ≤ 10 }
{
    match kind {
        4 => w.text(b"("),
        5 => w.text(b"{"),
        6 => w.text(b"{"),
        7 => w.text(b"<"),
        8 => w.text(b" -"),
        10 => w.text(b" ="),
        11 => w.text(b"fresh "),
        12 => w.text(b" believes "),
        13 => w.text(b" sees "),
        14 => w.text(b" said "),
        15 => w.text(b" controls "),
        _ => {}
    }
}

// All that stands before the inner formula: `all V1: ` with a variable's number, or the principal, and the word of the kind.
pub fn put_before(index: &Index, r: Record, w: &mut Writer)
    ensures same_buffer { w.new.out.ghost_name ≡ w.old.out.ghost_name }
    ensures put { Appends w.old.out.now w.old.at (before (look_in index.now.formulas index.now.numbers.now) r) w.new.out.now w.new.at }
    ensures few { length (before (look_in index.now.formulas index.now.numbers.now) r) ≤ 31 }
{
    if r.kind == 17 {
        w.text(b"all V");
        w.short(index.name_at(r.first));
        w.text(b": ");
        return;
    }
    if is_named(r.kind) {
        w.text(b"P");
        w.short(index.name_at(r.first));
        put_opening(r.kind, w);
        return;
    }
    put_opening(r.kind, w);
}

// The letter of the key or variable in the field of a key.
fn key_letter(kind: u8) -> u8
    ensures { result ≡ cond (eqb kind 16) 86 75 }
{
    if kind == 16 { b'V' } else { b'K' }
}

// The bracket and the key or variable behind what is encrypted or signed.
fn put_sealing(index: &Index, r: Record, w: &mut Writer)
    ensures same_buffer { w.new.out.ghost_name ≡ w.old.out.ghost_name }
    ensures put { Appends w.old.out.now w.old.at (sealing (look_in index.now.formulas index.now.numbers.now) r) w.new.out.now w.new.at }
    ensures few { length (sealing (look_in index.now.formulas index.now.numbers.now) r) ≤ 22 }
{
    if r.kind < 5 || 6 < r.kind {
        return;
    }
    let key = index.look(r.second);
    w.text(b"}");
    w.byte(key_letter(key.kind));
    w.short(key.first);
}

// The fixed word behind the inner formula.
#[tactic(auto, unfolding(crate::specs::Words::closing))]
fn put_closing(kind: u8, w: &mut Writer)
    ensures same_buffer { w.new.out.ghost_name ≡ w.old.out.ghost_name }
    ensures put { Appends w.old.out.now w.old.at (closing kind) w.new.out.now w.new.at }
    ensures few { length (closing kind) ≤ 7 }
{
    match kind {
        4 => w.text(b", "),
        5 => w.text(b" from "),
        6 => w.text(b"' from "),
        7 => w.text(b">"),
        8 => w.text(b"- "),
        9 => w.text(b" of "),
        10 => w.text(b"= "),
        _ => {}
    }
}

// Whether the text of this kind ends with a principal.
fn has_owner(kind: u8) -> bool
    ensures { result ≡ has_owner kind }
{
    5 <= kind && kind <= 10 && kind != 7
}

// The principal at the end.
fn put_owner(index: &Index, r: Record, w: &mut Writer)
    ensures same_buffer { w.new.out.ghost_name ≡ w.old.out.ghost_name }
    ensures put { Appends w.old.out.now w.old.at (owner (look_in index.now.formulas index.now.numbers.now) r) w.new.out.now w.new.at }
    ensures few { length (owner (look_in index.now.formulas index.now.numbers.now) r) ≤ 21 }
{
    if r.kind == 9 {
        w.text(b"P");
        w.short(index.name_at(r.second));
        return;
    }
    if has_owner(r.kind) {
        w.text(b"P");
        w.short(index.name_at(r.third));
    }
}

// All that stands behind the inner formula.
pub fn put_behind(index: &Index, r: Record, w: &mut Writer)
    ensures same_buffer { w.new.out.ghost_name ≡ w.old.out.ghost_name }
    ensures put { Appends w.old.out.now w.old.at (behind (look_in index.now.formulas index.now.numbers.now) r) w.new.out.now w.new.at }
    ensures few { length (behind (look_in index.now.formulas index.now.numbers.now) r) ≤ 50 }
{
    put_sealing(index, r, w);
    put_closing(r.kind, w);
    put_owner(index, r, w);
}

// Whether the text of this kind goes on with the formula in the second field.
pub fn is_pair(kind: u8) -> bool
    ensures { result ≡ is_pair kind }
{
    matches!(kind, 4 | 7)
}

// Whether this is a conjunction whose right part is one too, so that its list goes on with the members of that.
#[tactic(auto, unfolding(crate::specs::Words::goes_on))]
pub fn goes_on(index: &Index, r: Record) -> bool
    ensures { result ≡ goes_on (look_in index.now.formulas index.now.numbers.now) r }
{
    r.kind == 4 && index.kind_at(r.second) == 4
}

// The bracket behind the last member of a list.
#[tactic(auto, unfolding(crate::specs::Words::ending))]
pub fn ending(kind: u8) -> &'static [u8]
    ensures { (result.now ≡ ending kind) × (length result.now ≤ 1) }
{
    if kind == 4 { b")" } else { b"" }
}

// P sees, or P believes.
#[tactic(auto, unfolding(crate::specs::Words::outer))]
fn outer_of(mode: u8, p: u16) -> Record
    ensures { result ≡ outer mode p }
{
    let kind = if mode == 1 { 13 } else { 12 };
    Record {
        kind,
        first: p,
        second: 0,
        third: 0,
    }
}

// What is believed to be so of X: fresh, said by Q, believed by Q, or nothing more.
#[tactic(auto, unfolding(crate::specs::Words::nested))]
fn nested_of(mode: u8, q: u16) -> Record
    ensures { result ≡ nested mode q }
{
    let kind = match mode {
        3 => 11,
        4 => 14,
        5 => 12,
        _ => 0,
    };
    Record {
        kind,
        first: q,
        second: 0,
        third: 0,
    }
}

// All that stands before X in a fact.
pub fn put_ahead(index: &Index, n: Numbers, w: &mut Writer)
    ensures same_buffer { w.new.out.ghost_name ≡ w.old.out.ghost_name }
    ensures put { Appends w.old.out.now w.old.at (ahead (look_in index.now.formulas index.now.numbers.now) n.mode n.p n.q) w.new.out.now w.new.at }
    ensures few { length (ahead (look_in index.now.formulas index.now.numbers.now) n.mode n.p n.q) ≤ 62 }
{
    put_before(index, outer_of(n.mode, n.p), w);
    put_before(index, nested_of(n.mode, n.q), w);
}

// The sum of two lengths, not above 5,000.
fn add(a: u16, b: u16) -> u16
    ensures { result ≡ capped (a + b) }
{
    a.saturating_add(b).min(5000)
}

// The length of formula x, where it is known.
pub fn length_at(lengths: &[u16], x: u16) -> u16
    ensures { result ≡ get_or lengths.now x 0 }
{
    lengths.get(usize::from(x)).copied().unwrap_or(0)
}

// How long the text of a leaf is, what stands before an inner formula and behind it, and before X in a fact: each is put into a buffer that
// has no room for it. Four functions, and not one that takes a closure: its contract would have to say for any text what each of these says
// for its own.
fn leaf_length(audience: Audience, x: u16, r: Record) -> u16
    ensures { result ≡ capped (length (leaf_text audience x r)) }
{
    let mut w = Writer::new(&mut []);
    put_leaf(audience, x, r, &mut w);
    w.at as u16
}

fn before_length(index: &Index, r: Record) -> u16
    ensures { result ≡ length (before (look_in index.now.formulas index.now.numbers.now) r) }
{
    let mut w = Writer::new(&mut []);
    put_before(index, r, &mut w);
    w.at as u16
}

fn behind_length(index: &Index, r: Record) -> u16
    ensures { result ≡ length (behind (look_in index.now.formulas index.now.numbers.now) r) }
{
    let mut w = Writer::new(&mut []);
    put_behind(index, r, &mut w);
    w.at as u16
}

fn ahead_length(index: &Index, n: Numbers) -> u16
    ensures { result ≡ length (ahead (look_in index.now.formulas index.now.numbers.now) n.mode n.p n.q) }
{
    let mut w = Writer::new(&mut []);
    put_ahead(index, n, &mut w);
    w.at as u16
}

// The length up to what stands behind the inner formula, which is `inner` bytes long.
fn front_length(index: &Index, r: Record, inner: u16) -> u16
    ensures { result ≡ front_length (look_in index.now.formulas index.now.numbers.now) r inner }
{
    add(before_length(index, r), add(inner, behind_length(index, r)))
}

// The length of formula x, from those of the formulas before it.
pub fn formula_length(audience: Audience, index: &Index, lengths: &[u16], x: u16) -> u16
    ensures { result ≡ length_by audience (look_in index.now.formulas index.now.numbers.now) lengths.now x (look_in index.now.formulas index.now.numbers.now x) }
{
    let r = index.look(x);
    if is_leaf(r.kind) {
        return leaf_length(audience, x, r);
    }
    let inner = length_at(lengths, inner_of(r));
    let second = length_at(lengths, r.second);
    if goes_on(index, r) {
        return add(add(inner, 2), second);
    }
    let n = front_length(index, r, inner);
    if !is_pair(r.kind) {
        return n;
    }
    add(n, add(second, ending(r.kind).len() as u16))
}

// The length of a fact's text, by those of the formulas.
pub fn fact_length(index: &Index, lengths: &[u16], n: Numbers) -> u16
    ensures { result ≡ fact_length (look_in index.now.formulas index.now.numbers.now) lengths.now n.mode n.p n.q n.x }
{
    add(ahead_length(index, n), length_at(lengths, n.x))
}
