// The text of a fact: what an engineer reads in a listing. And the listing, in pieces.
#![tactic(auto)]

mod disbelief;
mod explaining;
mod listing;

ghost use Rattle.std.specs.Prelude.{◌≡◌, ◌<◌, ◌≤◌, length};
ghost use Rattle.format.specs.Index.{look_in};
ghost use Rattle.logic.specs.Refusal.{told};
ghost use Rattle.logic.specs.Text.{text_among, length_told, at_front, texting, texted};
ghost use Rattle.logic.specs.Listing.{printed};
ghost use Rattle.logic.proofs.Formulas.{Formulas};
ghost use Rattle.digits.specs.Puts.{Appends};
ghost use Rattle.written.specs.Stated.{records_in};
ghost use Rattle.text.specs.Printing.{text_in, list_in, Measured, fact_text_in};
ghost use Rattle.text.specs.Lines.{IsIndex};
ghost use Rattle.logic.specs.declared.Audience.TheVariants.{Owner};
ghost use Rattle.text.specs.Once.{is_index_once, owner_once};

use digits::Writer;
use format::Index;
use logic::{Audience, Cause, Counts, Refusal};
use written::Numbers;

// A piece of a listing: how many bytes of it stand at the front of the buffer, and the number of the line to go on from.
#[derive(Clone, Copy)]
pub struct Piece {
    pub bytes: usize,
    pub next: usize,
}

pub use disbelief::disbelief_line;
pub use explaining::{explain, goal_line};
pub use listing::list;

// What texts are printed from: for whom they are, the index of an accepted book with its counts, and how long the text of each formula is.
// A fact of a struct has to be one that can be so in one way only: `is_index_once` is the proof for `IsIndex`.
#[derive(Clone, Copy)]
pub(crate) struct Printer<'a> {
    pub(crate) audience: Audience,
    pub(crate) index: Index<'a>,
    pub(crate) counts: Counts,
    pub(crate) lengths: [u16; 256],
    ghost book: { IsIndex index.formulas index.numbers.now counts } by { is_index_once index.formulas index.numbers.now counts },
    ghost known: { Measured audience index.formulas index.numbers.now lengths index.formulas },
}

// A printer of texts for the owner.
#[derive(Clone, Copy)]
pub(crate) struct ForOwner<'a> {
    pub(crate) printer: Printer<'a>,
    ghost owner: { printer.audience ≡ Owner } by { owner_once printer.audience },
}

impl<'a> ForOwner<'a> {
    // By the numbers of an index, as `Printer::new`.
    pub(crate) fn new(numbers: &'a [u64], counts: Counts) -> ForOwner<'a>
        requires { IsIndex counts.formulas numbers.now counts }
        ensures same { (result.printer.audience ≡ Owner) × (result.printer.index.formulas ≡ counts.formulas) × (result.printer.index.numbers.now ≡ numbers.now) × (result.printer.counts ≡ counts) }
    {
        ForOwner {
            printer: Printer::new(Audience::Owner, numbers, counts),
        }
    }
}

impl<'a> Printer<'a> {
    // A printer by the numbers of an index: the lengths are measured first.
    pub(crate) fn new(audience: Audience, numbers: &'a [u64], counts: Counts) -> Printer<'a>
        requires { IsIndex counts.formulas numbers.now counts }
        ensures same { (result.audience ≡ audience) × (result.index.formulas ≡ counts.formulas) × (result.index.numbers.now ≡ numbers.now) × (result.counts ≡ counts) }
    {
        let index = Index {
            numbers,
            formulas: counts.formulas,
        };
        Printer {
            audience,
            index,
            counts,
            lengths: measure(audience, &index),
        }
    }

    // The text of formula x. The formula printer and the list printer call each other, and at each call the formula number falls; so at
    // most 256 calls are open at a time.
    #[cycle(put_formula_put_list)]
    fn put_formula(&self, x: u16, w: &mut Writer)
        requires inside { x < length (records_in self.now.index.formulas self.now.index.numbers.now) }
        ensures same_buffer { w.new.out.ghost_name ≡ w.old.out.ghost_name }
        ensures put { Appends w.old.out.now w.old.at (text_in self.now.audience self.now.index.formulas self.now.index.numbers.now x) w.new.out.now w.new.at }
    {
        let r = self.index.look(x);
        if words::is_leaf(r.kind) {
            words::put_leaf(self.audience, x, r, w);
            return;
        }
        words::put_before(&self.index, r, w);
        self.put_formula(words::inner_of(r), w);
        words::put_behind(&self.index, r, w);
        if words::goes_on(&self.index, r) {
            self.put_list(r.second, w);
            return;
        }
        if !words::is_pair(r.kind) {
            return;
        }
        self.put_formula(r.second, w);
        w.text(words::ending(r.kind));
    }

    // The members of conjunction x as they stand in a bracketed list, with the bracket behind them.
    #[cycle(put_formula_put_list)]
    fn put_list(&self, x: u16, w: &mut Writer)
        requires inside { x < length (records_in self.now.index.formulas self.now.index.numbers.now) }
        requires conjunction { (look_in self.now.index.formulas self.now.index.numbers.now x).kind ≡ 4 }
        ensures same_buffer { w.new.out.ghost_name ≡ w.old.out.ghost_name }
        ensures put { Appends w.old.out.now w.old.at (list_in self.now.audience self.now.index.formulas self.now.index.numbers.now x) w.new.out.now w.new.at }
    {
        let r = self.index.look(x);
        self.put_formula(r.first, w);
        words::put_behind(&self.index, r, w);
        if words::goes_on(&self.index, r) {
            self.put_list(r.second, w);
            return;
        }
        self.put_formula(r.second, w);
        w.text(words::ending(r.kind));
    }

    // The text of formula x, or `too long`.
    pub(crate) fn put_statement(&self, x: u16, w: &mut Writer)
        requires inside { x < self.now.index.formulas }
        ensures same_buffer { w.new.out.ghost_name ≡ w.old.out.ghost_name }
        ensures put { Appends w.old.out.now w.old.at (printed (text_in self.now.audience self.now.index.formulas self.now.index.numbers.now x)) w.new.out.now w.new.at }
        ensures few { length (printed (text_in self.now.audience self.now.index.formulas self.now.index.numbers.now x)) ≤ 4096 }
    {
        if LONGEST < usize::from(words::length_at(&self.lengths, x)) {
            w.text(b"too long");
            return;
        }
        self.put_formula(x, w);
    }

    // The text of a fact.
    fn put_fact(&self, n: Numbers, w: &mut Writer)
        requires inside { n.x < self.now.index.formulas }
        ensures same_buffer { w.new.out.ghost_name ≡ w.old.out.ghost_name }
        ensures put { Appends w.old.out.now w.old.at (fact_text_in self.now.audience self.now.index.formulas self.now.index.numbers.now (look_in self.now.index.formulas self.now.index.numbers.now) n.mode n.p n.q n.x) w.new.out.now w.new.at }
    {
        words::put_ahead(&self.index, n, w);
        self.put_formula(n.x, w);
    }

    // The text of a fact, or `too long`.
    pub(crate) fn put_printed(&self, n: Numbers, w: &mut Writer)
        requires inside { n.x < self.now.index.formulas }
        ensures same_buffer { w.new.out.ghost_name ≡ w.old.out.ghost_name }
        ensures put { Appends w.old.out.now w.old.at (printed (fact_text_in self.now.audience self.now.index.formulas self.now.index.numbers.now (look_in self.now.index.formulas self.now.index.numbers.now) n.mode n.p n.q n.x)) w.new.out.now w.new.at }
        ensures few { length (printed (fact_text_in self.now.audience self.now.index.formulas self.now.index.numbers.now (look_in self.now.index.formulas self.now.index.numbers.now) n.mode n.p n.q n.x)) ≤ 4096 }
    {
        if LONGEST < usize::from(words::fact_length(&self.index, &self.lengths, n)) {
            w.text(b"too long");
            return;
        }
        self.put_fact(n, w);
    }
}

// The text of a written fact, by the numbers of an index. The lengths of the texts are measured only for a fact that may be written.
fn fact_text_by(
    audience: Audience,
    numbers: &[u64],
    counts: Counts,
    fact: &[u8],
    buffer: &mut [u8],
) -> Result<usize, Refusal>
    requires { IsIndex counts.formulas numbers.now counts }
    ensures { (told result ≡ length_told (text_among audience (records_in counts.formulas numbers.now) fact.now (length buffer.old)))
        × (buffer.new ≡ at_front (text_among audience (records_in counts.formulas numbers.now) fact.now (length buffer.old)) buffer.old) }
{
    let index = Index {
        numbers,
        formulas: counts.formulas,
    };
    if written::is_malformed(&index, fact) {
        return Err(Cause::MalformedFact.at(0));
    }
    let printer = Printer::new(audience, numbers, counts);
    let n = written::numbers_of(fact);
    let size = usize::from(words::fact_length(&index, &printer.lengths, n));
    if LONGEST < size {
        return Err(Cause::LongText.at(0));
    }
    if buffer.len() < size {
        return Err(Cause::LongText.at(0));
    }
    let mut w = Writer::new(buffer);
    printer.put_fact(n, &mut w);
    Ok(w.at)
}

// The most bytes that a text may have.
const LONGEST: usize = 4096;

// The lengths of all formulas, in their order.
fn measure(audience: Audience, index: &Index) -> [u16; 256]
    requires inside { (index.now.formulas ≡ length (records_in index.now.formulas index.now.numbers.now)) × (index.now.formulas ≤ 256) }
    requires book { Formulas (records_in index.now.formulas index.now.numbers.now) }
    ensures { Measured audience index.now.formulas index.now.numbers.now result index.now.formulas }
{
    let mut lengths = [0u16; 256];
    for i in 0..index.formulas {
        lengths[i] = words::formula_length(audience, index, &lengths, i as u16);
    }
    lengths
}

// The text of a written fact about a book, for an audience: it stands at the front of the buffer then, and the rest of the buffer stays
// as it was. Refused are a book that is not accepted, a malformed fact (17), and a text above 4,096 bytes or above the buffer (15); a
// refusal changes nothing.
pub fn fact_text(
    audience: Audience,
    book: &[u8],
    fact: &[u8],
    buffer: &mut [u8],
) -> Result<usize, Refusal>
    ensures { (told result ≡ texting audience book.now fact.now buffer.old) × (buffer.new ≡ texted audience book.now fact.now buffer.old) }
{
    let mut table = [0u64; format::INDEX_SIZE];
    let counts = book::index(book, &mut table)?;
    fact_text_by(audience, &table, counts, fact, buffer)
}
