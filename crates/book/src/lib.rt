// Books: reading one, indexing its records, entering a record.
#![tactic(auto)]

ghost use Rattle.std.specs.Prelude.{◌≡◌, Some, None, [], ◌++◌, false, cond, ◌&&◌, ◌+◌, ◌<◌, ◌≤◌, length, take, drop, set, T, ltb, eqb};
ghost use Rattle.logic.specs.Kind.{is_formula_record};
ghost use Rattle.logic.specs.Refusal.{number_of, told, told_entered};
ghost use Rattle.logic.specs.Reading.{scan, reading, counted, fault_of};
ghost use Rattle.logic.specs.Entering.{entering, written, number_in};
ghost use Rattle.format.specs.Index.{index_size, unpacked, slot_of, filled, indexing, indexed, look_in};
ghost use Rattle.format.specs.Variables.{variables_from, variables_in, loose_in, allows_by, variables_of};
ghost use Rattle.chains.specs.Chain.{hash_of, is_before, Linked, Heads};
ghost use Rattle.book.specs.Read.{Small, one_more, place_among, fault_at_in, records_in, variables_next, note_in, stored, bare_with, bound, ReadIs, is_among, enter_in};
ghost use Rattle.book.specs.Chain.{heads_with, next_with};

use chains::Chains;
use format::Index;
use logic::{Cause, Counts, Entered, Record, Refusal};

// A reading place: the byte where the next record begins. How many records there are before it is counted only where a record is refused. A
// struct of one number, since document 01 names the reading place with `new` and `advance` as a form.
#[derive(Clone, Copy)]
struct Cursor {
    at: usize,
}

impl Cursor {
    fn new() -> Self
        ensures { result ≡ record { at = 0 } }
    {
        Cursor { at: 0 }
    }

    // The place behind a record of n bytes.
    fn advance(self, n: usize) -> Self
        requires { self.at + n < 18446744073709551616 }
        ensures { result ≡ record { at = self.at + n } }
    {
        Cursor { at: self.at + n }
    }
}

// What reading one record gives: its kind, its number for the index, that number's chain and the next reading place. The record itself
// would be written to memory field by field and read back as a whole, and the processor waits for that.
#[derive(Clone, Copy)]
struct Got {
    kind: u8,
    number: u64,
    hash: u8,
    behind: Cursor,
}

// The counts of the records before, which keep to the limits of a book.
#[derive(Clone, Copy)]
struct Tally {
    counts: Counts,
    ghost small: { Small counts },
}

impl Tally {
    fn new() -> Self
        ensures { result.counts ≡ record { formulas = 0; principals = 0; assumptions = 0; messages = 0; goals = 0 } }
    {
        Tally {
            counts: Counts {
                formulas: 0,
                principals: 0,
                assumptions: 0,
                messages: 0,
                goals: 0,
            },
        }
    }

    // The counts with a record of this kind more.
    fn one_more(self, kind: u8) -> Self
        requires { Small (one_more self.counts kind) }
        ensures { result.counts ≡ one_more self.counts kind }
    {
        let n = self.counts;
        if format::is_formula_record(kind) {
            let counts = Counts {
                formulas: n.formulas + 1,
                principals: n.principals + usize::from(kind == 1),
                ..n
            };
            return Tally { counts };
        }
        let counts = Counts {
            assumptions: n.assumptions + usize::from(kind == 32),
            messages: n.messages + usize::from(kind == 33),
            goals: n.goals + usize::from(kind == 34),
            ..n
        };
        Tally { counts }
    }

    // The place in the index of the next record of this kind.
    #[tactic(auto, unfolding(format::specs::Index::slot_of))]
    fn slot_of(self, kind: u8) -> usize
        ensures { result ≡ slot_of self.counts kind }
    {
        // Most records are formulas: asked for at first, reading a book takes less time than by the last arm.
        if format::is_formula_record(kind) {
            return self.counts.formulas;
        }
        match kind {
            32 => format::ASSUMPTIONS_FROM + self.counts.assumptions,
            33 => format::MESSAGES_FROM + self.counts.messages,
            34 => format::GOALS_FROM + self.counts.goals,
            _ => self.counts.formulas,
        }
    }

    // How many records there are.
    fn total(self) -> usize
        ensures { result ≡ records_in self.counts }
    {
        let n = self.counts;
        n.formulas + (n.assumptions + (n.messages + n.goals))
    }

    // The number of the next record of this kind in its own count: messages count from 1.
    #[tactic(auto, unfolding(logic::specs::Entering::number_in))]
    fn number_in(self, kind: u8) -> usize
        ensures { result ≡ number_in self.counts kind }
    {
        match kind {
            32 => self.counts.assumptions,
            33 => self.counts.messages + 1,
            34 => self.counts.goals,
            _ => self.counts.formulas,
        }
    }
}

// A number at a place of the table. By a test and not by `get_mut`, after which the check does not know what the table holds.
fn put(table: &mut [u64], place: usize, x: u64)
    ensures { table.new ≡ set table.old place x }
{
    if place < table.len() {
        table[place] = x;
    }
}

// Puts which variables formula n has into the index, where those of the formulas before it stand. x is its number.
fn note(table: &mut [u64], n: usize, x: u64)
    requires { n ≤ 256 }
    ensures { table.new ≡ set table.old (variables_from + n) (variables_of (variables_in table.old) n (unpacked x)) }
{
    let index = Index {
        numbers: table,
        formulas: n,
    };
    let v = faults::variables_of(&index, n as u16, format::unpack(x));
    put(table, format::VARIABLES_FROM + n, v);
}

// The kind of variables.
const VARIABLE: u8 = 16;

// The same for a record of this kind, if it is a formula. While `bare`, no formula that was read has a variable or holds a kind 17; then one of a
// kind below that of variables has none either, and none is looked up. The answer is `bare` for the next record.
fn note_record(table: &mut [u64], n: Tally, kind: u8, x: u64, bare: bool) -> bool
    requires { kind < bound bare → variables_next n.counts x table.old ≡ 0 }
    ensures { (bound result ≡ bare_with kind (bound bare)) × (table.new ≡ note_in n.counts kind (variables_next n.counts x table.old) table.old) }
{
    if !format::is_formula_record(kind) {
        return bare;
    }
    if bare && kind < VARIABLE {
        put(table, format::VARIABLES_FROM + n.counts.formulas, 0);
        return true;
    }
    note(table, n.counts.formulas, x);
    false
}

// Puts the next record of this kind into the index: its number x, and which variables it has.
fn store(table: &mut [u64], n: Tally, kind: u8, x: u64, bare: bool) -> bool
    requires { kind < bound bare → variables_next n.counts x table.old ≡ 0 }
    ensures { (bound result ≡ bare_with kind (bound bare)) × (table.new ≡ stored n.counts kind x table.old) }
{
    let next = note_record(table, n, kind, x, bare);
    put(table, n.slot_of(kind), x);
    next
}

// The place of a formula record in the index, if it is there already.
fn place_among(n: Counts, numbers: &[u64], r: Record) -> Option<usize>
    requires { n.formulas ≤ length numbers.now }
    ensures { result ≡ cond (is_among n numbers.now r) (Some (place_among n numbers.now r)) None }
{
    if !format::is_formula_record(r.kind) {
        return None;
    }
    let index = Index {
        numbers,
        formulas: n.formulas,
    };
    index.place_of(format::pack(r))
}

// Whether x, the number of a record of this kind with the hash h, is that of a formula that the index has.
fn is_repeated(n: Counts, table: &[u64], chains: &Chains, kind: u8, x: u64, h: u8) -> bool
    requires { (n.formulas ≤ 256) × (256 ≤ length table.now) × Heads table.now chains.now.heads n.formulas × Linked table.now chains.now.next n.formulas × (h ≡ hash_of x) }
    ensures { result ≡ (is_formula_record kind && is_before table.now x n.formulas) }
{
    format::is_formula_record(kind) && chains.find(table, h, x).is_some()
}

// Enters the number of a record of this kind into the chains, if the record is a formula.
#[tactic(auto, unfolding(crate::specs::Chain::heads_with, crate::specs::Chain::next_with))]
fn link_record(chains: &mut Chains, n: Counts, kind: u8, h: u8)
    requires { T (is_formula_record kind) → n.formulas < 256 }
    ensures { (chains.new.heads ≡ heads_with n kind h chains.old.heads) × (chains.new.next ≡ next_with n kind h chains.old.heads chains.old.next) }
{
    if format::is_formula_record(kind) {
        chains.link(n.formulas as u8, h);
    }
}

// Why a record that is not sound is refused. The counts and the record are copied for this alone: what a function that is not
// inlined is handed goes through memory.
fn cause_at(n: Counts, table: &[u64], r: Record) -> Cause
    ensures { eqb (fault_of n (look_in n.formulas table.now) (allows_by table.now) (loose_in table.now) false r) 0 ≡ false → number_of result ≡ fault_of n (look_in n.formulas table.now) (allows_by table.now) (loose_in table.now) false r }
{
    faults::fault_of(n, table, false, r).unwrap_or(Cause::NoSpace)
}

// The first record of the rest of a book, behind the records that n counts and the index has.
fn read_record(
    rest: &[u8],
    c: Cursor,
    n: Tally,
    table: &[u64],
    chains: &Chains,
) -> Result<Got, Refusal>
    requires { (0 < length rest.now) × (c.at + length rest.now < 9223372036854775808) × (256 ≤ length table.now) × Heads table.now chains.now.heads n.counts.formulas × Linked table.now chains.now.next n.counts.formulas }
    ensures { ReadIs result (fault_at_in n.counts table.now rest.now) (records_in n.counts) rest.now c }
{
    let size = format::size_of(rest[0]);
    // The kind byte alone: a kind has a field, and what has none is no kind.
    if size == 1 {
        return Err(Cause::UnknownKind.at(n.total()));
    }
    if rest.len() < size {
        return Err(Cause::WrongLength.at(n.total()));
    }
    let r = format::record_at(rest, size);
    if !faults::is_sound(n.counts, table, r) {
        return Err(cause_at(n.counts, table, r).at(n.total()));
    }
    // Of the causes this is the last that is asked for.
    let number = format::pack(r);
    let hash = chains::hash(number);
    if is_repeated(n.counts, table, chains, r.kind, number, hash) {
        return Err(Cause::RepeatedFormula.at(n.total()));
    }
    Ok(Got {
        kind: r.kind,
        number,
        hash,
        behind: c.advance(size),
    })
}

// Reads a book and puts its records into a table. The counts, the table, the chains and the bound are handed on one by one: as one struct behind
// a reference they would be written to memory and read back for each record, some 8 ns each time. Nothing is read behind
// the first fault, and the records before it stand in the table then.
fn fill(book: &[u8], table: &mut [u64]) -> Result<Counts, Refusal>
    requires { index_size ≤ length table.old }
    ensures { (told result ≡ counted (reading book.now)) × (table.new ≡ filled table.old [] (scan book.now).records) }
{
    let mut chains = Chains::new();
    let mut c = Cursor::new();
    let mut n = Tally::new();
    let mut bare = true;
    let mut at = c.at;
    // Records have three sizes: the place goes on by the size of the record.
    while at < book.len() {
        let read = read_record(&book[at..], c, n, table, &chains);
        let Ok(got) = read else {
            // A refusal goes up as it is. Document 01 names `let .. else` as the form of this place, so it is not `?`.
            return read.map(|_| n.counts);
        };
        link_record(&mut chains, n.counts, got.kind, got.hash);
        bare = store(table, n, got.kind, got.number, bare);
        n = n.one_more(got.kind);
        c = got.behind;
        at = c.at;
    }
    Ok(n.counts)
}

// Copies the index in a table over that in another.
fn copy(from: &[u64], to: &mut [u64])
    requires { (index_size ≤ length from.now) × (index_size ≤ length to.old) }
    ensures { to.new ≡ take index_size from.now ++ drop index_size to.old }
{
    to[..format::INDEX_SIZE].copy_from_slice(&from[..format::INDEX_SIZE]);
}

// Reads a book and puts its records into a table of 624 numbers: the index. What is refused changes nothing: the numbers that
// the table had are put back.
pub fn index(book: &[u8], table: &mut [u64]) -> Result<Counts, Refusal>
    ensures { (told result ≡ indexing table.old book.now) × (table.new ≡ indexed table.old book.now) }
{
    if table.len() < format::INDEX_SIZE {
        return Err(Cause::ShortBuffer.at(0));
    }
    let mut kept = [0u64; format::INDEX_SIZE];
    copy(table, &mut kept);
    let reading = fill(book, table);
    if reading.is_err() {
        copy(&kept, table);
    }
    reading
}

// Reads a book: accepted, with its counts, or the first faulty record with the first number that fits.
pub fn read(book: &[u8]) -> Result<Counts, Refusal>
    ensures { told result ≡ counted (reading book.now) }
{
    let mut table = [0u64; format::INDEX_SIZE];
    fill(book, &mut table)
}

// What comes of entering a record behind the records that n counts and the index has, where `short` says that there is
// too little space.
fn judge(n: Tally, table: &[u64], short: bool, bytes: &[u8]) -> Result<Entered, Refusal>
    requires { n.counts.formulas ≤ length table.now }
    ensures { told_entered result ≡ enter_in n.counts table.now (records_in n.counts) short bytes.now }
{
    let place = n.total();
    if bytes.len() == 0 {
        return Err(Cause::WrongLength.at(place));
    }
    let size = format::size_of(bytes[0]);
    if size == 1 {
        return Err(Cause::UnknownKind.at(place));
    }
    if bytes.len() != size {
        return Err(Cause::WrongLength.at(place));
    }
    let r = format::record_at(bytes, size);
    if let Some(among) = place_among(n.counts, table, r) {
        return Ok(Entered::Present(among));
    }
    if let Some(cause) = faults::fault_of(n.counts, table, false, r) {
        return Err(cause.at(place));
    }
    if short {
        return Err(Cause::NoSpace.at(place));
    }
    Ok(Entered::Added(n.number_in(r.kind)))
}

// The record's bytes from the place `used` on. Byte by byte: `copy_from_slice` would have the archive for C need `memmove` from outside.
fn append(buffer: &mut [u8], used: usize, bytes: &[u8])
    requires { used + length bytes.now ≤ length buffer.old }
    ensures { buffer.new ≡ take used buffer.old ++ (bytes.now ++ drop (used + length bytes.now) buffer.old) }
{
    for i in 0..bytes.len() {
        buffer[used + i] = bytes[i];
    }
}

// Enters a record into a buffer of which `used` bytes are a book: a formula that is there answers its number and nothing
// is written; else the record is appended and its number in its own count is answered. What is refused changes nothing.
pub fn enter(buffer: &mut [u8], used: usize, bytes: &[u8]) -> Result<Entered, Refusal>
    ensures { (told_entered result ≡ entering buffer.old used bytes.now) × (buffer.new ≡ written (told_entered result) buffer.old used bytes.now) }
{
    if buffer.len() < used {
        return Err(Cause::NoSpace.at(0));
    }
    let mut table = [0u64; format::INDEX_SIZE];
    let counts = fill(&buffer[..used], &mut table)?;
    let short = buffer.len() - used < bytes.len();
    let entered = judge(Tally { counts }, &table, short, bytes)?;
    if let Entered::Added(_) = entered {
        append(buffer, used, bytes);
    }
    Ok(entered)
}
