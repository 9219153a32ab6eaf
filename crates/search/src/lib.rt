// Survey and prover: what follows from a book, and how.
#![tactic(auto)]

ghost use Rattle.std.specs.Prelude.{◌≡◌, ◌+◌, ◌*◌, ◌<◌, ◌≤◌, replicate, take, eqb};
ghost use Rattle.logic.specs.declared.Record.{Record};
ghost use Rattle.logic.specs.Survey.{Surveyed as IsSurveyed};
ghost use Rattle.flat.specs.Layout.{kind_at, rank_at};
ghost use Rattle.logic.specs.Proof.{Proved as IsProved};
ghost use Rattle.logic.specs.Refusal.{told};
ghost use Rattle.logic.specs.Refusal.Outcome.{accepted};
ghost use Rattle.tables.specs.Links.{linked};
ghost use Rattle.tables.specs.Users.{users_of};
ghost use Rattle.tables.specs.Deliveries.{deliveries_of};
ghost use Rattle.tables.specs.Delegations.{delegations_of};
ghost use Rattle.instances.specs.Rows.{instances_of};
ghost use Rattle.search.specs.Told.{answered, told_proved};
ghost use Rattle.search.specs.Answers.{names_upto, answer_of};
ghost use Rattle.search.specs.Found.{FoundIs, LaidFoundIs};
ghost use Rattle.search.specs.Laid.{laid_flat, laid_rows, every_assumption, LaidSurveyIs, SurveyIs};

use derive::{Derived, Holder, Log};
use engine::Laid;
use flat::Flat;
use format::Index;
use logic::{Cause, Counts, Record, Refusal};
use stages::{Given, Sizes};

// The set of all 64 assumptions.
const EVERY_ASSUMPTION: u64 = u64::MAX;

// The places of one principal: 3 + 2 × p for each of n formulas.
fn block_size(n: usize, p: usize) -> usize
    requires { (n ≤ 256) × (p ≤ 8) }
    ensures { (result ≡ n * (3 + 2 * p)) × (result ≤ 4864) }
{
    n * (3 + 2 * p)
}

// How much there is of a book, as the stages take it.
fn sizes_of(n: Counts) -> Sizes
    requires { n.principals ≤ 8 }
    ensures { (result.formulas ≡ n.formulas) × (result.principals ≡ n.principals) × (result.assumptions ≡ n.assumptions) }
{
    Sizes {
        formulas: n.formulas,
        principals: n.principals as u8,
        assumptions: n.assumptions,
    }
}

// The tables of a book that the engine goes by, beside the flat array.
#[derive(Drop)]
struct Tables {
    links: [u8; 512],
    users: [u64; 1024],
    deliveries: [u16; 16],
}

impl Tables {
    fn new() -> Tables
        ensures { (result.links ≡ replicate 512 0) × (result.users ≡ replicate 1024 0) × (result.deliveries ≡ replicate 16 0) }
    {
        Tables {
            links: [0; 512],
            users: [0; 1024],
            deliveries: [0; 16],
        }
    }

    // The chains of the statements and the users of each formula, of n formulas, and the first m deliveries.
    fn list(&mut self, flat: &Flat, n: usize, m: usize)
        ensures { (self.new.links ≡ linked flat.now.bytes n self.old.links) × (self.new.users ≡ users_of flat.now.bytes n self.old.users) × (self.new.deliveries ≡ deliveries_of flat.now.bytes m self.old.deliveries) }
    {
        tables::link(flat, n, &mut self.links);
        tables::list_users(flat, n, &mut self.users);
        tables::list_deliveries(flat, m, &mut self.deliveries);
    }

    // The book that they are of, as the engine looks at it.
    fn laid<'a>(&'a self, flat: &'a Flat, rows: &'a [u64]) -> Laid<'a>
        ensures { (result.flat.now ≡ flat.now) × (result.links.now ≡ self.now.links) × (result.rows.now ≡ rows.now) × (result.users.now ≡ self.now.users) }
    {
        Laid {
            flat,
            links: &self.links,
            rows,
            users: &self.users,
        }
    }

    // What is given of it: all its assumptions, and the first m deliveries.
    fn given(&self, n: Counts, m: usize) -> Given<'_>
        requires { (n.principals ≤ 8) × (m ≤ 16) }
        ensures sizes { (result.sizes.formulas ≡ n.formulas) × (result.sizes.principals ≡ n.principals) × (result.sizes.assumptions ≡ n.assumptions) }
        ensures given { (result.force ≡ every_assumption) × (result.deliveries.now ≡ take m self.now.deliveries) }
    {
        Given {
            sizes: sizes_of(n),
            force: EVERY_ASSUMPTION,
            deliveries: &self.deliveries[..m],
        }
    }
}

// The survey of a book that is laid out: its table, at first with any bytes, has just the places of the survey. The counts go along with their
// limits, and no struct has both: two functions have them with the index and two with the flat array and the rows, so it would take two structs,
// made by two functions each and used by one: no plainer.
fn survey_laid(flat: &Flat, rows: &[u64], n: Counts, table: &mut [u8]) -> usize
    requires { (n.formulas ≤ 256) × (n.principals ≤ 8) × (n.assumptions ≤ 64) × (n.messages ≤ 16) }
    ensures { LaidSurveyIs flat.now.bytes rows.now n table.old table.new result }
{
    table.fill(0);
    let mut tables = Tables::new();
    tables.list(flat, n.formulas, n.messages);
    let laid = tables.laid(flat, rows);
    let given = tables.given(n, n.messages);
    stages::survey(&laid, &given, table)
}

// The instances of each formula and who lets somebody control each, for a book that has a kind 17.
fn list_rows(index: &Index, flat: &Flat, rows: &mut [u64; 2048])
    ensures { rows.new ≡ delegations_of flat.now.bytes index.now.formulas (instances_of index.now.numbers.now index.now.formulas rows.old) }
{
    instances::list_instances(index, rows);
    tables::list_delegations(flat, index.formulas, rows);
}

// The survey of a book by its index. A book without kind 17 has no rows: they need not even be cleared.
fn survey_indexed(index: &Index, n: Counts, table: &mut [u8]) -> usize
    requires limits { (n.formulas ≤ 256) × (n.principals ≤ 8) × (n.assumptions ≤ 64) × (n.messages ≤ 16) }
    requires formulas { index.now.formulas ≡ n.formulas }
    ensures { SurveyIs index.now.numbers.now n table.old table.new result }
{
    let mut flat = Flat { bytes: [0; 2144] };
    layout::lay_out(index, n, &mut flat.bytes);
    if !instances::has_delegation(index) {
        return survey_laid(&flat, &[], n, table);
    }
    let mut rows = [0u64; 2048];
    list_rows(index, &flat, &mut rows);
    survey_laid(&flat, &rows, n, table)
}

// The survey of a book: for every fact that can be written in it, 0 if it never follows, else 1 + the number of the first message
// after which it follows, in the order of the places. Returns how many places hold a fact.
pub fn survey(book: &[u8], table: &mut [u8]) -> Result<usize, Refusal>
    ensures { IsSurveyed book.now table.old table.new (told result) }
{
    let mut numbers = [0u64; format::INDEX_SIZE];
    let n = book::index(book, &mut numbers)?;
    let size = n.principals * block_size(n.formulas, n.principals);
    if table.len() < size {
        return Err(Cause::ShortBuffer.at(0));
    }
    let index = Index {
        numbers: &numbers,
        formulas: n.formulas,
    };
    Ok(survey_indexed(&index, n, &mut table[..size]))
}

// A goal that is reached: how many steps its derivation has, and how many bytes; and how many facts are held after its message.
#[derive(Clone, Copy)]
pub struct Proof {
    pub steps: u16,
    pub bytes: usize,
    pub held: usize,
}

// The answer of the prover: reached; or not reached, with the number of facts held.
#[derive(Clone, Copy)]
pub enum Proved {
    Reached(Proof),
    NotReached(usize),
}

fn is_principal(flat: &Flat, x: u8) -> bool
    ensures { result ≡ eqb (kind_at flat.now.bytes x) 1 }
{
    flat.kind_at(x) == facts::PRINCIPAL
}

// The formula numbers of all principals, by rank.
#[tactic(auto, unfolding(crate::specs::Answers::names_upto))]
fn list_names(flat: &Flat, n: usize, names: &mut [u8; 8])
    requires { n ≤ 256 }
    ensures { names.new ≡ names_upto flat.now.bytes n names.old }
{
    for x in 0..n {
        if is_principal(flat, x as u8) {
            names[usize::from(flat.rank_at(x as u8))] = x as u8;
        }
    }
}

// The answer by what was written: a goal without steps is one that was not found. `derive` tells the steps as a number and not as an
// `Option`, since its contract (`Writes`) gives the number, 0 too, and is not to change.
fn told_by(done: Derived, held: usize) -> Proved
    ensures { answered result ≡ answer_of done.steps done.bytes held }
{
    if done.steps == 0 {
        return Proved::NotReached(held);
    }
    Proved::Reached(Proof {
        steps: done.steps,
        bytes: done.bytes,
        held,
    })
}

// Proves what formula f states, in the book that is laid out with what is given of it: what all principals hold is found, with the log of its
// own principal, and the derivation is taken from that log.
fn prove_laid(laid: &Laid, given: &Given, f: u8, log: &mut [u8], derivation: &mut [u8]) -> Proved
    requires { (given.now.sizes.formulas ≤ 256) × (given.now.force ≡ every_assumption) }
    ensures { FoundIs laid.now.flat.now.bytes laid.now.links.now laid.now.rows.now laid.now.users.now given.now.deliveries.now given.now.sizes.formulas given.now.sizes.principals given.now.sizes.assumptions f log.old derivation.old derivation.new (accepted (answered result)) }
{
    let flat = laid.flat;
    let formula = flat.first_at(f);
    let found = stages::find(laid, given, flat.rank_at(formula), log);
    let mut names = [0u8; 8];
    list_names(flat, given.sizes.formulas, &mut names);
    let holder = Holder {
        formula,
        names: &names,
        principals: given.sizes.principals,
    };
    let log = Log {
        bytes: log,
        count: found.count,
    };
    let n = given.sizes.formulas as u16;
    let done = derive::write_derivation(&log, &holder, n, flat.stated_at(f), derivation);
    told_by(done, found.held)
}

// The same for a goal record of a book that is laid out: what holds after its message, and the formula that it asks for.
fn prove_from(
    flat: &Flat,
    rows: &[u64],
    n: Counts,
    goal: Record,
    log: &mut [u8],
    derivation: &mut [u8],
) -> Proved
    requires { (n.formulas ≤ 256) × (n.principals ≤ 8) × (n.assumptions ≤ 64) × (goal.first ≤ 16) }
    ensures { LaidFoundIs flat.now.bytes rows.now n goal log.old derivation.old derivation.new (accepted (answered result)) }
{
    let m = usize::from(goal.first);
    let mut tables = Tables::new();
    tables.list(flat, n.formulas, m);
    let laid = tables.laid(flat, rows);
    let given = tables.given(n, m);
    let f = (goal.second % 256) as u8;
    prove_laid(&laid, &given, f, log, derivation)
}

// The same for a book by its index. A book without kind 17 has no rows. The choice stands here and at the survey. Tried:
// one function that hands the book and its rows to a closure. What a closure that is called once leaves behind a `&mut` that it has taken is not
// known to its caller, so the proof did not close.
fn prove_goal(
    index: &Index,
    n: Counts,
    goal: Record,
    log: &mut [u8],
    derivation: &mut [u8],
) -> Proved
    requires limits { (n.formulas ≤ 256) × (n.principals ≤ 8) × (n.assumptions ≤ 64) × (goal.first ≤ 16) }
    requires formulas { index.now.formulas ≡ n.formulas }
    ensures { LaidFoundIs (laid_flat index.now.numbers.now n) (laid_rows index.now.numbers.now n) n goal log.old derivation.old derivation.new (accepted (answered result)) }
{
    let mut flat = Flat { bytes: [0; 2144] };
    layout::lay_out(index, n, &mut flat.bytes);
    if !instances::has_delegation(index) {
        return prove_from(&flat, &[], n, goal, log, derivation);
    }
    let mut rows = [0u64; 2048];
    list_rows(index, &flat, &mut rows);
    prove_from(&flat, &rows, n, goal, log, derivation)
}

// Proves goal `goal` of a book: reached, with a derivation at the front of `derivation`, or not reached, which is said only where no
// derivation exists. `work` holds the log; eight bytes of it and twelve of `derivation` are needed for each place of the survey.
pub fn prove(
    book: &[u8],
    goal: u32,
    work: &mut [u8],
    derivation: &mut [u8],
) -> Result<Proved, Refusal>
    ensures { IsProved book.now goal work.old work.new derivation.old derivation.new (told_proved result) }
{
    let mut numbers = [0u64; format::INDEX_SIZE];
    let n = book::index(book, &mut numbers)?;
    let place = goal as usize;
    if n.goals <= place {
        return Err(Cause::NoSuchGoal.at(place));
    }
    let size = n.principals * block_size(n.formulas, n.principals);
    if work.len() < size * 8 || derivation.len() < size * 12 {
        return Err(Cause::ShortBuffer.at(0));
    }
    let index = Index {
        numbers: &numbers,
        formulas: n.formulas,
    };
    let asked = index.goal_at(place);
    Ok(prove_goal(&index, n, asked, &mut work[..size * 8], derivation))
}
