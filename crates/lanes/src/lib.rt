// What all principals see and believe: the one store of every fact, and the one test of every rule.
#![tactic(auto)]

ghost use Rattle.std.specs.Prelude.{◌≡◌, ◌+◌, ◌*◌, ◌/◌, ◌^◌, ◌<◌, ◌≤◌, get_or, set};
ghost use Rattle.facts.specs.Facts.{bit_at};
ghost use Rattle.lanes.specs.Lanes.{word_of, shift_of, lane, state, marked, common, is_new, noted, counted, is_held, entered, holders, concluded};
ghost use Rattle.lanes.specs.Held.{state_of, SameLog};

use facts::{Cell, Instance};

// Where the lane of a cell is: its word, and the bit of the word where it begins. Bits 0 to 2 of a cell are the last three lanes of a
// word, so five more than the bit is the lane, counted through the words of the formula.
fn word_of(q: Cell) -> usize
    ensures { (result ≡ word_of q) × (result < 1024) }
{
    usize::from(q.formula) + 256 * ((usize::from(q.bit) + 5) / 8 % 4)
}

fn shift_of(q: Cell) -> usize
    ensures { (result ≡ shift_of q) × (result ≤ 56) }
{
    8 * ((usize::from(q.bit) + 5) % 8)
}

fn is_in(set: u8, rank: u8) -> bool
    ensures { result ≡ bit_at set rank }
{
    rank < 8 && (set >> rank) % 2 == 1
}

// Whether the principal of this rank is new in a set.
fn is_new(rank: u8, old: u8, new: u8) -> bool
    ensures { result ≡ is_new rank old new }
{
    is_in(new, rank) && !is_in(old, rank)
}

// A set of principals as the lane of a cell, at its place in the word.
fn raised(who: u8, q: Cell) -> u64
    ensures { result ≡ who * 2 ^ shift_of q }
{
    u64::from(who) << shift_of(q)
}

// The last number that the log can count to.
const LAST: u16 = 65535;

// What is held: the words of all formulas, the records to be looked at again, and the log of the principal with the rank `logged`, of which
// `count` entries are written; a rank of 8 or more is nobody's. `logged` is a number and no Option, as `find` of the stages takes any number and
// promises what it finds for each (`FindingOf`). `count` stands beside the log, as it is no length of it: it is the number of the next fact
// (`noted`, `counted`), and goes on where the log has no more place.
#[derive(Drop)]
pub struct Held<'a> {
    pub words: [u64; 1024],
    pub pending: [u64; 4],
    pub log: &'a mut [u8],
    pub count: u16,
    pub logged: u8,
}

impl<'a> Held<'a> {
    fn word_at(&self, q: Cell) -> u64
        ensures { result ≡ get_or self.now.words (word_of q) 0 }
    {
        self.words[word_of(q)]
    }

    // The principals who hold the fact of a cell.
    pub fn lane(&self, q: Cell) -> u8
        ensures { result ≡ lane self.now.words q }
    {
        ((self.word_at(q) >> shift_of(q)) % 256) as u8
    }

    // The users of formula x have to be looked at again. One line for each of the four words: a loop over both tables needs a slice of the one,
    // and is no plainer.
    fn mark(&mut self, users: &[u64; 1024], x: u8)
        ensures { self.new ≡ record self.old { pending = marked users.now self.old.pending x } }
    {
        let at = usize::from(x) * 4;
        self.pending[0] |= users[at];
        self.pending[1] |= users[at + 1];
        self.pending[2] |= users[at + 2];
        self.pending[3] |= users[at + 3];
    }

    // Notes in the log what an instance found, where it is news: the fact gets the number `count`, and its entry stands at that place. The
    // number has 16 bits and is counted in 16; a principal has at most 4,864 facts, so the log's count never gets to the last number.
    fn note(&mut self, news: bool, i: Instance)
        ensures log { SameLog self.old self.new }
        ensures state { state_of self.new ≡ state self.old.words self.old.pending (noted news i self.old.log.now self.old.count) (counted news self.old.count) }
    {
        if !news || self.count == LAST {
            return;
        }
        let p = i.first;
        let q = i.second;
        let found = i.gives;
        let entry = [
            found.formula,
            found.bit,
            i.kind,
            0,
            p.formula,
            p.bit,
            q.formula,
            q.bit,
        ];
        digits::put_text(self.log, usize::from(self.count) * 8, &entry);
        self.count += 1;
    }

    // The one store: a word with something new, whose formula's users have to be looked at again.
    fn store(&mut self, users: &[u64; 1024], q: Cell, word: u64)
        ensures { self.new ≡ record self.old { words = set self.old.words (word_of q) word; pending = marked users.now self.old.pending q.formula } }
    {
        self.words[word_of(q)] = word;
        self.mark(users, q.formula);
    }

    // The principals of a set hold what the instance gives. `give` does the same and stands beside it for speed: so the store has two callers and
    // is no part of `fire`, which is 2.3 to 5 times faster (docs/PROVING.md, "Time of code").
    fn enter(&mut self, users: &[u64; 1024], who: u8, i: Instance)
        ensures log { SameLog self.old self.new }
        ensures state { state_of self.new ≡ entered users.now self.old.logged who i (state_of self.old) }
    {
        let q = i.gives;
        let old = self.word_at(q);
        let new = old | raised(who, q);
        if new == old {
            return;
        }
        let news = is_new(self.logged, self.lane(q), who);
        self.store(users, q, new);
        self.note(news, i);
    }

    // Those who may use the instance and hold both its premises.
    fn holders(&self, may: u8, i: Instance) -> u8
        ensures { result ≡ holders self.now.words (common may i) }
    {
        may & (self.lane(i.first) & self.lane(i.second))
    }

    // Whether all of a set hold the fact of a cell.
    fn is_held(&self, who: u8, q: Cell) -> bool
        ensures { result ≡ is_held self.now.words who q }
    {
        let word = self.word_at(q);
        word | raised(who, q) == word
    }

    // The principals of a set are given a fact: an assumption or a message.
    pub fn give(&mut self, users: &[u64; 1024], who: u8, i: Instance)
        ensures log { SameLog self.old self.new }
        ensures state { state_of self.new ≡ entered users.now self.old.logged who i (state_of self.old) }
    {
        self.enter(users, who, i);
    }

    // The instance of a rule at work, for those who may use it. What is new for the principal with the rank `logged` is noted in the log. Mostly
    // nothing is new: that is found out first, by few instructions, so that this function can be a part of its callers.
    pub fn fire(&mut self, users: &[u64; 1024], may: u8, i: Instance)
        ensures log { SameLog self.old self.new }
        ensures state { state_of self.new ≡ concluded users.now self.old.logged (state_of self.old) (common may i) }
    {
        let who = self.holders(may, i);
        if self.is_held(who, i.gives) {
            return;
        }
        self.enter(users, who, i);
    }
}
