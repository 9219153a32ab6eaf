// The places of a survey, by the index of a book: the mode and the principals of the fact that a place is of, the place of a belief, how many
// places hold a fact, and how many goals a survey has as reached. A `Size` has numbers of 16 bits, so that every place fits a number of 64.
#![tactic(auto)]

ghost use Rattle.std.specs.Prelude.{◌≡◌, cond, ◌+◌, ◌-◌, ◌*◌, ◌≤◌, min, get_or, take, eqb};
ghost use Rattle.format.specs.Index.{goals_from, goal_in, look_in};
ghost use Rattle.logic.specs.Place.{rank, place as place_of};
ghost use Rattle.logic.specs.Written.{opened, stated_on};
ghost use Rattle.logic.specs.Survey.{held as held_in, is_within};
ghost use Rattle.logic.specs.Listing.{count_true, marks_by};
ghost use Rattle.written.specs.Stated.{records_in};
ghost use Rattle.places.specs.Places.{Sized, belief_place, goals_in, mark_of, mode_of, other_in};

use format::Index;
use logic::Record;

// The principal of rank a, from a list of them by rank; 0 past the end.
pub fn of_rank(names: &[u16], a: usize) -> u16
    ensures { result ≡ get_or names.now a 0 }
{
    names.get(a).copied().unwrap_or(0)
}

// The mode of the fact with number m among those of a principal and a formula; there are p principals.
pub fn mode_of(p: usize, m: usize) -> u8
    ensures { result ≡ mode_of p m }
{
    match m {
        0 => 1,
        1 => 2,
        2 => 3,
        _ => { if m - 3 < p { 4 } else { 5 } }
    }
}

// Its second principal, or 0 where it has none.
#[tactic(auto, unfolding(crate::specs::Places::other_in))]
pub fn other_of(names: &[u16], p: usize, m: usize) -> u16
    ensures { result ≡ other_in names.now p m }
{
    if m < 3 {
        return 0;
    }
    if m - 3 < p {
        return of_rank(names, m - 3);
    }
    of_rank(names, m - 3 - p)
}

// How many of the first n bytes of a table are not 0. As a chain, `iter().take(n).filter(..).count()`, it had the call for the last piece of a
// listing take 1.8 times the instructions.
pub fn count_held(table: &[u8], n: usize) -> usize
    ensures { result ≡ held_in (take n table.now) }
{
    let mut held: usize = 0;
    for b in &table[..n.min(table.len())] {
        held += usize::from(0 < *b);
    }
    held
}

// The rank of formula x: how many principals stand before it.
#[tactic(auto, using(crate::proofs::Laws::rank_step), unfolding(logic::specs::Place::rank, logic::specs::Count::of_kind))]
fn rank_of(index: &Index, x: u16) -> u16
    ensures { result ≡ rank (records_in index.now.formulas index.now.numbers.now) x }
{
    let mut r: u16 = 0;
    for i in 0..x {
        r += u16::from(index.is_principal(i));
    }
    r
}

// How many formulas and principals there are.
#[derive(Clone, Copy)]
pub struct Size {
    pub formulas: u16,
    pub principals: u16,
}

impl Size {
    // The place of the fact with number m about the principal of rank a and formula x.
    fn place_with(self, a: u16, x: u16, m: usize) -> usize
        requires { m ≤ 131073 }
        ensures { result ≡ (a * self.formulas + x) * (3 + 2 * self.principals) + m }
    {
        (usize::from(a) * usize::from(self.formulas) + usize::from(x))
            * (3 + 2 * usize::from(self.principals))
            + m
    }

    // The place of the belief of the principal of rank a in formula x, opened. r is the record of x, and b the rank of its first field, which
    // is a principal where the belief has two.
    #[tactic(auto, unfolding(crate::specs::Places::belief_place))]
    pub fn belief_place(self, a: u16, x: u16, r: Record, b: u16) -> usize
        ensures { result ≡ belief_place self.formulas self.principals a x r b }
    {
        match r.kind {
            11 => self.place_with(a, r.first, 2),
            14 => self.place_with(a, r.second, 3 + usize::from(b)),
            12 => self.place_with(
                a,
                r.second,
                3 + usize::from(self.principals) + usize::from(b),
            ),
            _ => self.place_with(a, x, 1),
        }
    }
}

// The formulas and principals of an index of so many formulas. Where the index is shorter than that, those that it has.
pub fn size_of(numbers: &[u64], formulas: u16) -> Size
    ensures { Sized (records_in formulas numbers.now) result.formulas result.principals }
{
    let index = Index {
        numbers,
        formulas: usize::from(formulas),
    };
    let formulas = index.formulas.min(numbers.len()) as u16;
    Size {
        formulas,
        principals: rank_of(&index, formulas),
    }
}

// The formulas of an index, with their size.
#[derive(Clone, Copy)]
struct Formulas<'a> {
    index: Index<'a>,
    size: Size,
    ghost sized: { Sized (records_in index.formulas index.numbers.now) size.formulas size.principals },
}

impl Formulas<'_> {
    // The place of the belief of p in formula x, opened.
    fn opened_place(&self, p: u16, x: u16) -> usize
        ensures { result ≡ place_of (records_in self.now.index.formulas self.now.index.numbers.now) (opened (records_in self.now.index.formulas self.now.index.numbers.now) p x) }
    {
        let r = self.index.look(x);
        let a = rank_of(&self.index, p);
        let b = rank_of(&self.index, r.first);
        self.size.belief_place(a, x, r, b)
    }

    // The place of what formula x, of kind 12 or 13, states.
    fn stated_place(&self, x: u16) -> usize
        ensures { result ≡ place_of (records_in self.now.index.formulas self.now.index.numbers.now) (stated_on (records_in self.now.index.formulas self.now.index.numbers.now) (look_in self.now.index.formulas self.now.index.numbers.now x)) }
    {
        let r = self.index.look(x);
        if r.kind == 12 {
            return self.opened_place(r.first, r.second);
        }
        self.size
            .place_with(rank_of(&self.index, r.first), r.second, 0)
    }

    // Whether the table's byte of what goal g asks for is 1 to 1 + its message number.
    fn is_reached(&self, g: usize, table: &[u8]) -> bool
        ensures { result ≡ mark_of (records_in self.now.index.formulas self.now.index.numbers.now) table.now (goal_in self.now.index.numbers.now g) }
    {
        let goal = self.index.goal_at(g);
        let place = self.stated_place(goal.second);
        is_within(goal.first, format::byte(table, place))
    }
}

// Whether a byte of a survey is 1 to 1 + m.
fn is_within(m: u16, byte: u8) -> bool
    ensures { result ≡ is_within m byte }
{
    (1..=usize::from(m) + 1).contains(&usize::from(byte))
}

// How many of a number of goals an index of this length has.
fn goals_held(length: usize, goals: u16) -> usize
    ensures { (result ≡ min goals (length - goals_from)) × (result ≤ 65535) }
{
    usize::from(goals).min(length.saturating_sub(format::GOALS_FROM))
}

// How many goals the table has as reached.
pub fn count_reached(numbers: &[u64], formulas: u16, goals: u16, table: &[u8]) -> u32
    ensures { result ≡ count_true (marks_by (records_in formulas numbers.now) (goals_in goals numbers.now) table.now) }
{
    let book = Formulas {
        index: Index {
            numbers,
            formulas: usize::from(formulas),
        },
        size: size_of(numbers, formulas),
    };
    let mut reached: u32 = 0;
    for g in 0..goals_held(numbers.len(), goals) {
        reached += u32::from(book.is_reached(g, table));
    }
    reached
}
