// The walk through the formula of a message: what its sender has put into sections of his own. Formulas share their parts, so no tree is
// walked. One pass goes down over the records, and fields refer to earlier formulas, so a formula is marked when its turn comes, or never.
// There are two marks for each formula: number 2 × x says that x is met in the open, number 2 × x + 1 that it is met inside a section from
// the sender. A formula may be met in both ways, and the walk goes on from each.
#![tactic(auto)]

ghost use Rattle.std.specs.Prelude.{◌≡◌, ◌+◌, ◌*◌, ◌≤◌, set};
ghost use mir.Val.{bool_byte};
ghost use Rattle.format.specs.Index.{look_in};
ghost use Rattle.walks.specs.Walk.{mark_of, is_section, onward, with_marks, spread, walk_down, walk_from};

use format::Index;
use logic::Record;

// Sets a mark.
fn mark(marks: &mut [u8], i: usize)
    ensures { marks.new ≡ set marks.old i 1 }
{
    if i < marks.len() {
        marks[i] = 1;
    }
}

// The number of a mark: that x is met, in the open or inside.
fn mark_of(x: u16, inside: bool) -> usize
    ensures { (result ≡ mark_of x (bool_byte inside)) × (result ≤ 131071) }
{
    2 * usize::from(x) + usize::from(inside)
}

// Encrypted or signed.
fn is_section(kind: u8) -> bool
    ensures { result ≡ is_section kind }
{
    kind == 5 || kind == 6
}

// The records that are walked over, and the sender whose sections are entered.
#[derive(Clone, Copy)]
struct Walker<'a> {
    index: &'a Index<'a>,
    sender: u16,
}

impl Walker<'_> {
    // Where the walk goes on from the formula with the record r: to both parts of a conjunction, to the X of a combination, and into a
    // section from the sender; what is met there is inside.
    #[tactic(auto, unfolding(crate::specs::Walk::onward, crate::specs::Walk::with_marks))]
    fn go_on(&self, r: Record, inside: bool, marks: &mut [u8])
        ensures { marks.new ≡ with_marks marks.old (onward self.now.sender r (bool_byte inside)) }
    {
        let kind = r.kind;
        if kind == 4 {
            mark(marks, mark_of(r.first, inside));
            mark(marks, mark_of(r.second, inside));
            return;
        }
        if kind == 7 {
            let x = mark_of(r.first, inside);
            mark(marks, x);
            return;
        }
        if is_section(kind) && r.third == self.sender {
            mark(marks, mark_of(r.first, true));
        }
    }

    // The walk from the formula of mark i, if it is set.
    #[tactic(auto, unfolding(crate::specs::Walk::spread))]
    fn go_on_from(&self, i: usize, marks: &mut [u8])
        requires { i ≤ 131071 }
        ensures { marks.new ≡ spread (look_in self.now.index.now.formulas self.now.index.now.numbers.now) self.now.sender marks.old i }
    {
        if format::byte(marks, i) == 0 {
            return;
        }
        let r = self.index.look((i / 2) as u16);
        self.go_on(r, i % 2 == 1, marks);
    }

    // The walk from all marks below n, downwards.
    fn go_down(&self, n: usize, marks: &mut [u8])
        requires { n ≤ 131072 }
        ensures { marks.new ≡ walk_down (look_in self.now.index.now.formulas self.now.index.now.numbers.now) self.now.sender marks.old n }
    {
        for i in (0..n).rev() {
            self.go_on_from(i, marks);
        }
    }
}

// Marks what the walk for a sender meets, from a formula on.
#[tactic(auto, unfolding(crate::specs::Walk::walk_from))]
pub fn walk(index: &Index, sender: u16, formula: u16, marks: &mut [u8])
    ensures { marks.new ≡ walk_from (look_in index.now.formulas index.now.numbers.now) sender formula marks.old }
{
    let start = mark_of(formula, false);
    mark(marks, start);
    let walker = Walker { index, sender };
    walker.go_down(start + 1, marks);
}
