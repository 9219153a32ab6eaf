// The flat array of a book, read: the fields of its formula records, and where what a formula states is kept.
#![tactic(auto)]

ghost use Rattle.std.specs.Prelude.{◌≡◌, ◌+◌, ◌*◌, ◌<◌};
ghost use Rattle.flat.specs.Layout.{field_at, kind_at, first_at, second_at, third_at, clear_at, rank_at, opened_at, stated_at};

use facts::Cell;

// The kind of a formula that is a belief.
const BELIEF: u8 = facts::BELIEF;

// The flat array of a book: eight bytes a formula, then the assumptions and the messages. It is one array and not one for each part, since
// all theorems about what is derived speak of its bytes.
#[derive(Drop)]
pub struct Flat {
    pub bytes: [u8; 2144],
}

impl Flat {
    fn field(&self, x: u8, k: usize) -> u8
        requires { k < 8 }
        ensures { result ≡ field_at self.now.bytes x k }
    {
        self.bytes[usize::from(x) * facts::PARTS + k]
    }

    pub fn kind_at(&self, x: u8) -> u8
        ensures { result ≡ kind_at self.now.bytes x }
    {
        self.field(x, facts::KIND)
    }

    pub fn first_at(&self, x: u8) -> u8
        ensures { result ≡ first_at self.now.bytes x }
    {
        self.field(x, facts::FIRST)
    }

    pub fn second_at(&self, x: u8) -> u8
        ensures { result ≡ second_at self.now.bytes x }
    {
        self.field(x, facts::SECOND)
    }

    pub fn third_at(&self, x: u8) -> u8
        ensures { result ≡ third_at self.now.bytes x }
    {
        self.field(x, facts::THIRD)
    }

    pub fn is_clear(&self, x: u8) -> bool
        ensures { result ≡ clear_at self.now.bytes x }
    {
        self.field(x, facts::CLEAR) == 1
    }

    // The rank of principal x.
    pub fn rank_at(&self, x: u8) -> u8
        ensures { (result ≡ rank_at self.now.bytes x) × (result < 8) }
    {
        self.field(x, facts::RANK) % facts::RANKS
    }

    // Where the belief in formula x is kept, opened.
    pub fn opened_at(&self, x: u8) -> Cell
        ensures { result ≡ opened_at self.now.bytes x }
    {
        Cell {
            formula: self.field(x, facts::OPENED_FORMULA),
            bit: self.field(x, facts::OPENED_BIT),
        }
    }

    // Where the fact that formula f states is kept: f is of kind 12 or 13.
    pub fn stated_at(&self, f: u8) -> Cell
        ensures { result ≡ stated_at self.now.bytes f }
    {
        let x = self.second_at(f);
        if self.kind_at(f) == BELIEF {
            return self.opened_at(x);
        }
        Cell {
            formula: x,
            bit: facts::SEES,
        }
    }
}
