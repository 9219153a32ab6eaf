// Books from a seed. Practice books are those of document 02: the state advances by a sum that wraps, and each record is entered, or
// passed over if it is refused or present. Thick books are drawn in the same way from narrower runs of formulas, with more beliefs,
// so that every rule concludes something in some of them. In delegating books variables stand beside the keys, and kind 17 is among those
// that are drawn.
//
// A recipe says how: its first byte modulo 16 how many numbers of principals there are, from two on, and divided by 16 how many
// variables; then come runs of 17 bytes. A run has how many records it tries; 0 if their kind is not drawn, 1 if it is, 2 if a belief in
// the last formula follows each; the marks from and to which formulas are drawn; how many kinds there are; and the kinds. Mark 0 is
// none, mark 1 the first datum, and mark k + 1 stands behind the formulas of run k. Where the recipe ends there are zeros. A number of a
// kind may pass the end of its run, and is then a byte of the next.
use logic::Entered;
use second_search::{Kind, byte};

const RUN_SIZE: usize = 17;

const MOST_RUNS: usize = 8;

// What is drawn for a field of a record.
#[derive(Clone, Copy)]
enum Sort {
    Nothing,
    Principal,
    Key,
    Formula,
    Message,
    Variable,
}

// The fields of a kind that is drawn, left to right.
fn sorts(kind: Kind) -> [Sort; 3] {
    match kind {
        Kind::Conjunction | Kind::Combined => [Sort::Formula, Sort::Formula, Sort::Nothing],
        Kind::Encrypted | Kind::Signed => [Sort::Formula, Sort::Key, Sort::Principal],
        Kind::SharedKey => [Sort::Principal, Sort::Key, Sort::Principal],
        Kind::PublicKey => [Sort::Key, Sort::Principal, Sort::Nothing],
        Kind::SharedSecret => [Sort::Principal, Sort::Formula, Sort::Principal],
        Kind::Fresh | Kind::Assumption => [Sort::Formula, Sort::Nothing, Sort::Nothing],
        Kind::Believes | Kind::Sees | Kind::Said | Kind::Controls => {
            [Sort::Principal, Sort::Formula, Sort::Nothing]
        }
        Kind::ForEvery => [Sort::Variable, Sort::Formula, Sort::Nothing],
        Kind::Message => [Sort::Principal, Sort::Principal, Sort::Formula],
        Kind::Goal => [Sort::Message, Sort::Formula, Sort::Nothing],
        Kind::Principal | Kind::Key | Kind::Datum | Kind::Variable => [Sort::Nothing; 3],
    }
}

// A book that is being drawn: the state, bytes used, how many records of a class are present, and the run of formulas from which one
// is drawn: from `low`, up to `high` or, if there is none, to the last one present. Variables stand right behind the two keys.
#[derive(Drop)]
struct Draft<'a> {
    book: &'a mut [u8],
    state: u32,
    used: usize,
    principals: u16,
    variables: u16,
    formulas: u16,
    messages: u16,
    low: u16,
    high: Option<u16>,
}

impl Draft<'_> {
    // Draws one of so many numbers from the first on; they are below 256.
    fn draw(&mut self, first: u16, many: u16) -> u8 {
        self.state = self.state.wrapping_add(0x9e37_79b9);
        let drawn = (self.state ^ self.state >> 16)
            .checked_rem(u32::from(many))
            .unwrap_or(0);
        (drawn.wrapping_add(u32::from(first)) % 256) as u8
    }

    fn draw_formula(&mut self) -> u8 {
        let end = self.high.unwrap_or(self.formulas);
        self.draw(self.low, end.saturating_sub(self.low))
    }

    fn draw_field(&mut self, sort: Sort) -> u8 {
        match sort {
            Sort::Nothing => 0,
            Sort::Principal => self.draw(0, self.principals),
            Sort::Key => self.draw(self.principals, self.variables % 16 + 2),
            Sort::Formula => self.draw_formula(),
            Sort::Message => self.draw(0, self.messages.saturating_add(1)),
            Sort::Variable => self.draw(self.principals.saturating_add(2), self.variables),
        }
    }

    // After a record of this kind. No book comes near the numbers at which these counts would stay as they are.
    fn grow(&mut self, kind: Kind) {
        self.used = self.used.saturating_add(kind.length());
        let more = |count: u16, counts: bool| count.saturating_add(u16::from(counts));
        self.principals = more(self.principals, kind == Kind::Principal);
        self.variables = more(self.variables, kind == Kind::Variable);
        self.formulas = more(self.formulas, kind.is_formula());
        self.messages = more(self.messages, kind == Kind::Message);
    }

    // Enters a record with these fields.
    fn enter(&mut self, kind: Kind, x: u8, y: u8, z: u8) {
        let entry = [kind as u8, 0, x, 0, y, 0, z];
        if let Some(entry) = entry.get(..kind.length())
            && let Ok(Entered::Added(_)) = book::enter(self.book, self.used, entry)
        {
            self.grow(kind);
        }
    }

    // Names 1 to the last.
    fn name(&mut self, kind: Kind, last: u8) {
        for i in 1..=last {
            self.enter(kind, i, 0, 0);
        }
    }

    // Draws the fields of a record, left to right.
    fn draw_fields(&mut self, kind: Kind) -> [u8; 3] {
        let [first, second, third] = sorts(kind);
        let x = self.draw_field(first);
        let y = self.draw_field(second);
        let z = self.draw_field(third);
        [x, y, z]
    }

    // Draws a record of this kind and enters it. 18 to 20 are no kinds, but draw the fields of 32 to 34.
    fn try_one(&mut self, number: u8) {
        if let Some(kind) = Kind::of(number) {
            let [x, y, z] = self.draw_fields(kind);
            self.enter(kind, x, y, z);
        }
        match number {
            18 => self.draw_fields(Kind::Assumption),
            19 => self.draw_fields(Kind::Message),
            20 => self.draw_fields(Kind::Goal),
            _ => [0; 3],
        };
    }

    // Somebody's belief in the last formula.
    fn believe(&mut self) {
        let who = self.draw(0, self.principals);
        let last = self.formulas.saturating_sub(1);
        self.enter(Kind::Believes, who, (last % 256) as u8, 0);
    }

    // A try of a run: its kind is drawn or not, and a belief follows or not.
    fn turn(&mut self, run: &[u8]) {
        let way = byte(run, 1);
        let chosen = match way {
            0 => 0,
            _ => self.draw(0, u16::from(byte(run, 4))),
        };
        self.try_one(byte(run, 5 + usize::from(chosen)));
        if way == 2 {
            self.believe();
        }
    }

    // The run with which the rest of a recipe begins.
    fn run(&mut self, run: &[u8], marks: &[Option<u16>; 16]) {
        self.low = mark(marks, byte(run, 2)).unwrap_or(0);
        self.high = mark(marks, byte(run, 3));
        for _ in 0..byte(run, 0) {
            self.turn(run);
        }
    }

    // Principals, two keys, variables and three data; how many, by the first byte of the recipe.
    fn start(&mut self, most: u8) {
        let principals = self.draw(2, u16::from(most % 16));
        self.name(Kind::Principal, principals);
        self.name(Kind::Key, 2);
        self.name(Kind::Variable, most / 16);
        self.name(Kind::Datum, 3);
    }
}

fn mark(marks: &[Option<u16>; 16], k: u8) -> Option<u16> {
    marks.get(usize::from(k % 16)).copied().flatten()
}

// Draws the book of a seed. How many bytes it has.
pub fn book(book: &mut [u8], recipe: &[u8], seed: u32) -> usize {
    let mut d = Draft {
        book,
        state: seed,
        used: 0,
        principals: 0,
        variables: 0,
        formulas: 0,
        messages: 0,
        low: 0,
        high: None,
    };
    d.start(byte(recipe, 0));
    let mut marks = [None; 16];
    marks[1] = Some(d.principals.saturating_add(d.variables).saturating_add(2));
    for k in 0..MOST_RUNS {
        d.run(recipe.get(RUN_SIZE * k + 1..).unwrap_or(&[]), &marks);
        marks[k + 2] = Some(d.formulas);
    }
    d.used
}
