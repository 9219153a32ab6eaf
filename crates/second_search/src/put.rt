// Whether a record is another with one key, the same throughout, in the place of a variable. The two are walked together as trees, one
// pair of records after the other, and what stands in the one where the variable stands in the other is kept. Walked so, a formula may be
// very large, so the walk ends after some pairs; the books that are tried here need far fewer.
use crate::sheet::{Kind, Note, Sheet};

const MOST_PAIRS: u16 = 10000;

const MOST_LEFT: usize = 256;

// The walk that asks which key is put for `variable`: the key, once it was met, and the pairs that are left to compare.
#[derive(Drop)]
struct Walk<'a> {
    sheet: &'a Sheet,
    variable: u16,
    key: Option<u16>,
    pairs: [(u16, u16); MOST_LEFT],
    left: usize,
}

impl Walk<'_> {
    // Puts a pair behind those that are left; whether there is room.
    fn add(&mut self, x: u16, y: u16) -> bool {
        let room = self.left < MOST_LEFT;
        if room {
            self.pairs[self.left] = (x, y);
            self.left += 1;
        }
        room
    }

    // Takes the last pair that is left.
    fn next(&mut self) -> Option<(u16, u16)> {
        self.left = self.left.checked_sub(1)?;
        self.pairs.get(self.left).copied()
    }

    // Whether y may stand where x has a key or variable. The key is kept.
    fn met(&mut self, x: u16, y: u16) -> bool {
        if x != self.variable {
            return x == y;
        }
        let fits = self.key.is_none_or(|key| key == y);
        self.key = Some(y);
        fits && self.sheet.look(y).kind == Kind::Key
    }

    // The keys of two records that are of one kind.
    fn keys(&mut self, e: Note, f: Note) -> bool {
        match e.kind {
            Kind::Encrypted | Kind::Signed | Kind::SharedKey | Kind::PublicKey => {
                self.met(e.b, f.b)
            }
            _ => true,
        }
    }

    // The formulas in the records of two that are of one kind. Two pairs that are the same are compared once.
    fn inside(&mut self, e: Note, f: Note) -> bool {
        match e.kind {
            Kind::Conjunction | Kind::Combined => {
                self.add(e.a, f.a) && (e.a == e.b && f.a == f.b || self.add(e.b, f.b))
            }
            Kind::Encrypted
            | Kind::Signed
            | Kind::Fresh
            | Kind::Believes
            | Kind::Sees
            | Kind::Said
            | Kind::Controls => self.add(e.a, f.a),
            Kind::SharedSecret => self.add(e.b, f.b),
            _ => true,
        }
    }

    // Whether y may stand where x does, as far as their records say: what has no variable outside kind 17 is compared by its number.
    fn compare(&mut self, x: u16, y: u16) -> bool {
        let e = self.sheet.look(x);
        let f = self.sheet.look(y);
        if !e.open {
            return x == y;
        }
        e.kind == f.kind
            && e.who == f.who
            && e.whom == f.whom
            && self.keys(e, f)
            && self.inside(e, f)
    }
}

// Whether record y is record x with one key in the place of a variable.
pub fn is_put(sheet: &Sheet, variable: u16, x: u16, y: u16) -> bool {
    let mut walk = Walk {
        sheet,
        variable,
        key: None,
        pairs: [(0, 0); MOST_LEFT],
        left: 0,
    };
    if !walk.compare(x, y) {
        return false;
    }
    for _ in 1..MOST_PAIRS {
        let Some((x, y)) = walk.next() else {
            return true;
        };
        if !walk.compare(x, y) {
            return false;
        }
    }
    false
}
