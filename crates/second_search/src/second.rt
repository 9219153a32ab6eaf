// The second prover. It works backwards, fact by fact: of each fact that is not yet in the table it asks whether some rule of
// document 01, or of document 02's wish 4, concludes it from facts that are, by the shape of the conclusion, and it goes over all facts
// of all principals until nothing is added. Places are those of document 01.
use crate::put;
use crate::sheet::{Fact, Kind, Mode, Note, Sheet, byte};

// F is at most so many.
pub const PLACES: usize = 38912;

// One of the principals, and what all hold so far.
#[derive(Clone, Copy)]
struct View<'a> {
    sheet: &'a Sheet,
    table: &'a [u8],
    who: u8,
}

impl View<'_> {
    fn held(self, x: u16, mode: Mode) -> bool {
        byte(self.table, self.sheet.place(self.who, Fact { x, mode })) != 0
    }

    // Whether he believes in record x, opened.
    fn believed(self, x: u16) -> bool {
        let fact = self.sheet.opened(x);
        self.held(fact.x, fact.mode)
    }

    // The other of two who share a key or a secret y, if he is one of them.
    fn partner(self, y: Note) -> Option<u8> {
        if y.who == self.who {
            return Some(y.whom);
        }
        (y.whom == self.who).then_some(y.who)
    }

    // Who said what is in e, which he sees, if he believes y: rules 1, 2 and 3.
    fn sayer(self, e: Note, y: Note) -> Option<u8> {
        match (e.kind, y.kind) {
            (Kind::Encrypted, Kind::SharedKey) | (Kind::Combined, Kind::SharedSecret) => {
                self.partner(y)
            }
            (Kind::Signed, Kind::PublicKey) => Some(y.who),
            _ => None,
        }
    }

    // Whether e, which he sees, opens to him (rules 9, 10 and 11) or was said by the one of the mode, if he believes y. Kind 7 is open
    // to all, and is not asked about here.
    fn fits(self, e: Note, y: Note, mode: Mode) -> bool {
        if e.b != y.b || e.kind != Kind::Combined && e.who == self.who {
            return false;
        }
        let own = e.kind == Kind::Encrypted && y.kind == Kind::PublicKey && y.who == self.who;
        match self.sayer(e, y) {
            Some(q) => mode == Mode::Sees || mode == Mode::Said(q),
            None => mode == Mode::Sees && own,
        }
    }

    // Whether he believes in a record that fits e.
    fn by_key(self, e: Note, mode: Mode) -> bool {
        (0..self.sheet.n).any(|y| self.held(y, Mode::Believes)
            && self.fits(e, self.sheet.look(y), mode))
    }

    // Whether a delegation e in which he believes gives him a belief in s: what the one who is trusted believes of some key (rule 86), or
    // his control of it (87). The key is the one that stands in s, so keys that the book does not have need not be tried: a control by such
    // a key is no record, and where it would serve rule 5 there is the belief of the one who is trusted, and 86 gives the same.
    fn by_delegation(self, e: Note, s: u16) -> bool {
        let control = self.sheet.look(e.a);
        put::is_put(self.sheet, e.b, e.a, s)
            || self.held(s, Mode::Holds(control.who)) && put::is_put(self.sheet, e.b, control.a, s)
    }

    // Whether what holds of r gives him the fact, a belief in s: a pair its parts, which are as the pair is (rules 6, 7, 14 to 17) and
    // are believed with it (18 and 19); what is sealed or combined what it holds (1 to 3 and 8 to 11); "q controls s" a belief in it
    // (5), and so does a delegation (86 and 87).
    fn gives(self, fact: Fact, s: Option<u16>, r: u16) -> bool {
        let e = self.sheet.look(r);
        match e.kind {
            Kind::Conjunction => self.gives_part(e, fact, s, r),
            Kind::Controls => {
                s == Some(e.a) && self.held(r, Mode::Believes) && self.held(e.a, Mode::Holds(e.who))
            }
            Kind::ForEvery => {
                self.held(r, Mode::Believes) && s.is_some_and(|s| self.by_delegation(e, s))
            }
            Kind::Encrypted | Kind::Signed | Kind::Combined => {
                e.a == fact.x
                    && self.held(r, Mode::Sees)
                    && (e.kind == Kind::Combined && fact.mode == Mode::Sees
                        || self.by_key(e, fact.mode))
            }
            _ => false,
        }
    }

    fn gives_part(self, e: Note, fact: Fact, s: Option<u16>, r: u16) -> bool {
        (e.a == fact.x || e.b == fact.x) && fact.mode != Mode::Fresh && self.held(r, fact.mode)
            || (s == Some(e.a) || s == Some(e.b)) && self.held(r, Mode::Believes)
    }

    // Whether some record gives the fact, a belief in s.
    fn by_some(self, fact: Fact, s: Option<u16>) -> bool {
        (0..self.sheet.n).any(|r| self.gives(fact, s, r))
    }

    // What follows from the parts of a pair x (rules 20, 12 and 13), or from other facts about x (rule 4).
    fn by_itself(self, fact: Fact) -> bool {
        let e = self.sheet.look(fact.x);
        let pair = e.kind == Kind::Conjunction;
        match fact.mode {
            Mode::Believes => pair && self.believed(e.a) && self.believed(e.b),
            Mode::Fresh => pair && (self.held(e.a, Mode::Fresh) || self.held(e.b, Mode::Fresh)),
            Mode::Holds(q) => {
                !e.sealed && self.held(fact.x, Mode::Fresh) && self.held(fact.x, Mode::Said(q))
            }
            Mode::Sees | Mode::Said(_) => false,
        }
    }

    // The record a belief in which is the fact: x itself, or "fresh x", "q said x" or "q believes x" that is opened into this mode.
    fn content(self, fact: Fact) -> Option<u16> {
        if fact.mode == Mode::Believes {
            return Some(fact.x);
        }
        (0..self.sheet.n).find(|s| self.sheet.opened(*s) == fact)
    }

    // Whether a fact may be written: no principal and no key, no variable outside kind 17, and no belief unopened.
    fn written(self, fact: Fact) -> bool {
        let e = self.sheet.look(fact.x);
        !matches!(e.kind, Kind::Principal | Kind::Key)
            && !e.open
            && (fact.mode != Mode::Believes || e.mode() == Mode::Believes)
    }

    // Whether a fact that is not held may be written and follows.
    fn is_due(self, fact: Fact) -> bool {
        !self.held(fact.x, fact.mode)
            && self.written(fact)
            && (self.by_itself(fact) || self.by_some(fact, self.content(fact)))
    }
}

// The survey of a book, under way: what is entered now gets the stamp.
#[derive(Drop)]
struct Finder<'a> {
    sheet: &'a Sheet,
    table: &'a mut [u8; PLACES],
    stamp: u8,
}

impl Finder<'_> {
    // Enters the fact at a place, if it is not there; whether it was entered.
    fn give(&mut self, i: usize) -> bool {
        let new = i < PLACES && self.table[i] == 0;
        if new {
            self.table[i] = self.stamp;
        }
        new
    }

    // Enters a fact of `who` if it follows.
    fn enter_due(&mut self, who: u8, fact: Fact) -> bool {
        let view = View {
            sheet: self.sheet,
            table: &*self.table,
            who,
        };
        view.is_due(fact) && self.give(self.sheet.place(who, fact))
    }

    // Goes over the facts of `who` about x; whether any was entered.
    fn enter_about(&mut self, who: u8, x: u16) -> bool {
        let plain = [Mode::Sees, Mode::Believes, Mode::Fresh];
        let said = (0..self.sheet.p).map(Mode::Said);
        let holds = (0..self.sheet.p).map(Mode::Holds);
        let mut changed = false;
        for mode in plain.into_iter().chain(said).chain(holds) {
            changed |= self.enter_due(who, Fact { x, mode });
        }
        changed
    }

    // Goes over all facts of `who`.
    fn enter_of(&mut self, who: u8) -> bool {
        let mut changed = false;
        for x in 0..self.sheet.n {
            changed |= self.enter_about(who, x);
        }
        changed
    }

    // Goes over all facts once; whether anything was entered.
    fn pass(&mut self) -> bool {
        let mut changed = false;
        for who in 0..self.sheet.p {
            changed |= self.enter_of(who);
        }
        changed
    }

    // Goes over all facts until nothing is entered. Each pass but the last enters one of F facts.
    fn close(&mut self) {
        for _ in 0..=PLACES {
            if !self.pass() {
                return;
            }
        }
    }

    // Enters what record e gives, an assumption or a message, before which all that follows so far is entered.
    fn given(&mut self, e: Note) {
        match e.kind {
            Kind::Assumption => {
                self.give(self.sheet.stated(e.a));
            }
            Kind::Message => {
                self.close();
                self.stamp = self.stamp % 200 + 1;
                let fact = Fact {
                    x: e.a,
                    mode: Mode::Sees,
                };
                self.give(self.sheet.place(e.who, fact));
            }
            _ => {}
        }
    }
}

// The survey of a book, over a table of zeros.
pub fn survey(sheet: &Sheet, table: &mut [u8; PLACES]) {
    let mut finder = Finder {
        sheet,
        table,
        stamp: 1,
    };
    for e in sheet.others() {
        finder.given(*e);
    }
    finder.close();
}
