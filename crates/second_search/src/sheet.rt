// Reads the bytes of an accepted book for the second prover, apart from the reader that is proved: a note for each record. The
// formulas have the places from 0, wherever they stand in the book, so that a formula's number is the place of its note; assumptions,
// messages and goals are kept apart from them, in book order. Nothing here is asked to refuse a book; past the end of a book or of the
// notes there are zeros.
ghost use Rattle.std.specs.Prelude.{◌≤◌, ◌<◌};

// What a record is: document 01's kinds, by their numbers.
#[derive(Clone, Copy, PartialEq, Eq)]
pub enum Kind {
    Principal = 1,
    Key,
    Datum,
    Conjunction,
    Encrypted,
    Signed,
    Combined,
    SharedKey,
    PublicKey,
    SharedSecret,
    Fresh,
    Believes,
    Sees,
    Said,
    Controls,
    Variable,
    ForEvery,
    Assumption = 32,
    Message,
    Goal,
}

impl Kind {
    pub fn of(byte: u8) -> Option<Kind> {
        Some(match byte {
            1 => Kind::Principal,
            2 => Kind::Key,
            3 => Kind::Datum,
            4 => Kind::Conjunction,
            5 => Kind::Encrypted,
            6 => Kind::Signed,
            7 => Kind::Combined,
            8 => Kind::SharedKey,
            9 => Kind::PublicKey,
            10 => Kind::SharedSecret,
            11 => Kind::Fresh,
            12 => Kind::Believes,
            13 => Kind::Sees,
            14 => Kind::Said,
            15 => Kind::Controls,
            16 => Kind::Variable,
            17 => Kind::ForEvery,
            32 => Kind::Assumption,
            33 => Kind::Message,
            34 => Kind::Goal,
            _ => return None,
        })
    }

    pub fn is_formula(self) -> bool {
        !matches!(self, Kind::Assumption | Kind::Message | Kind::Goal)
    }

    // The bytes of a record.
    pub fn length(self) -> usize
        ensures { result < 16 }
    {
        match self {
            Kind::Principal
            | Kind::Key
            | Kind::Datum
            | Kind::Fresh
            | Kind::Variable
            | Kind::Assumption => 3,
            Kind::Encrypted | Kind::Signed | Kind::SharedKey | Kind::SharedSecret | Kind::Message =>
                7,
            _ => 5,
        }
    }
}

// The bytes of a record that begins with this byte, and 0 where no kind does.
pub fn length(byte: u8) -> u16
    ensures { result < 16 }
{
    match Kind::of(byte) {
        Some(kind) => kind.length() as u16,
        None => 0,
    }
}

// A mode of document 01: what somebody has to do with a formula, in 4 and 5 with a principal of this rank beside him.
#[derive(Clone, Copy, PartialEq, Eq)]
pub(crate) enum Mode {
    Sees,
    Believes,
    Fresh,
    Said(u8),
    Holds(u8),
}

// A fact about formula x.
#[derive(Clone, Copy, PartialEq, Eq)]
pub(crate) struct Fact {
    pub(crate) x: u16,
    pub(crate) mode: Mode,
}

// A record. Principals stand here by their rank, formulas and keys by their number; a field that the kind does not have is 0. `a` is
// the formula that the record is about, `b` the key, the secret, the right part, the variable of a kind 17, or a goal's message number;
// `who` is the principal, the one it is from, or a message's receiver, and `whom` the second of two. It is `sealed` if it is of
// kind 5 or 6 or holds such a one, and `open` if a variable stands in it outside kind 17. The kind says which fields there are, and an
// Option in each would only say it again.
#[derive(Clone, Copy)]
pub struct Note {
    pub kind: Kind,
    pub who: u8,
    pub whom: u8,
    pub sealed: bool,
    pub open: bool,
    pub a: u16,
    pub b: u16,
}

// What stands where there is no record.
const NO_NOTE: Note = Note {
    kind: Kind::Principal,
    who: 0,
    whom: 0,
    sealed: false,
    open: false,
    a: 0,
    b: 0,
};

impl Note {
    // The mode into which a belief in this is opened, if it is one of "fresh", "q said" and "q believes", and else mode 2.
    pub(crate) fn mode(self) -> Mode {
        match self.kind {
            Kind::Fresh => Mode::Fresh,
            Kind::Believes => Mode::Holds(self.who),
            Kind::Said => Mode::Said(self.who),
            _ => Mode::Believes,
        }
    }
}

// The formulas in the fields of a record, by what a note has of them.
#[derive(Clone, Copy, Default)]
struct Fields {
    who: Option<u16>,
    whom: Option<u16>,
    a: Option<u16>,
    b: Option<u16>,
}

impl Fields {
    // The fields of a record, left to right, of which a kind has one to three.
    fn of(kind: Kind, x: u16, y: u16, z: u16) -> Fields {
        let none = Fields::default();
        match kind {
            Kind::Principal | Kind::Key | Kind::Datum | Kind::Variable => none,
            Kind::Conjunction | Kind::Combined => Fields {
                a: Some(x),
                b: Some(y),
                ..none
            },
            Kind::Encrypted | Kind::Signed => Fields {
                who: Some(z),
                a: Some(x),
                b: Some(y),
                ..none
            },
            Kind::SharedKey | Kind::SharedSecret => Fields {
                who: Some(x),
                whom: Some(z),
                b: Some(y),
                ..none
            },
            Kind::PublicKey => Fields {
                who: Some(y),
                b: Some(x),
                ..none
            },
            Kind::Fresh | Kind::Assumption => Fields { a: Some(x), ..none },
            Kind::Believes | Kind::Sees | Kind::Said | Kind::Controls => Fields {
                who: Some(x),
                a: Some(y),
                ..none
            },
            Kind::ForEvery | Kind::Goal => Fields {
                a: Some(y),
                b: Some(x),
                ..none
            },
            Kind::Message => Fields {
                who: Some(y),
                a: Some(z),
                ..none
            },
        }
    }
}

// The byte at a place, or 0 past the end: as in `format`, with which this shares nothing on purpose.
pub fn byte(s: &[u8], i: usize) -> u8 {
    s.get(i).copied().unwrap_or(0)
}

fn word(s: &[u8], i: u8) -> u16 {
    let i = usize::from(i);
    u16::from_be_bytes([byte(s, i), byte(s, i + 1)])
}

// A book has at most 256 formulas, and 112 other records.
const FORMULAS: usize = 256;

const OTHERS: usize = 112;

// The notes of a book: n formulas, among them p principals, and the other records.
#[derive(Clone, Copy)]
pub struct Sheet {
    formulas: [Note; FORMULAS],
    others: [Note; OTHERS],
    pub(crate) n: u16,
    pub(crate) p: u8,
    m: usize,
}

impl Sheet {
    // Reads a book, which is over where no kind is.
    pub fn read(book: &[u8]) -> Sheet {
        let mut sheet = Sheet {
            formulas: [NO_NOTE; FORMULAS],
            others: [NO_NOTE; OTHERS],
            n: 0,
            p: 0,
            m: 0,
        };
        let mut rest = book;
        for _ in 0..FORMULAS + OTHERS {
            let Some(kind) = Kind::of(byte(rest, 0)) else {
                break;
            };
            let note = sheet.note(kind, word(rest, 1), word(rest, 3), word(rest, 5));
            sheet.add(note);
            rest = rest.get(kind.length()..).unwrap_or(b"");
        }
        sheet
    }

    // The note of a record that stands behind those that are noted.
    fn note(&self, kind: Kind, x: u16, y: u16, z: u16) -> Note {
        let f = Fields::of(kind, x, y, z);
        Note {
            kind,
            who: if kind == Kind::Principal {
                self.p
            } else {
                self.rank(f.who)
            },
            whom: self.rank(f.whom),
            sealed: matches!(kind, Kind::Encrypted | Kind::Signed)
                || f.a.is_some_and(|x| self.look(x).sealed)
                || f.b.is_some_and(|x| self.look(x).sealed),
            open: self.is_open(kind, f),
            a: f.a.unwrap_or(0),
            b: f.b.unwrap_or(0),
        }
    }

    fn is_open(&self, kind: Kind, f: Fields) -> bool {
        match kind {
            Kind::Variable => true,
            Kind::ForEvery => false,
            _ => {
                f.a.is_some_and(|x| self.look(x).open) || f.b.is_some_and(|x| self.look(x).open)
            }
        }
    }

    fn rank(&self, x: Option<u16>) -> u8 {
        x.map_or(0, |x| self.look(x).who)
    }

    fn add(&mut self, note: Note) {
        if !note.kind.is_formula() {
            if self.m < OTHERS {
                self.others[self.m] = note;
                self.m += 1;
            }
            return;
        }
        let n = usize::from(self.n);
        if n < FORMULAS {
            self.formulas[n] = note;
            self.n += 1;
            self.p = self
                .p
                .saturating_add(u8::from(note.kind == Kind::Principal));
        }
    }

    // The note of formula x.
    pub(crate) fn look(&self, x: u16) -> Note {
        self.formulas
            .get(usize::from(x))
            .copied()
            .unwrap_or(NO_NOTE)
    }

    // The assumptions, messages and goals.
    pub fn others(&self) -> &[Note] {
        let all = &self.others[..];
        all.get(..self.m).unwrap_or(all)
    }

    // How many modes there are: 1, 2 and 3, then mode 4 and mode 5 for each Q.
    fn modes(&self) -> usize
        ensures { result ≤ 513 }
    {
        3 + 2 * usize::from(self.p)
    }

    fn column(&self, mode: Mode) -> usize
        ensures { result ≤ 513 }
    {
        match mode {
            Mode::Sees => 0,
            Mode::Believes => 1,
            Mode::Fresh => 2,
            Mode::Said(q) => 3 + usize::from(q),
            Mode::Holds(q) => 3 + usize::from(self.p) + usize::from(q),
        }
    }

    // The place of a fact of `who` in a table.
    pub(crate) fn place(&self, who: u8, fact: Fact) -> usize {
        let row = usize::from(who) * usize::from(self.n) + usize::from(fact.x);
        row * self.modes() + self.column(fact.mode)
    }

    // F: the place after the last.
    pub fn places(&self) -> usize {
        let first = Fact {
            x: 0,
            mode: Mode::Sees,
        };
        self.place(self.p, first)
    }

    // What a belief in record x is, opened.
    pub(crate) fn opened(&self, x: u16) -> Fact {
        let e = self.look(x);
        let mode = e.mode();
        Fact {
            x: if mode == Mode::Believes { x } else { e.a },
            mode,
        }
    }

    // The place of what record x of kind 12 or 13 states.
    pub fn stated(&self, x: u16) -> usize {
        let e = self.look(x);
        let fact = match e.kind {
            Kind::Sees => Fact {
                x: e.a,
                mode: Mode::Sees,
            },
            _ => self.opened(e.a),
        };
        self.place(e.who, fact)
    }
}
