// Compares the two provers on a book.
use crate::limits;
use second_search::{Kind, Note, PLACES, Sheet, byte};
use std::io;
use std::io::Write;

// The byte that the tables hold before a survey. No survey has it.
const BEFORE: u8 = 251;

// What the second prover has found: a stamp at the place of each fact.
#[derive(Clone, Copy)]
struct Own<'a> {
    sheet: &'a Sheet,
    table: &'a [u8],
}

impl Own<'_> {
    // How many facts have a stamp up to the last.
    fn count(self, last: u8) -> usize {
        let mut n: usize = 0;
        for stamp in self.table {
            n = n.wrapping_add(usize::from(0 < *stamp && *stamp <= last));
        }
        n
    }

    // What place i of a table of the survey should hold: behind the first F bytes, what was there.
    fn expected(self, places: usize, i: usize) -> u8 {
        if i < places {
            byte(self.table, i)
        } else {
            BEFORE
        }
    }

    // The first place where their table differs. F is worked out once, and not at each place.
    fn difference(self, theirs: &[u8]) -> Option<usize> {
        let places = self.sheet.places();
        for (i, stamp) in theirs.iter().enumerate() {
            if *stamp != self.expected(places, i) {
                return Some(i);
            }
        }
        None
    }

    fn tell_survey(self, out: &mut impl Write, held: usize, theirs: &[u8]) -> io::Result<()> {
        write!(out, "F {}, held {held}", self.sheet.places())?;
        match self.difference(theirs) {
            None if self.count(250) == held => write!(out, ", surveys agree"),
            at => write!(
                out,
                ", surveys or held counts differ, at {}",
                at.unwrap_or(theirs.len())
            ),
        }
    }

    // The survey, in a table that is long enough for every book.
    fn compare_survey(self, out: &mut impl Write, book: &[u8]) -> io::Result<()> {
        let mut theirs = [BEFORE; PLACES];
        match search::survey(book, &mut theirs) {
            Ok(held) => self.tell_survey(out, held, &theirs),
            Err(f) => cases::refused(out, f),
        }
    }

    // Whether a goal is reached: its fact has a stamp up to that of its message, which is the last; and whether the prover agrees.
    fn judge(self, book: &[u8], goal: u32, e: Note) -> (bool, bool) {
        let last = (e.b % 100 + 1) as u8;
        let reached = (1..=last).contains(&byte(self.table, self.sheet.stated(e.a)));
        (
            reached,
            limits::agrees(book, goal, reached, self.count(last)),
        )
    }

    fn compare_goals(self, out: &mut impl Write, book: &[u8]) -> io::Result<()> {
        let mut asked: u32 = 0;
        let mut reached: u32 = 0;
        let mut wrong: u32 = 0;
        for e in self.sheet.others() {
            if e.kind == Kind::Goal {
                let (is_reached, agrees) = self.judge(book, asked, *e);
                asked = asked.saturating_add(1);
                reached = reached.saturating_add(u32::from(is_reached));
                wrong = wrong.saturating_add(u32::from(!agrees));
            }
        }
        write!(out, ", {reached} of {asked} reached")?;
        match wrong {
            0 => write!(out, ", all accepted"),
            _ => write!(out, ", but wrong: {wrong}"),
        }
    }
}

fn compare(out: &mut impl Write, book: &[u8]) -> io::Result<()> {
    let sheet = Sheet::read(book);
    let mut table = [0u8; PLACES];
    second_search::survey(&sheet, &mut table);
    let own = Own {
        sheet: &sheet,
        table: &table,
    };
    own.compare_survey(out, book)?;
    own.compare_goals(out, book)
}

pub fn run(out: &mut impl Write, book: &[u8]) -> io::Result<()> {
    match book::read(book) {
        Ok(_) => compare(out, book),
        Err(f) => cases::refused(out, f),
    }
}
