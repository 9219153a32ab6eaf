// Tries the survey on the books of standard input: the certificate of document 01 and its neighbours, tables too short and long, and
// books of every kind of formula. Writes a line for each: what is tried, how many facts are held, and each place that is not 0 with
// its byte; or how many bytes of the table stayed.
//
// A line of the input (see `cases`) has
//   BYTES            a book, of which the survey is told
//   NUMBER < BYTES   a book, for whose survey the first so many bytes of a table of 440 are lent
#![tactic(auto)]

use cases::{Line, Trial};
use std::io;
use std::io::Write;

// No byte of a survey in these trials is 7.
const MARK: u8 = 7;

fn survey(out: &mut impl Write, book: &[u8], table: &mut [u8]) -> io::Result<()> {
    match search::survey(book, table) {
        Ok(held) => write!(out, "held {held}"),
        Err(f) => cases::refused(out, f),
    }
}

// The survey in a table that is long enough for every book.
fn whole(out: &mut impl Write, book: &[u8]) -> io::Result<()> {
    let mut table = [0; 38912];
    survey(out, book, &mut table)?;
    for (i, stamp) in table.iter().enumerate() {
        if *stamp != 0 {
            write!(out, " {i}:{stamp}")?;
        }
    }
    out.write_all(b"\n")
}

// The survey in the first bytes of a table.
fn part(out: &mut impl Write, book: &[u8], size: usize) -> io::Result<()> {
    let mut table = [MARK; 440];
    let Some(lent) = table.get_mut(..size) else {
        return Ok(());
    };
    survey(out, book, lent)?;
    writeln!(out, ", {} bytes as they were", cases::count(&table, MARK))
}

#[derive(Drop)]
struct Surveys;

impl Trial for Surveys {
    fn try_line(&mut self, out: &mut impl Write, line: &Line, _book: &[u8]) -> io::Result<()> {
        let [_, _, size] = line.numbers;
        match line.sign {
            None => whole(out, line.bytes()),
            Some(b'<') => part(out, line.bytes(), size as usize),
            _ => Ok(()),
        }
    }
}

fn main(rt: HostRuntime) -> io::Result<()> {
    cases::start(&rt, &mut Surveys)
}
