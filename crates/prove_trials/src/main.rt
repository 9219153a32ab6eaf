// Tries the prover on the books of standard input: the certificate of document 01 and its neighbours, buffers too short and long,
// formulas beside their assumptions, and drawn books with goals. Writes a line for each goal: what the prover answers, and what the
// checker says of the derivation; for buffers that are lent in part, how many of their other bytes stayed.
//
// A line of the input (see `cases`) has
//   = BYTES                     the book for the lines that follow
//   NUMBER ?                    a goal, asked in buffers that are long enough
//   NUMBER, NUMBER, NUMBER <    a goal, and how many bytes are lent of a work buffer of 3,500 and a derivation of 5,300
#![tactic(auto)]

use cases::{Line, Trial};
use search::Proved;
use std::io;
use std::io::Write;

// No byte of a derivation in these trials is 251.
const MARK: u8 = 251;

// What the checker says of a derivation.
fn check(out: &mut impl Write, book: &[u8], goal: u32, derivation: &[u8]) -> io::Result<()> {
    match checker::check(book, goal, derivation) {
        Ok(()) => write!(out, ", accepted"),
        Err(f) => {
            write!(out, ", ")?;
            cases::refused(out, f)
        }
    }
}

fn prove(
    out: &mut impl Write,
    book: &[u8],
    goal: u32,
    work: &mut [u8],
    derivation: &mut [u8],
) -> io::Result<()> {
    match search::prove(book, goal, work, derivation) {
        Ok(Proved::Reached(p)) => {
            write!(out, "reached, held {}", p.held)?;
            match derivation.get(..p.bytes) {
                Some(derivation) => check(out, book, goal, derivation),
                None => write!(out, ", more bytes than were lent"),
            }
        }
        Ok(Proved::NotReached(held)) => write!(out, "not reached, held {held}"),
        Err(f) => cases::refused(out, f),
    }
}

// In buffers that are long enough for every book: F is at most 38,912.
fn whole(out: &mut impl Write, book: &[u8], goal: u32) -> io::Result<()> {
    let mut work = [7; 311296];
    let mut derivation = [7; 466944];
    prove(out, book, goal, &mut work, &mut derivation)
}

// How many bytes behind the first n are as they were.
fn kept(out: &mut impl Write, bytes: &[u8], n: usize) -> io::Result<()> {
    match bytes.get(n..) {
        Some(rest) => write!(out, ", {} of {} kept", cases::count(rest, MARK), rest.len()),
        None => Ok(()),
    }
}

// The front of the buffers is lent, unless they are shorter. 3,456 bytes are F × 8 for the certificate, and 108 its derivation.
fn parts(out: &mut impl Write, book: &[u8], goal: u32, w: usize, d: usize) -> io::Result<()> {
    let mut work = [MARK; 3500];
    let mut derivation = [MARK; 5300];
    match (work.get_mut(..w), derivation.get_mut(..d)) {
        (Some(work), Some(derivation)) => prove(out, book, goal, work, derivation)?,
        _ => return Ok(()),
    }
    kept(out, &work, 3456)?;
    kept(out, &derivation, 108)
}

#[derive(Drop)]
struct Proofs;

impl Trial for Proofs {
    fn try_line(&mut self, out: &mut impl Write, line: &Line, book: &[u8]) -> io::Result<()> {
        let [first, second, third] = line.numbers;
        match line.sign {
            Some(b'?') => whole(out, book, third)?,
            Some(b'<') => parts(out, book, first, second as usize, third as usize)?,
            _ => return Ok(()),
        }
        out.write_all(b"\n")
    }
}

fn main(rt: HostRuntime) -> io::Result<()> {
    cases::start(&rt, &mut Proofs)
}
