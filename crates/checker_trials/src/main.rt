// Tries the checker on the derivations of standard input: every kind of step, each refusal of a derivation at a first, a middle and a
// last step, slips, and the longest derivations. Writes a line for each: what is tried, and the answer.
//
// A line of the input (see `cases`) has
//   = BYTES          the book for the lines that follow
//   NUMBER ? BYTES   a goal, and a derivation of it
//   NUMBER ! BYTES   how many bytes of the longest derivation are tried on goal 3, and its last step but one
#![tactic(auto)]

use cases::{Line, Trial};
use std::io;
use std::io::Write;

mod longest;

// What the checker answers.
fn check(out: &mut impl Write, book: &[u8], goal: u32, derivation: &[u8]) -> io::Result<()> {
    match checker::check(book, goal, derivation) {
        Ok(()) => write!(out, "accepted")?,
        Err(f) => cases::refused(out, f)?,
    }
    out.write_all(b"\n")
}

#[derive(Drop)]
struct Checks;

impl Trial for Checks {
    fn try_line(&mut self, out: &mut impl Write, line: &Line, book: &[u8]) -> io::Result<()> {
        let [_, _, number] = line.numbers;
        match line.sign {
            Some(b'?') => check(out, book, number, line.bytes()),
            Some(b'!') => longest::run(out, book, number as usize, line.bytes()),
            _ => Ok(()),
        }
    }
}

fn main(rt: HostRuntime) -> io::Result<()> {
    cases::start(&rt, &mut Checks)
}
