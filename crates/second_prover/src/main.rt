// Compares the survey and the prover with a second prover that was built apart and works by another method, and has the checker
// check each derivation. Writes a line for each book: how many places it has, how many of them hold a fact, whether the surveys agree,
// and how many goals are reached.
//
// A line of the input (see `cases`) has
//   = BYTES             a book for the lines that follow, or a recipe by which books are drawn from seeds (see `draw`)
//   nothing             the two provers are compared on the book
//   NUMBER <            what the survey answers in so many bytes
//   NUMBER, NUMBER ^    what the prover answers to goal 0 in buffers of so many bytes
//   NUMBER, NUMBER ~    the two provers are compared on the book of a seed, drawn in so many bytes
#![tactic(auto)]

use cases::{DATA_SIZE, Line, Trial};
use std::io;
use std::io::Write;

mod compare;
mod draw;
mod limits;

// Compares the provers on the book of a seed, drawn in so many bytes, or on the empty book where there are not as many.
fn drawn(out: &mut impl Write, recipe: &[u8], size: usize, seed: u32) -> io::Result<()> {
    let mut buffer = [0u8; DATA_SIZE];
    let used = match buffer.get_mut(..size) {
        Some(part) => draw::book(part, recipe, seed),
        None => 0,
    };
    match buffer.get(..used) {
        Some(book) => compare::run(out, book),
        None => Ok(()),
    }
}

#[derive(Drop)]
struct Comparison;

impl Trial for Comparison {
    fn try_line(&mut self, out: &mut impl Write, line: &Line, book: &[u8]) -> io::Result<()> {
        let [_, second, third] = line.numbers;
        match line.sign {
            None => compare::run(out, book)?,
            Some(b'<') => limits::survey(out, book, third as usize)?,
            Some(b'^') => limits::prove(out, book, second as usize, third as usize)?,
            Some(b'~') => drawn(out, book, second as usize, third)?,
            _ => return Ok(()),
        }
        out.write_all(b"\n")
    }
}

fn main(rt: HostRuntime) -> io::Result<()> {
    cases::start(&rt, &mut Comparison)
}
