// Tries the text of facts, for its owner and for a guest: each kind of formula, each mode, each refusal, the longest text. Writes for
// each what is tried, the answer, and the sum of the buffer's bytes afterwards, which tells whether the rest of it stayed.
//
// A line of the input (see `cases`) has
//   = BYTES          the book for the lines that follow
//   SIZE ? BYTES     the text of a fact, in a buffer of SIZE bytes
//   SIZE @ BYTES     the same for a guest
#![tactic(auto)]

use cases::{Line, Trial};
use logic::Audience;
use std::io;
use std::io::Write;

// The text at the front of the buffer, or only its length where it is long.
fn tell_text(out: &mut impl Write, buffer: &[u8], n: usize) -> io::Result<()> {
    write!(out, "written {n} ")?;
    match buffer.get(..n) {
        Some(text) if n <= 200 => out.write_all(text),
        _ => out.write_all(b"long"),
    }
}

const BUFFER_SIZE: usize = 4200;

// The text of a fact, in the first `size` bytes of a buffer, or in all of it.
fn tell(
    out: &mut impl Write,
    audience: Audience,
    size: usize,
    book: &[u8],
    fact: &[u8],
) -> io::Result<()> {
    let mut buffer = [b'.'; BUFFER_SIZE];
    let part = &mut buffer[..size.min(BUFFER_SIZE)];
    match text::fact_text(audience, book, fact, part) {
        Ok(n) => tell_text(out, &buffer, n)?,
        Err(f) => cases::refused(out, f)?,
    }
    writeln!(out, ", sum {}", cases::sum(&buffer))
}

#[derive(Drop)]
struct Texts;

impl Trial for Texts {
    fn try_line(&mut self, out: &mut impl Write, line: &Line, book: &[u8]) -> io::Result<()> {
        let audience = match line.sign {
            Some(b'?') => Audience::Owner,
            Some(b'@') => Audience::Guest,
            _ => return Ok(()),
        };
        let [_, _, size] = line.numbers;
        tell(out, audience, size as usize, book, line.bytes())
    }
}

fn main(rt: HostRuntime) -> io::Result<()> {
    cases::start(&rt, &mut Texts)
}
