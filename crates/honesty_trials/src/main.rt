// Tries the report on honest senders on the books of standard input: document 02's cases, buffers that are exact, short, long and empty,
// refused books, the exchanges of the examples, and drawn books whose senders believe a part of what they send. Writes a line for each:
// what is tried, what is answered, and in brackets the whole buffer in hex digits, whose bytes counted up from 200 before.
//
// A line of the input (see `cases`) has
//   NUMBER < BYTES   a book, for whose report so many bytes are lent
#![tactic(auto)]

use cases::{Line, Trial};
use std::io;
use std::io::Write;

// The report in the first bytes of a buffer. No report has more than 8,064.
fn report(out: &mut impl Write, book: &[u8], size: usize) -> io::Result<()> {
    let mut buffer = [0; 8192];
    let Some(part) = buffer.get_mut(..size) else {
        return Ok(());
    };
    // 200, 201, .., 255, 0, 1, ..
    for (x, filler) in part.iter_mut().zip((0..=255).cycle().skip(200)) {
        *x = filler;
    }
    match honesty::honesty(book, part) {
        Ok(n) => write!(out, "written {n}")?,
        Err(f) => cases::refused(out, f)?,
    }
    out.write_all(b" [")?;
    for x in &*part {
        write!(out, "{x:02x}")?;
    }
    out.write_all(b"]\n")
}

#[derive(Drop)]
struct Reports;

impl Trial for Reports {
    fn try_line(&mut self, out: &mut impl Write, line: &Line, _book: &[u8]) -> io::Result<()> {
        let [_, _, size] = line.numbers;
        match line.sign {
            Some(b'<') => report(out, line.bytes(), size as usize),
            _ => Ok(()),
        }
    }
}

fn main(rt: HostRuntime) -> io::Result<()> {
    cases::start(&rt, &mut Reports)
}
