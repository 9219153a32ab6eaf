// Tries the listing in pieces on the books of standard input, the line of the goals and that of a refusal. Writes for each what is
// tried, what is answered, a sum over the whole buffer, which was filled with dots before and tells whether the rest of it stayed, and
// then the bytes of the piece or line as they are.
//
// A line of the input (see `cases`) has three numbers with a comma behind two of them, a sign, a byte and a book:
//   LENGTH, FROM, SIZE = BYTE BOOK   the piece from line FROM on in a buffer of SIZE bytes, by a table of LENGTH bytes that are all BYTE
//   LENGTH, FROM, SIZE / BYTE BOOK   the same, after a survey of the book in that table
//   LENGTH, FROM, SIZE < BYTE BOOK   as =, and on from there until it is over
//   LENGTH, FROM, SIZE > BYTE BOOK   as /, and on from there until it is over
//   LENGTH, FROM, SIZE @ BYTE BOOK   as >, for a guest
//   HIGH, LOW, SIZE ! BYTE           the line of the refusal BYTE at HIGH × 2^32 + LOW; a line feed behind it where it is cut
//   REACHED, GOALS, SIZE %           the line of so many goals reached, likewise
#![tactic(auto)]

use cases::{Line, Trial};
use logic::Refusal;
use std::io;
use std::io::Write;

mod listed;

const BUFFER_SIZE: usize = 4168;

// The buffer afterwards: a sum that knows the order of its bytes, and its first n.
fn tell_buffer(out: &mut impl Write, buffer: &[u8], n: usize) -> io::Result<()> {
    let sum = buffer.iter().fold(0, |sum: u64, x| {
        sum.wrapping_mul(31).wrapping_add(u64::from(*x)) % 1_000_003
    });
    writeln!(out, ", sum {sum}")?;
    match buffer.get(..n) {
        Some(text) => out.write_all(text),
        None => Ok(()),
    }
}

// Has a line written into the first bytes of a buffer: as much of it as has a place there, and a line feed where it is cut.
fn tell_line<F: FnOnce(&mut [u8]) -> usize>(
    out: &mut impl Write,
    size: u32,
    write: F,
) -> io::Result<()>
    requires { F.IsAlwaysCallable write }
{
    let size = size as usize;
    let mut buffer = [b'.'; BUFFER_SIZE];
    let Some(part) = buffer.get_mut(..size) else {
        return Ok(());
    };
    let n = write(part);
    write!(out, "line of {n}")?;
    tell_buffer(out, &buffer, n)?;
    if size < n {
        out.write_all(b"\n")?;
    }
    Ok(())
}

// The line of a refusal, whose number is the byte.
fn refused(out: &mut impl Write, line: &Line, number: u8) -> io::Result<()> {
    let [high, low, size] = line.numbers;
    let refusal = Refusal {
        cause: cases::cause_of(number),
        place: (high as usize) << 32 | low as usize,
    };
    tell_line(out, size, |buffer| lines::refusal_line(refusal, buffer))
}

fn reached(out: &mut impl Write, line: &Line) -> io::Result<()> {
    let [reached, goals, size] = line.numbers;
    tell_line(
        out,
        size,
        |buffer| lines::goals_line(reached, goals, buffer),
    )
}

#[derive(Drop)]
struct Listings;

impl Trial for Listings {
    fn try_line(&mut self, out: &mut impl Write, line: &Line, _book: &[u8]) -> io::Result<()> {
        match (line.sign, line.bytes()) {
            (Some(b'%'), _) => reached(out, line),
            (Some(b'!'), [number, ..]) => refused(out, line, *number),
            (sign, [byte, book @ ..]) => listed::run(out, line, sign.unwrap_or(0), *byte, book),
            _ => Ok(()),
        }
    }
}

fn main(rt: HostRuntime) -> io::Result<()> {
    cases::start(&rt, &mut Listings)
}
