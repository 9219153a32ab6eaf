// Tries the reader and entering on the books and records of standard input, one for each refusal from 1 to 12 and for each
// place where a hurried reader of document 01 goes wrong. Writes a line for each: what is tried, and the answer.
//
// A line of the input (see `cases`) tries
//   BYTES            to read a book
//   + BYTES          to enter a record into the buffer
//   NUMBER @ BYTES   to enter a record behind so many bytes of the buffer
//   NUMBER * BYTES   to enter a record so many times
//   NUMBER ^ BYTES   the same, with a last byte that is one more each time
// Behind an empty line a fresh buffer of another length serves; there are three. A byte from 0 to 9 ends a line like a line feed, and so does
// the end of the input.
#![tactic(auto)]

use cases::{DATA_SIZE, INPUT_SIZE, Line};
use logic::{Counts, Entered};
use std::io;
use std::io::{BufReader, BufWriter, Read, Write};

// The largest buffer, of which a part of the trials takes so many bytes.
const BUFFER_SIZE: usize = 2400;

const SIZES: [usize; 3] = [51, 2400, 60];

fn accepted(out: &mut impl Write, n: Counts) -> io::Result<()> {
    write!(out, "accepted {} formulas, ", n.formulas)?;
    write!(
        out,
        "{} principals, {} assumptions, ",
        n.principals, n.assumptions
    )?;
    write!(out, "{} messages, {} goals", n.messages, n.goals)
}

// What reading a book answers.
fn read(out: &mut impl Write, book: &[u8]) -> io::Result<()> {
    match book::read(book) {
        Ok(n) => accepted(out, n)?,
        Err(f) => cases::refused(out, f)?,
    }
    out.write_all(b"\n")
}

// The buffer into which records are entered, how many of its bytes serve, and how many are used.
#[derive(Drop)]
struct Buffer {
    bytes: [u8; BUFFER_SIZE],
    size: usize,
    used: usize,
}

impl Buffer {
    fn new(size: usize) -> Buffer {
        Buffer {
            bytes: [170; BUFFER_SIZE],
            size,
            used: 0,
        }
    }

    // Enters a record behind so many bytes, tells the answer, the length used then and the sum of the buffer. That length.
    fn enter(&mut self, out: &mut impl Write, used: usize, record: &[u8]) -> io::Result<usize> {
        let Some(buffer) = self.bytes.get_mut(..self.size) else {
            return Ok(used);
        };
        let mut next = used;
        match book::enter(buffer, used, record) {
            Ok(Entered::Present(i)) => write!(out, "present as {i}")?,
            Ok(Entered::Added(i)) => {
                write!(out, "added as {i}")?;
                next = used.saturating_add(record.len());
            }
            Err(f) => cases::refused(out, f)?,
        }
        writeln!(out, ", {next} bytes used, sum {}", cases::sum(buffer))?;
        Ok(next)
    }

    // Enters a record many times, with `step` more in its last byte each time. Tells how often it was appended.
    fn repeat(
        &mut self,
        out: &mut impl Write,
        record: &[u8],
        times: u32,
        step: u8,
    ) -> io::Result<()> {
        let mut copy = [0; DATA_SIZE];
        let Some(copy) = copy.get_mut(..record.len()) else {
            return Ok(());
        };
        copy.copy_from_slice(record);
        let mut added: u32 = 0;
        for _ in 0..times {
            if let Ok(Entered::Added(_)) = book::enter(&mut self.bytes, self.used, copy) {
                self.used = self.used.saturating_add(copy.len());
                added = added.saturating_add(1);
            }
            if let Some(last) = copy.last_mut() {
                *last = last.wrapping_add(step);
            }
        }
        writeln!(out, "{added} added, {} bytes used", self.used)
    }

    // Tries what a line says.
    fn try_line(&mut self, out: &mut impl Write, line: &Line) -> io::Result<()> {
        let [_, _, number] = line.numbers;
        match line.sign {
            None => read(out, line.bytes())?,
            Some(b'+') => self.used = self.enter(out, self.used, line.bytes())?,
            Some(b'@') => {
                self.enter(out, number as usize, line.bytes())?;
            }
            Some(b'*') => self.repeat(out, line.bytes(), number, 0)?,
            Some(b'^') => self.repeat(out, line.bytes(), number, 1)?,
            _ => {}
        }
        Ok(())
    }
}

// Tries the lines up to one without a label, or the end, in a fresh buffer of which `size` bytes serve.
fn try_part(input: &mut impl Read, out: &mut impl Write, size: usize) -> io::Result<()> {
    let mut buffer = Buffer::new(size);
    // Where the lines that say so keep a book: here none is tried with one.
    let mut book = [0; DATA_SIZE];
    let mut line = Line::new();
    for _ in 0..INPUT_SIZE {
        match cases::next(input)? {
            0..=b'\n' => {
                if line.is_empty() {
                    return Ok(());
                }
                buffer.try_line(out, &line)?;
                line.begin();
            }
            x => line.more(out, x, &mut book)?,
        }
    }
    Ok(())
}

fn main(rt: HostRuntime) -> io::Result<()> {
    let mut input = BufReader::new(rt.alloc(), rt.reader())?;
    let mut out = BufWriter::new(rt.alloc(), io::writer(&rt))?;
    for size in SIZES {
        try_part(&mut input, &mut out, size)?;
    }
    out.flush()
}
