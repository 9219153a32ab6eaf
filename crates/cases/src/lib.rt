// For the programs of trials: cases that stand in standard input, a line each. Nothing is promised of it but that it is safe.
//
// A line of the input, read byte by byte: a label up to a colon, which is written to the output as it is read; then numbers, each with a sign
// behind it, and bytes in hex digits, between which blanks may stand. A line that begins with # is a comment, and one that begins with
// = has no label: its bytes are the book for the lines that follow. The two are signs like others behind a label: what follows # is a
// comment, and what follows = goes into the book.
#![tactic(auto)]

ghost use Rattle.std.specs.Prelude.{◌≡◌, None, replicate};
ghost use Rattle.cases.specs.declared.Part.TheVariants.{Label};

use logic::{Cause, Refusal};
use std::io;
use std::io::{BufReader, BufWriter, Read, Write};

// The bytes of a line: more than the largest book has, which is 2,256.
pub const DATA_SIZE: usize = 2304;

// The bytes of the input that are read: no program's input has as many.
pub const INPUT_SIZE: usize = 65536;

// Where in a line the next byte stands.
#[derive(Clone, Copy, PartialEq, Eq)]
enum Part {
    Label,
    Comment,
    Book,
    Case,
}

impl Part {
    fn behind(sign: u8) -> Part {
        match sign {
            b'#' => Part::Comment,
            b'=' => Part::Book,
            _ => Part::Case,
        }
    }
}

// A line so far: the last sign; the last three numbers that had a sign; how many digits were read since then, what they are as a
// number, and what they are as bytes.
#[derive(Clone, Copy)]
pub struct Line {
    part: Part,
    pub sign: Option<u8>,
    pub numbers: [u32; 3],
    digits: usize,
    number: u32,
    data: [u8; DATA_SIZE],
}

// What a byte is behind the label.
enum Sort {
    Digit(u8),
    Blank,
    Sign,
}

impl Sort {
    fn of(x: u8) -> Sort {
        match x {
            b'0'..=b'9' => Sort::Digit(x - b'0'),
            b'a'..=b'f' => Sort::Digit(x - b'a' + 10),
            b' ' => Sort::Blank,
            _ => Sort::Sign,
        }
    }
}

impl Line {
    pub fn new() -> Line {
        Line {
            part: Part::Label,
            sign: None,
            numbers: [0; 3],
            digits: 0,
            number: 0,
            data: [0; DATA_SIZE],
        }
    }

    // Begins a new line. The bytes stay: one is shown only when both of its digits were read anew.
    pub fn begin(&mut self)
        ensures { self.new ≡ record self.old { part = Label; sign = None; numbers = replicate 3 0; digits = 0; number = 0 } }
    {
        self.part = Part::Label;
        self.sign = None;
        self.numbers = [0; 3];
        self.digits = 0;
        self.number = 0;
    }

    pub fn is_empty(&self) -> bool {
        self.part == Part::Label
    }

    // The bytes behind the last sign.
    pub fn bytes(&self) -> &[u8] {
        front(&self.data, self.digits / 2)
    }

    fn labelled(&mut self, out: &mut impl Write, x: u8) -> io::Result<()> {
        match x {
            b'#' | b'=' => self.signed(x),
            b':' => {
                self.part = Part::Case;
                out.write_all(b": ")?;
            }
            _ => out.write_all(&[x])?,
        }
        Ok(())
    }

    fn signed(&mut self, sign: u8) {
        let [_, second, third] = self.numbers;
        self.numbers = [second, third, self.number];
        self.part = Part::behind(sign);
        self.sign = Some(sign);
        self.digits = 0;
        self.number = 0;
    }

    // Two digits are a byte: the first goes to the left when the second comes.
    fn digit(&mut self, v: u8, book: &mut [u8; DATA_SIZE]) {
        let i = self.digits / 2;
        if i < DATA_SIZE {
            self.data[i] = self.data[i] << 4 | v;
            if self.part == Part::Book {
                book[i] = book[i] << 4 | v;
            }
            self.digits += 1;
            self.number = self.number.wrapping_mul(10).wrapping_add(u32::from(v));
        }
    }

    // The line after one more byte of it.
    pub fn more(
        &mut self,
        out: &mut impl Write,
        x: u8,
        book: &mut [u8; DATA_SIZE],
    ) -> io::Result<()> {
        match self.part {
            Part::Label => self.labelled(out, x)?,
            Part::Comment => {}
            Part::Book | Part::Case => match Sort::of(x) {
                Sort::Digit(v) => self.digit(v, book),
                Sort::Blank => {}
                Sort::Sign => self.signed(x),
            },
        }
        Ok(())
    }
}

// The next byte of the input, or 0 at its end.
pub fn next(input: &mut impl Read) -> io::Result<u8> {
    match input.by_ref().bytes().next() {
        Some(x) => x,
        None => Ok(0),
    }
}

fn front(data: &[u8], n: usize) -> &[u8] {
    data.get(..n).unwrap_or(data)
}

// A program of trials.
pub trait Trial {
    // Tries what a line says of a book. Lines that end in a comment or in bytes of the book come here too, with their sign.
    fn try_line(&mut self, out: &mut impl Write, line: &Line, book: &[u8]) -> io::Result<()>;
}

// Goes over the lines of the input up to a byte 0, with the book of the last line that ended in one. What a line writes over the book's
// bytes before another sign stays there, and the book is as long as before.
fn run(trial: &mut impl Trial, input: &mut impl Read, out: &mut impl Write) -> io::Result<()> {
    let mut book = [0; DATA_SIZE];
    let mut size = 0;
    let mut line = Line::new();
    for x in input.bytes().take(INPUT_SIZE) {
        match x? {
            0 => break,
            b'\n' => {
                if line.part == Part::Book {
                    size = line.digits / 2;
                }
                trial.try_line(out, &line, front(&book, size))?;
                line.begin();
            }
            x => line.more(out, x, &mut book)?,
        }
    }
    Ok(())
}

// The whole program: tries the lines of standard input, and writes to standard output.
pub fn start(rt: &HostRuntime, trial: &mut impl Trial) -> io::Result<()> {
    let mut input = BufReader::new(rt.alloc(), rt.reader())?;
    let mut out = BufWriter::new(rt.alloc(), io::writer(rt))?;
    run(trial, &mut input, &mut out)?;
    out.flush()
}

// The sum of some bytes, which tells whether one of them changed.
pub fn sum(bytes: &[u8]) -> u32 {
    bytes.iter().fold(0, |sum: u32, x| sum.wrapping_add(u32::from(*x)) % 1_000_000)
}

// How many bytes have the mark.
pub fn count(bytes: &[u8], mark: u8) -> usize {
    bytes.iter().filter(|x| **x == mark).count()
}

// Fills a buffer with the same bytes over and over.
pub fn repeat(buffer: &mut [u8], bytes: &[u8]) {
    for (x, byte) in buffer.iter_mut().zip(bytes.iter().cycle()) {
        *x = *byte;
    }
}

// Tells a refusal.
pub fn refused(out: &mut impl Write, f: Refusal) -> io::Result<()> {
    write!(out, "refused {} at {}", f.cause.number(), f.place)
}

// The cause of a refusal's number.
pub fn cause_of(number: u8) -> Cause {
    match number {
        1 => Cause::UnknownKind,
        2 => Cause::WrongLength,
        3 => Cause::OutOfOrder,
        4 => Cause::DanglingReference,
        5 => Cause::WrongSort,
        6 => Cause::NamesNotRising,
        7 => Cause::SenderIsReceiver,
        8 => Cause::RepeatedFormula,
        9 => Cause::OverLimit,
        10 => Cause::NotStatement,
        11 => Cause::MessageAfterLast,
        12 => Cause::NoSpace,
        13 => Cause::NoSuchGoal,
        14 => Cause::ShortBuffer,
        15 => Cause::LongText,
        16 => Cause::BadStepKind,
        17 => Cause::MalformedFact,
        18 => Cause::PremiseNotEarlier,
        19 => Cause::DoesNotFollow,
        20 => Cause::NotTheGoal,
        21 => Cause::TooManySteps,
        22 => Cause::LooseVariable,
        _ => Cause::WrongDelegation,
    }
}
