// The steps of a derivation in pieces.
use crate::told;
use cases::Line;
use std::io;
use std::io::Write;
use text::Piece;

// The array has room for 65,540 steps of ten bytes.
const DERIVATION_SIZE: usize = 655400;

// The piece from a step on, in the first bytes of a buffer. The number of the step to go on from, if there is one.
fn piece(
    out: &mut impl Write,
    book: &[u8],
    derivation: &[u8],
    from: usize,
    size: u32,
) -> io::Result<Option<usize>> {
    let mut buffer = [told::MARK; told::BUFFER_SIZE];
    let Some(part) = buffer.get_mut(..size as usize) else {
        return Ok(None);
    };
    match text::explain(book, derivation, from, part) {
        Ok(Some(Piece { bytes, next })) => {
            write!(out, "piece {bytes} bytes, next {next}")?;
            told::rest(out, &buffer, bytes)?;
            Ok(Some(next))
        }
        Ok(None) => {
            write!(out, "over")?;
            told::rest(out, &buffer, 0)?;
            Ok(None)
        }
        Err(f) => {
            told::refusal(out, f, &buffer)?;
            Ok(None)
        }
    }
}

// The step to begin with. The highest numbers are counted from the top, since a number of the input has 32 bits.
fn first_step(line: &Line) -> usize {
    let [_, number, _] = line.numbers;
    match line.sign {
        Some(b'<') => usize::MAX - number as usize,
        _ => number as usize,
    }
}

// The pieces that a sign asks for, or less where the steps are over or one of them cannot be printed.
fn pieces(out: &mut impl Write, line: &Line, book: &[u8], derivation: &[u8]) -> io::Result<()> {
    let [_, _, size] = line.numbers;
    // No derivation here that is told to its end has as many as 64.
    let times = match line.sign {
        Some(b'>') => 64,
        _ => 1,
    };
    let mut at = first_step(line);
    for _ in 0..times {
        let Some(next) = piece(out, book, derivation, at, size)? else {
            break;
        };
        at = next;
    }
    Ok(())
}

// The derivation is the first of the bytes of the line over and over. An array so large is lent whole to another function: where it is
// made, the check cannot follow its length.
fn try_front(
    out: &mut impl Write,
    line: &Line,
    book: &[u8],
    derivation: &mut [u8; DERIVATION_SIZE],
) -> io::Result<()> {
    let [length, _, _] = line.numbers;
    match derivation.get_mut(..length as usize) {
        Some(derivation) => {
            cases::repeat(derivation, line.bytes());
            pieces(out, line, book, derivation)
        }
        None => Ok(()),
    }
}

pub(crate) fn run(out: &mut impl Write, line: &Line, book: &[u8]) -> io::Result<()> {
    let mut derivation = [0; DERIVATION_SIZE];
    try_front(out, line, book, &mut derivation)
}
