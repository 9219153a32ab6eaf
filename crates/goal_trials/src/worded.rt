// What is said in words: the line of a goal, the sentence of a refusal, its line, and the line of a goal that is reached or not.
use crate::told;
use cases::Line;
use logic::Refusal;
use std::io;
use std::io::Write;

pub(crate) fn goal(out: &mut impl Write, line: &Line, book: &[u8]) -> io::Result<()> {
    let [_, goal, size] = line.numbers;
    told::text(out, size, b"", |buffer| text::goal_line(book, goal, buffer))
}

// The sentence of a refusal's number, which has no line feed of its own.
pub(crate) fn sentence(out: &mut impl Write, line: &Line) -> io::Result<()> {
    let [_, number, size] = line.numbers;
    told::text(out, size, b"\n", |buffer| reasons::reason(number, buffer))
}

// A number of 64 bits from its halves.
fn joined(high: u32, low: u32) -> usize {
    (high as usize) << 32 | low as usize
}

// The line of a refusal in words. The first byte is the refusal's number.
pub(crate) fn refusal(out: &mut impl Write, line: &Line) -> io::Result<()> {
    let [high, low, size] = line.numbers;
    let Some(number) = line.bytes().first() else {
        return Ok(());
    };
    let refusal = Refusal {
        cause: cases::cause_of(*number),
        place: joined(high, low),
    };
    told::line(out, size, |buffer| lines::reason_line(refusal, buffer))
}

pub(crate) fn reached(out: &mut impl Write, line: &Line) -> io::Result<()> {
    let [high, low, size] = line.numbers;
    told::line(out, size, |buffer| {
        lines::reached_line(joined(high, low), buffer)
    })
}

pub(crate) fn unreached(out: &mut impl Write, line: &Line) -> io::Result<()> {
    let [_, _, size] = line.numbers;
    told::line(out, size, |buffer| lines::unreached_line(buffer))
}
