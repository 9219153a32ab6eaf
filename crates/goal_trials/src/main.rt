// Tries the line of a goal, the steps of a derivation in pieces, and what is said in words. Writes for each what is tried and what is
// answered; how many bytes are as they were behind those that were written, the buffer having 8,400 bytes, all marked before; and then
// the bytes that were written.
//
// A line of the input (see `cases`) has
//   = BYTES                       the book for the lines that follow
//   GOAL, SIZE ?                  the line of a goal, in a buffer of SIZE bytes
//   LENGTH, FROM, SIZE / BYTES    the piece from step FROM on; the derivation has LENGTH bytes, which are BYTES over and over
//   LENGTH, FROM, SIZE > BYTES    the same, and on from there until it is over
//   LENGTH, LESS, SIZE < BYTES    the piece from step 2^64 - 1 - LESS on
//   NUMBER, SIZE "                the sentence of a refusal's number
//   HIGH, LOW, SIZE ! BYTE        the line in words of the refusal BYTE at HIGH × 2^32 + LOW; a line feed behind it where it is cut
//   HIGH, LOW, SIZE +             the line of a goal that is reached in HIGH × 2^32 + LOW steps, likewise
//   SIZE -                        the line of a goal that is not reached, likewise
#![tactic(auto)]

use cases::{Line, Trial};
use std::io;
use std::io::Write;

mod pieces;
mod told;
mod worded;

#[derive(Drop)]
struct Goals;

impl Trial for Goals {
    fn try_line(&mut self, out: &mut impl Write, line: &Line, book: &[u8]) -> io::Result<()> {
        match line.sign {
            Some(b'?') => worded::goal(out, line, book),
            Some(b'/' | b'>' | b'<') => pieces::run(out, line, book),
            Some(b'"') => worded::sentence(out, line),
            Some(b'!') => worded::refusal(out, line),
            Some(b'+') => worded::reached(out, line),
            Some(b'-') => worded::unreached(out, line),
            _ => Ok(()),
        }
    }
}

fn main(rt: HostRuntime) -> io::Result<()> {
    cases::start(&rt, &mut Goals)
}
