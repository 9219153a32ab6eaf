// Derivations around the limit of 65,535 steps: the same step of ten bytes 65,536 times, with another one as number 65,534.
use crate::check;
use std::io;
use std::io::Write;

const STEP: &[u8] = b"\x40\x02\x00\x00\x00\x00\x00\x16\x00\x06";

const SIZE: usize = 655360;

const OTHER_AT: usize = 655340;

// Tries the first n bytes. An array so large is lent whole to another function: where it is made, the check cannot follow its length.
fn try_front(
    out: &mut impl Write,
    book: &[u8],
    derivation: &mut [u8; SIZE],
    n: usize,
    other: &[u8],
) -> io::Result<()> {
    cases::repeat(derivation, STEP);
    for (x, byte) in derivation.iter_mut().skip(OTHER_AT).zip(other) {
        *x = *byte;
    }
    match derivation.get(..n) {
        Some(derivation) => check(out, book, 3, derivation),
        None => Ok(()),
    }
}

pub fn run(out: &mut impl Write, book: &[u8], n: usize, other: &[u8]) -> io::Result<()> {
    let mut derivation = [0; SIZE];
    try_front(out, book, &mut derivation, n, other)
}
