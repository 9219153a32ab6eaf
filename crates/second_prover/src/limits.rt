// The survey and the prover in buffers of which only the first bytes are lent.
use logic::Refusal;
use search::Proved;
use std::io;
use std::io::Write;

const WORK_SIZE: usize = 311296;

const DERIVATION_SIZE: usize = 466944;

// Tells what the survey in so many bytes answers.
pub fn survey(out: &mut impl Write, book: &[u8], size: usize) -> io::Result<()> {
    let mut table = [170u8; second_search::PLACES];
    let Some(part) = table.get_mut(..size) else {
        return write!(out, "held 0");
    };
    match search::survey(book, part) {
        Ok(held) => write!(out, "held {held}"),
        Err(f) => cases::refused(out, f),
    }
}

// What the prover answers, with the number of facts held, and of a derivation whether the checker accepts it.
#[derive(Clone, Copy)]
enum Outcome {
    Accepted(usize),
    Rejected(usize),
    NotReached(usize),
}

fn accepts(book: &[u8], goal: u32, derivation: &[u8]) -> bool {
    checker::check(book, goal, derivation).is_ok()
}

fn prove_part(
    book: &[u8],
    goal: u32,
    work: &mut [u8],
    derivation: &mut [u8],
) -> Result<Outcome, Refusal> {
    Ok(match search::prove(book, goal, work, derivation)? {
        Proved::Reached(p) => match derivation.get(..p.bytes) {
            Some(d) if accepts(book, goal, d) => Outcome::Accepted(p.held),
            _ => Outcome::Rejected(p.held),
        },
        Proved::NotReached(held) => Outcome::NotReached(held),
    })
}

// What the prover answers in buffers of w and d bytes.
fn prove_in(book: &[u8], goal: u32, w: usize, d: usize) -> Result<Outcome, Refusal> {
    let mut work = [170u8; WORK_SIZE];
    let mut derivation = [170u8; DERIVATION_SIZE];
    match (work.get_mut(..w), derivation.get_mut(..d)) {
        (Some(work), Some(derivation)) => prove_part(book, goal, work, derivation),
        _ => Ok(Outcome::NotReached(0)),
    }
}

// Tells what the prover answers to goal 0 in buffers of w and d bytes.
pub fn prove(out: &mut impl Write, book: &[u8], w: usize, d: usize) -> io::Result<()> {
    match prove_in(book, 0, w, d) {
        Ok(Outcome::Accepted(held)) => write!(out, "reached, held {held}, accepted"),
        Ok(Outcome::Rejected(held)) => write!(out, "reached, held {held}, refused by the checker"),
        Ok(Outcome::NotReached(held)) => write!(out, "not reached, held {held}"),
        Err(f) => cases::refused(out, f),
    }
}

// Whether the prover, in buffers for every book, says of a goal whether it is reached and how many facts are held, and gives a
// derivation that is accepted.
pub fn agrees(book: &[u8], goal: u32, reached: bool, held: usize) -> bool {
    match prove_in(book, goal, WORK_SIZE, DERIVATION_SIZE) {
        Ok(Outcome::Accepted(h)) => reached && h == held,
        Ok(Outcome::NotReached(h)) => !reached && h == held,
        Ok(Outcome::Rejected(_)) | Err(_) => false,
    }
}
