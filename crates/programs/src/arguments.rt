// The arguments of a program: none, or --help.
ghost use Rattle.std.specs.Prelude.{◌≡◌, ◌<◌, ◌↔◌, IsTrue, codes};
ghost use Rattle.programs.specs.declared.arguments.Asked.TheVariants.{Nothing, Help, Unknown};

use std::env::FillError;
use std::rt::Env;

// What the arguments ask for.
#[derive(Clone, Copy)]
pub enum Asked {
    Nothing,
    Help,
    Unknown,
}

// Whether a word is `--help`.
fn is_help(word: &[u8]) -> bool
    ensures { IsTrue result ↔ (word.now ≡ codes "--help") }
{
    word == b"--help".as_slice()
}

// What so many arguments behind the program's name ask for, of which `first` is the first. Where there is none, `first` is not looked at.
pub fn asked_by(count: usize, first: &[u8]) -> Asked
    ensures nothing { (result ≡ Nothing) ↔ (count ≡ 0) }
    ensures help { (result ≡ Help) ↔ (count ≡ 1) × (first.now ≡ codes "--help") }
    ensures unknown { 1 < count → result ≡ Unknown }
{
    if count == 0 {
        return Asked::Nothing;
    }
    if count == 1 && is_help(first) {
        return Asked::Help;
    }
    Asked::Unknown
}

// Whether there is an argument of that number; the program's name has the number 0.
fn has_argument<R: Env>(rt: &R, number: usize) -> bool {
    let mut word = [0u8; 8];
    match rt.arg(number, &mut word) {
        Err(FillError::NotPresent) => false,
        Err(FillError::TooLong) => true,
        Ok(_) => true,
    }
}

// What the process's arguments ask for. One that is longer than the word is not known.
pub fn wanted<R: Env>(rt: &R) -> Asked {
    let mut word = [0u8; 8];
    match rt.arg(1, &mut word) {
        Err(FillError::NotPresent) => Asked::Nothing,
        Err(FillError::TooLong) => Asked::Unknown,
        Ok(n) => {
            let count = if has_argument(rt, 2) { 2 } else { 1 };
            asked_by(count, &word[..n])
        }
    }
}

// How each program is called.
pub(crate) const HELP_LISTING: &[u8] =
    b"usage: listing < BOOK\nReads a book and prints a line for each fact that follows: the number of the first message after which it follows, and the fact;\nthen how many facts are held and how many goals are reached. docs/BOOKS.md says how a book is written.\nExit status: 0 listed; 2 the book is refused; 1 not read, not written, or an unknown argument.\n";

pub(crate) const HELP_GUEST_LISTING: &[u8] =
    b"usage: guest_listing < BOOK\nReads a book and prints what listing prints, for a guest who may not know which data are carried: each datum is N# and its formula number.\nBooks that differ only in the name numbers of data print alike. docs/BOOKS.md says how a book is written.\nExit status: 0 listed; 2 the book is refused; 1 not read, not written, or an unknown argument.\n";

pub(crate) const HELP_GOALS: &[u8] =
    b"usage: goals < BOOK\nReads a book and prints each goal, whether it is reached, and if so a derivation step by step, which the checker has accepted;\nthen how many goals are reached. docs/BOOKS.md says how a book is written, docs/RULES.md has the rules.\nExit status: 0 printed; 2 the book is refused, or a derivation is not accepted; 1 not read, not written, or an unknown argument.\n";

pub(crate) const HELP_HONEST: &[u8] =
    b"usage: honest < BOOK\nReads a book and prints a line for each formula that a sender has put into a section of his own and does not believe before that message:\nthe number of the message, the sender and the formula; or that all senders are honest. docs/BOOKS.md says how a book is written.\nExit status: 0 printed; 2 the book is refused; 1 not read, not written, or an unknown argument.\n";
