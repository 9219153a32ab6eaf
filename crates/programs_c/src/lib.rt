// The programs for a host in C: `int cogalbin_listing(void)` and so on read standard input and answer the exit status. A handle of a stream
// takes no bytes, so C passes nothing for it. `cogalbin_listing_called` and so on take what the program was called with, too.
// The eight functions are alike since each is a name of the C interface: a generic one has no name for C.
#![tactic(auto)]

ghost use Rattle.std.specs.Prelude.{◌≡◌, ◌<◌, pos};
ghost use Rattle.programs.specs.Status.{exit_status};

use programs::{Asked, Status, Streams, asked_by};
use std::io::{Stderr, Stdin, Stdout};

// The exit status, as a C `main` returns it.
fn answered(status: Status) -> i32
    ensures { result ≡ pos (exit_status status) }
{
    i32::from(status.number())
}

// The three handles that C passes nothing for, as the programs take them.
fn streams(input: Stdin, output: Stdout, errors: Stderr) -> Streams {
    Streams {
        input,
        output,
        errors,
    }
}

// Lists the book on standard input.
#[unsafe(no_mangle)]
pub extern "C" fn cogalbin_listing(input: Stdin, output: Stdout, errors: Stderr) -> i32 {
    answered(programs::cogalbin_listing(Asked::Nothing, streams(input, output, errors)))
}

// The same where the program was called with so many arguments behind its name, of which `first` is the first.
#[unsafe(no_mangle)]
pub extern "C" fn cogalbin_listing_called(
    count: usize,
    first: &[u8],
    input: Stdin,
    output: Stdout,
    errors: Stderr,
) -> i32
    ensures { 1 < count → result ≡ pos 1 }
{
    answered(programs::cogalbin_listing(asked_by(count, first), streams(input, output, errors)))
}

// Lists it for a guest.
#[unsafe(no_mangle)]
pub extern "C" fn cogalbin_guest_listing(input: Stdin, output: Stdout, errors: Stderr) -> i32 {
    answered(programs::cogalbin_guest_listing(Asked::Nothing, streams(input, output, errors)))
}

// The same with arguments.
#[unsafe(no_mangle)]
pub extern "C" fn cogalbin_guest_listing_called(
    count: usize,
    first: &[u8],
    input: Stdin,
    output: Stdout,
    errors: Stderr,
) -> i32
    ensures { 1 < count → result ≡ pos 1 }
{
    answered(programs::cogalbin_guest_listing(
        asked_by(count, first),
        streams(input, output, errors),
    ))
}

// Prints each goal of the book on standard input, with its derivation.
#[unsafe(no_mangle)]
pub extern "C" fn cogalbin_goals(input: Stdin, output: Stdout, errors: Stderr) -> i32 {
    answered(programs::cogalbin_goals(Asked::Nothing, streams(input, output, errors)))
}

// The same with arguments.
#[unsafe(no_mangle)]
pub extern "C" fn cogalbin_goals_called(
    count: usize,
    first: &[u8],
    input: Stdin,
    output: Stdout,
    errors: Stderr,
) -> i32
    ensures { 1 < count → result ≡ pos 1 }
{
    answered(programs::cogalbin_goals(asked_by(count, first), streams(input, output, errors)))
}

// Prints what the senders of the book on standard input say and do not believe.
#[unsafe(no_mangle)]
pub extern "C" fn cogalbin_honest(input: Stdin, output: Stdout, errors: Stderr) -> i32 {
    answered(programs::cogalbin_honest(Asked::Nothing, streams(input, output, errors)))
}

// The same with arguments.
#[unsafe(no_mangle)]
pub extern "C" fn cogalbin_honest_called(
    count: usize,
    first: &[u8],
    input: Stdin,
    output: Stdout,
    errors: Stderr,
) -> i32
    ensures { 1 < count → result ≡ pos 1 }
{
    answered(programs::cogalbin_honest(asked_by(count, first), streams(input, output, errors)))
}
