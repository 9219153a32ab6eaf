// Prints each goal of the book on standard input, with its derivation.
#![tactic(auto)]

use programs::Streams;
use std::process::ExitCode;

// The four programs are alike but for the last line: only a `main` may name the `HostRuntime`, and no bound has the three streams.
fn main(rt: HostRuntime) -> ExitCode {
    let streams = Streams {
        input: rt.stdin(),
        output: rt.stdout(),
        errors: rt.stderr(),
    };
    ExitCode::from(programs::cogalbin_goals(programs::wanted(&rt), streams))
}
