// What the programs do: they read a book from standard input, call the library and write what it gives. Each function `cogalbin_..` is one
// program and answers how it ends: with status 0 when what was asked for is written, 2 when the book was refused, 1 when standard input
// could not be read, a write failed or an argument is not known. crates/listing and the crates beside it are these programs; crates/programs_c
// has them for a host in C.
#![tactic(auto)]

mod arguments;
mod goals;
mod honest;

ghost use Rattle.std.specs.Prelude.{◌≡◌, ◌-◌, ◌≤◌, length, IfOk};
ghost use Rattle.programs.specs.Turn.{Rises};
ghost use Rattle.programs.specs.Status.{exit_status};
ghost use Rattle.programs.specs.declared.Status.TheVariants.{Failed};
ghost use Rattle.programs.specs.declared.arguments.Asked.TheVariants.{Unknown};

pub use arguments::{Asked, asked_by, wanted};
use logic::{Audience, Refusal};
use std::io;
use std::io::{Read, Stderr, Stdin, Stdout};
use std::process::ExitCode;

// How a program ends: all is written; something failed, or an argument is not known; or the book is refused.
#[derive(Clone, Copy, PartialEq, Eq)]
pub enum Status {
    Done,
    Failed,
    Refused,
}

impl Status {
    // The exit status.
    pub fn number(self) -> u8
        ensures { result ≡ exit_status self }
    {
        match self {
            Status::Done => 0,
            Status::Failed => 1,
            Status::Refused => 2,
        }
    }
}

impl From<Status> for ExitCode {
    fn from(status: Status) -> ExitCode {
        ExitCode::from(status.number())
    }
}

// What a program reads and writes: standard input, standard output and standard error.
#[derive(Clone, Copy)]
pub struct Streams {
    pub input: Stdin,
    pub output: Stdout,
    pub errors: Stderr,
}

// What is told, or the status to end with.
type Told<T> = Result<T, Status>;

impl Streams {
    // One read into the buffer from the place `at` on; no bytes at the end of the input.
    fn read_more(self, buffer: &mut [u8], at: usize) -> io::Result<usize>
        requires { at ≤ length buffer.old }
        ensures { IfOk result (λ n. n ≤ length buffer.old - at) }
    {
        let mut input = self.input;
        input.read(&mut buffer[at..])
    }

    // Reads until the buffer is full or the input ends. How many bytes there are.
    fn read_book(self, buffer: &mut [u8]) -> io::Result<usize>
        ensures { IfOk result (λ n. n ≤ length buffer.old) }
    {
        let mut at: usize = 0;
        // A `while`, since `at` counts no turns: a read gives as many bytes as it has, and the next goes behind them; the buffer is fixed.
        while at < buffer.len() {
            let n = self.read_more(buffer, at)?;
            if n == 0 {
                return Ok(at);
            }
            at += n;
        }
        Ok(at)
    }

    // Tells on standard error what failed.
    fn failed(self, what: &[u8]) -> Status
        ensures { result ≡ Failed }
    {
        let _ = self.errors.write_all(what);
        Status::Failed
    }

    // Writes to standard output.
    fn put(self, bytes: &[u8]) -> Told<()> {
        if self.output.write_all(bytes).is_ok() {
            return Ok(());
        }
        Err(self.failed(b"standard output could not be written\n"))
    }

    // Writes a line of the library's own words to standard output. None of these is longer than 100 bytes.
    fn put_line<F: FnOnce(&mut [u8]) -> usize>(self, write: F) -> Told<()>
        requires callable { F.IsAlwaysCallable write }
        requires short { (x : _) (n : _) (y : _) → F.post write x n y → n ≤ 100 }
    {
        let mut buffer = [0u8; 100];
        let n = write(&mut buffer);
        self.put(&buffer[..n])
    }

    // A refusal: its number and place on standard output, and then why, in words, on standard error.
    fn refused(self, refusal: Refusal) -> Status {
        let told = self.put_line(|buffer| lines::refusal_line(refusal, buffer));
        let mut reason = [0u8; 120];
        let n = lines::reason_line(refusal, &mut reason);
        let _ = self.errors.write_all(&reason[..n]);
        told.err().unwrap_or(Status::Refused)
    }

    // Puts the book on standard input to use. No book is longer than 2,256 bytes, and the first 2,263 bytes decide how any input is read, so
    // a longer one gets the refusal that the whole of it deserves.
    fn use_input<F: FnOnce(&Reader) -> Told<()>>(self, act: F) -> Told<()>
        requires { F.IsAlwaysCallable act }
    {
        let mut buffer = [0u8; 2263];
        let Ok(n) = self.read_book(&mut buffer) else {
            return Err(self.failed(b"standard input could not be read\n"));
        };
        act(&Reader {
            streams: self,
            book: &buffer[..n],
        })
    }

    // Does what the arguments ask for: `act` with the book on standard input, or to tell how the program is called.
    fn run<F: FnOnce(&Reader) -> Told<()>>(
        self,
        asked: Asked,
        help: &[u8],
        unknown: &[u8],
        act: F,
    ) -> Status
        requires { F.IsAlwaysCallable act }
        ensures { asked ≡ Unknown → result ≡ Failed }
    {
        let told = match asked {
            Asked::Nothing => self.use_input(act),
            Asked::Help => self.put(help),
            Asked::Unknown => Err(self.failed(unknown)),
        };
        told.err().unwrap_or(Status::Done)
    }
}

// A reader of one book, who is told of it on the streams.
#[derive(Clone, Copy)]
struct Reader<'a> {
    streams: Streams,
    book: &'a [u8],
}

impl Reader<'_> {
    // Tells a refusal of the book. The status to end with.
    fn refused(&self, refusal: Refusal) -> Status {
        self.streams.refused(refusal)
    }

    // Writes the piece of the listing for an audience from the line `from` on. The line to go on from, if it is not over.
    // Apart from `tell_piece`: one function of both would ask of a closure that it can be called, rises and stays within the buffer, which
    // each caller would have to prove of its call, so it is no plainer.
    fn list_piece(
        &self,
        audience: Audience,
        table: &[u8],
        from: usize,
        buffer: &mut [u8],
    ) -> Told<Option<usize>>
        ensures { Rises from result }
    {
        let told = text::list(audience, self.book, table, from, buffer).map_err(|f| self.refused(
            f,
        ))?;
        let Some(piece) = told else {
            return Ok(None);
        };
        self.streams.put(&buffer[..piece.bytes])?;
        Ok(Some(piece.next))
    }

    // Writes the listing piece by piece, by the table that the survey filled; it stops at the first write that fails.
    fn list_pieces(&self, audience: Audience, table: &[u8], buffer: &mut [u8]) -> Told<()> {
        let mut from: usize = 0;
        while let Some(next) = self.list_piece(audience, table, from, buffer)? {
            from = next;
        }
        Ok(())
    }

    // The same with a buffer of 64 KiB.
    fn list_facts(&self, audience: Audience, table: &[u8]) -> Told<()> {
        let mut buffer = [0u8; 65536];
        self.list_pieces(audience, table, &mut buffer)
    }

    // The table has room for the survey of every book.
    fn list_book(&self, audience: Audience) -> Told<()> {
        let mut table = [0u8; 38912];
        search::survey(self.book, &mut table).map_err(|f| self.refused(f))?;
        self.list_facts(audience, &table)
    }
}

// Lists the book on standard input: a line for each fact that is held, by place, then how many are held and how many goals are
// reached; or why the book is refused.
pub fn cogalbin_listing(asked: Asked, streams: Streams) -> Status
    ensures { asked ≡ Unknown → result ≡ Failed }
{
    streams.run(
        asked,
        arguments::HELP_LISTING,
        b"listing: unknown argument; listing --help tells how it is called\n",
        |reader| reader.list_book(Audience::Owner),
    )
}

// Lists it for a guest: a datum is `N#` and its formula number.
pub fn cogalbin_guest_listing(asked: Asked, streams: Streams) -> Status
    ensures { asked ≡ Unknown → result ≡ Failed }
{
    streams.run(
        asked,
        arguments::HELP_GUEST_LISTING,
        b"guest_listing: unknown argument; guest_listing --help tells how it is called\n",
        |reader| reader.list_book(Audience::Guest),
    )
}

// Prints each goal of the book on standard input, whether it is reached, and how; then how many are reached; or why the book is refused.
pub fn cogalbin_goals(asked: Asked, streams: Streams) -> Status
    ensures { asked ≡ Unknown → result ≡ Failed }
{
    streams.run(
        asked,
        arguments::HELP_GOALS,
        b"goals: unknown argument; goals --help tells how it is called\n",
        |reader| reader.explain_book(),
    )
}

// Prints what the senders of the book on standard input say in sections of their own and do not believe, message by message, or that all of
// them are honest; or why the book is refused.
pub fn cogalbin_honest(asked: Asked, streams: Streams) -> Status
    ensures { asked ≡ Unknown → result ≡ Failed }
{
    streams.run(
        asked,
        arguments::HELP_HONEST,
        b"honest: unknown argument; honest --help tells how it is called\n",
        |reader| reader.report_book(),
    )
}
