// The library as a C host calls it: byte slices and numbers in, one number of 64 bits out. specs/Packing.antt says what stands in
// that number; include/cogalbin.h takes it apart.
#![tactic(auto)]

ghost use Rattle.std.specs.Prelude.{◌≡◌, Ok, ℕ, ◌+◌, ◌*◌, ◌≤◌};
ghost use Rattle.logic.specs.declared.Audience.TheVariants.{Owner, Guest};
ghost use Rattle.logic.specs.Count.{formulas};
ghost use Rattle.logic.specs.Refusal.{number_of, Outcome, told_entered};
ghost use Rattle.logic.specs.Reading.{reading, counted};
ghost use Rattle.logic.specs.Entering.{entering, written};
ghost use Rattle.logic.specs.Place.{F};
ghost use Rattle.logic.specs.Survey.{Surveyed as IsSurveyed};
ghost use Rattle.logic.specs.Proof.{Answer, Proved as IsProved};
ghost use Rattle.logic.specs.Proof.Answer.{reached};
ghost use Rattle.logic.specs.Step.{Checked as IsChecked};
ghost use Rattle.logic.specs.Text.{texting, texted};
ghost use Rattle.logic.specs.Listing.{listing_told, listing_in};
ghost use Rattle.logic.specs.Reason.{reason_told, reason_in};
ghost use Rattle.logic.specs.Honesty.{Reported as IsReported};
ghost use Rattle.search.specs.Told.{answered};
ghost use Rattle.text.specs.Told.{told_listed};
ghost use Rattle.capi.specs.Packing.{packed_refusal, packed_outcome, alone, counts, answer, nothing, part, packed_entry};

use logic::{Audience, Counts, Entered, Refusal};
use search::{Proof, Proved};
use text::Piece;

// A refusal: its number, and the place above it.
fn pack_refusal(f: Refusal) -> u64
    ensures { result ≡ packed_refusal (number_of f.cause) f.place }
{
    u64::from(f.cause.number()) + 256 * (f.place as u64 % 72057594037927936)
}

fn pack_counts(n: Counts) -> u64
    ensures { result ≡ 256 * counts n }
{
    256 * (n.formulas as u64 % 65536
        + 65536 * (n.principals as u64 % 256)
        + 16777216 * (n.assumptions as u64 % 256)
        + 4294967296 * (n.messages as u64 % 256)
        + 1099511627776 * (n.goals as u64 % 256))
}

fn pack_entered(x: Entered) -> u64
    ensures { result ≡ packed_entry (told_entered (Ok x)) }
{
    match x {
        Entered::Present(i) => 256 * (2 * (i as u64 % 36028797018963968)),
        Entered::Added(i) => 256 * (1 + 2 * (i as u64 % 36028797018963968)),
    }
}

fn pack_alone(k: usize) -> u64
    ensures { result ≡ 256 * alone k }
{
    256 * (k as u64 % 72057594037927936)
}

// That a derivation is accepted says no more.
fn pack_nothing(_accepted: ()) -> u64
    ensures { result ≡ 0 }
{
    0
}

fn pack_proof(p: Proof) -> u64
    ensures { result ≡ 256 * answer (reached p.steps p.bytes p.held) }
{
    256 * (1
        + 2 * (p.held as u64 % 65536)
        + 131072 * (u64::from(p.steps) % 65536)
        + 8589934592 * (p.bytes as u64 % 8388608))
}

fn pack_proved(x: Proved) -> u64
    ensures { result ≡ 256 * answer (answered x) }
{
    match x {
        Proved::Reached(p) => pack_proof(p),
        Proved::NotReached(h) => 256 * (2 * (h as u64 % 65536)),
    }
}

fn pack_piece(x: Option<Piece>) -> u64
    ensures { result ≡ packed_outcome part (told_listed (Ok x)) }
{
    match x {
        Some(p) => 256 * (2 * (p.next as u64 % 65536) + 131072 * (p.bytes as u64 % 549755813888)),
        None => 256,
    }
}

// The places of a survey of a book with these counts.
fn pack_places(n: Counts) -> u64
    requires { (n.formulas ≤ 256) × (n.principals ≤ 8) }
    ensures { result ≡ 256 * (n.principals * n.formulas * (3 + 2 * n.principals)) }
{
    256 * ((n.principals * n.formulas * (3 + 2 * n.principals)) as u64)
}

// Reads a book.
#[unsafe(no_mangle)]
pub extern "C" fn cogalbin_read(book: &[u8]) -> u64
    ensures { result ≡ packed_outcome counts (counted (reading book.now)) }
{
    book::read(book).map_or_else(pack_refusal, pack_counts)
}

// F of a book: a table needs F bytes, the prover F × 8 of work and F × 12 for the derivation.
#[unsafe(no_mangle)]
pub extern "C" fn cogalbin_places(book: &[u8]) -> u64
    ensures { result ≡ packed_outcome (λ rs. F (formulas rs)) (reading book.now) }
{
    match book::read(book) {
        Ok(n) => pack_places(n),
        Err(f) => pack_refusal(f),
    }
}

// Enters a record into a buffer of which `used` bytes are a book.
#[unsafe(no_mangle)]
pub extern "C" fn cogalbin_enter(buffer: &mut [u8], used: usize, bytes: &[u8]) -> u64
    ensures { (result ≡ packed_entry (entering buffer.old used bytes.now)) × (buffer.new ≡ written (entering buffer.old used bytes.now) buffer.old used bytes.now) }
{
    book::enter(buffer, used, bytes).map_or_else(pack_refusal, pack_entered)
}

// Surveys a book.
#[unsafe(no_mangle)]
pub extern "C" fn cogalbin_survey(book: &[u8], table: &mut [u8]) -> u64
    ensures { (o : Outcome ℕ) × IsSurveyed book.now table.old table.new o × (result ≡ packed_outcome alone o) }
{
    search::survey(book, table).map_or_else(pack_refusal, pack_alone)
}

// Proves a goal of a book, or finds that no derivation of it exists.
#[unsafe(no_mangle)]
pub extern "C" fn cogalbin_prove(
    book: &[u8],
    goal: u32,
    work: &mut [u8],
    derivation: &mut [u8],
) -> u64
    ensures { (o : Outcome Answer) × IsProved book.now goal work.old work.new derivation.old derivation.new o × (result ≡ packed_outcome answer o) }
{
    search::prove(book, goal, work, derivation).map_or_else(pack_refusal, pack_proved)
}

// Checks a derivation of a goal.
#[unsafe(no_mangle)]
pub extern "C" fn cogalbin_check(book: &[u8], goal: u32, derivation: &[u8]) -> u64
    ensures { (o : Outcome Unit) × IsChecked book.now goal derivation.now o × (result ≡ packed_outcome nothing o) }
{
    checker::check(book, goal, derivation).map_or_else(pack_refusal, pack_nothing)
}

// Writes the text of a fact to the front of a buffer.
#[unsafe(no_mangle)]
pub extern "C" fn cogalbin_text(book: &[u8], fact: &[u8], buffer: &mut [u8]) -> u64
    ensures { (result ≡ packed_outcome alone (texting Owner book.now fact.now buffer.old)) × (buffer.new ≡ texted Owner book.now fact.now buffer.old) }
{
    text::fact_text(Audience::Owner, book, fact, buffer).map_or_else(pack_refusal, pack_alone)
}

// The same for a guest: a datum is `N#` and its formula number.
#[unsafe(no_mangle)]
pub extern "C" fn cogalbin_guest_text(book: &[u8], fact: &[u8], buffer: &mut [u8]) -> u64
    ensures { (result ≡ packed_outcome alone (texting Guest book.now fact.now buffer.old)) × (buffer.new ≡ texted Guest book.now fact.now buffer.old) }
{
    text::fact_text(Audience::Guest, book, fact, buffer).map_or_else(pack_refusal, pack_alone)
}

// Writes the next piece of the listing of a book to the front of a buffer, from the table that a survey of it filled.
#[unsafe(no_mangle)]
pub extern "C" fn cogalbin_list(book: &[u8], table: &[u8], from: usize, buffer: &mut [u8]) -> u64
    ensures { (result ≡ packed_outcome part (listing_told Owner book.now table.now from buffer.old)) × (buffer.new ≡ listing_in Owner book.now table.now from buffer.old) }
{
    text::list(Audience::Owner, book, table, from, buffer).map_or_else(pack_refusal, pack_piece)
}

// The same of the guest's listing.
#[unsafe(no_mangle)]
pub extern "C" fn cogalbin_guest_list(
    book: &[u8],
    table: &[u8],
    from: usize,
    buffer: &mut [u8],
) -> u64
    ensures { (result ≡ packed_outcome part (listing_told Guest book.now table.now from buffer.old)) × (buffer.new ≡ listing_in Guest book.now table.now from buffer.old) }
{
    text::list(Audience::Guest, book, table, from, buffer).map_or_else(pack_refusal, pack_piece)
}

// Writes the sentence of a refusal's number to the front of a buffer.
#[unsafe(no_mangle)]
pub extern "C" fn cogalbin_reason(number: u32, buffer: &mut [u8]) -> u64
    ensures { (result ≡ packed_outcome alone (reason_told number buffer.old)) × (buffer.new ≡ reason_in number buffer.old) }
{
    reasons::reason(number, buffer).map_or_else(pack_refusal, pack_alone)
}

// Writes the report of honest senders to the front of a buffer: a pair of message number and formula number for each formula that the sender
// of the message has put into a section of his own and does not believe.
#[unsafe(no_mangle)]
pub extern "C" fn cogalbin_honesty(book: &[u8], report: &mut [u8]) -> u64
    ensures { (o : Outcome ℕ) × IsReported book.now report.old report.new o × (result ≡ packed_outcome alone o) }
{
    honesty::honesty(book, report).map_or_else(pack_refusal, pack_alone)
}
