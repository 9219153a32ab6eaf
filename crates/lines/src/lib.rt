// The lines that are made of fixed words and numbers: how many facts are held, how many goals are reached, a refusal, that all senders
// are honest, and what stands in the lines of a goal or of a sender beside the texts. A whole line is written to the front of a buffer, and its
// length is answered; a part of a line is put by a writer. Bytes that have no place are not written.
#![tactic(auto)]

ghost use Rattle.std.specs.Prelude.{◌≡◌, ◌+◌, ◌-◌, ◌*◌, ◌≤◌, ◌∷◌, [], ◌++◌, length, get_or, take, replicate};
ghost use Rattle.std.proofs.lemmas.List.Edits.{sets};
ghost use Rattle.logic.specs.Refusal.{number_of};
ghost use Rattle.logic.specs.Text.{ascii, decimal};
ghost use Rattle.logic.specs.Record.{word as word_at};
ghost use Rattle.logic.specs.Listing.{held_line, goals_line, refused_line};
ghost use Rattle.logic.specs.Reason.{reason_of, placed, reason_line};
ghost use Rattle.logic.specs.Step.{step_at};
ghost use Rattle.logic.specs.Explained.{goal_heading, reached_line, unreached_line, aligned, premises_text, why, why_in_brackets};
ghost use Rattle.logic.specs.Honesty.{disbelief_heading, honest_line};
ghost use Rattle.digits.specs.Puts.{Appends};

use digits::Writer;
use logic::Refusal;

// The number of a refusal and its place.
pub fn refusal_line(refusal: Refusal, buffer: &mut [u8]) -> usize
    ensures { (buffer.new ≡ sets buffer.old 0 (refused_line (number_of refusal.cause) refusal.place)) × (result ≡ length (refused_line (number_of refusal.cause) refusal.place)) × (result ≤ 100) }
{
    let mut w = Writer::new(buffer);
    w.text(b"refused ");
    w.number(u64::from(refusal.cause.number()));
    w.text(b" at ");
    w.number(refusal.place as u64);
    w.text(b"\n");
    w.at
}

// How many facts are held.
pub fn held_line(held: usize, buffer: &mut [u8]) -> usize
    ensures { (buffer.new ≡ sets buffer.old 0 (held_line held)) × (result ≡ length (held_line held)) × (result ≤ 100) }
{
    let mut w = Writer::new(buffer);
    w.text(b"held ");
    w.number(held as u64);
    w.text(b"\n");
    w.at
}

// How many goals are reached, of how many, and the per cent.
pub fn goals_line(reached: u32, goals: u32, buffer: &mut [u8]) -> usize
    ensures { (buffer.new ≡ sets buffer.old 0 (goals_line reached goals)) × (result ≡ length (goals_line reached goals)) × (result ≤ 100) }
{
    let mut w = Writer::new(buffer);
    w.text(b"goals ");
    w.number(u64::from(reached));
    w.text(b" of ");
    w.number(u64::from(goals));
    w.text(b", ");
    w.number(digits::per_cent(reached, goals));
    w.text(b" per cent\n");
    w.at
}

// The place of a refusal, as `record 3: `. Nothing where its place is always 0.
fn put_place(number: u32, place: usize, w: &mut Writer)
    ensures same_buffer { w.new.out.ghost_name ≡ w.old.out.ghost_name }
    ensures put { Appends w.old.out.now w.old.at (placed (reason_of number).unit place) w.new.out.now w.new.at }
    ensures few { length (placed (reason_of number).unit place) ≤ 29 }
{
    let unit = reasons::unit(number);
    if unit.is_empty() {
        return;
    }
    w.text(unit);
    w.text(b" ");
    w.number(place as u64);
    w.text(b": ");
}

// A refusal in words.
pub fn reason_line(refusal: Refusal, buffer: &mut [u8]) -> usize
    ensures { (buffer.new ≡ sets buffer.old 0 (reason_line (number_of refusal.cause) refusal.place)) × (result ≡ length (reason_line (number_of refusal.cause) refusal.place)) × (result ≤ 120) }
{
    let number = u32::from(refusal.cause.number());
    let mut w = Writer::new(buffer);
    put_place(number, refusal.place, &mut w);
    w.text(reasons::sentence(number));
    w.text(b"\n");
    w.at
}

// What stands before the fact of a goal: its number and that of its message.
pub fn goal_heading(goal: u32, after: u16, w: &mut Writer)
    ensures same_buffer { w.new.out.ghost_name ≡ w.old.out.ghost_name }
    ensures put { Appends w.old.out.now w.old.at (goal_heading goal after) w.new.out.now w.new.at }
    ensures few { length (goal_heading goal after) ≤ 60 }
{
    w.text(b"goal ");
    w.number(u64::from(goal));
    w.text(b" after ");
    w.short(after);
    w.text(b": ");
}

// A goal that is reached: how many steps its derivation has.
pub fn reached_line(steps: usize, buffer: &mut [u8]) -> usize
    ensures { (buffer.new ≡ sets buffer.old 0 (reached_line steps)) × (result ≡ length (reached_line steps)) × (result ≤ 100) }
{
    let mut w = Writer::new(buffer);
    w.text(b"  reached, ");
    w.number(steps as u64);
    w.text(b" steps\n");
    w.at
}

// A goal that is not reached.
pub fn unreached_line(buffer: &mut [u8]) -> usize
    ensures { (buffer.new ≡ sets buffer.old 0 unreached_line) × (result ≡ length unreached_line) × (result ≤ 100) }
{
    let mut w = Writer::new(buffer);
    w.text(b"  not reached: no derivation exists\n");
    w.at
}

// What stands before a formula that the sender of a message does not believe: the message's number, and its sender by his name.
pub fn disbelief_heading(message: u16, name: u16, w: &mut Writer)
    ensures same_buffer { w.new.out.ghost_name ≡ w.old.out.ghost_name }
    ensures put { Appends w.old.out.now w.old.at (disbelief_heading message name) w.new.out.now w.new.at }
    ensures few { length (disbelief_heading message name) ≤ 39 }
{
    w.text(b"message ");
    w.short(message);
    w.text(b": P");
    w.short(name);
    w.text(b" does not believe ");
}

// That each sender believes what he says.
pub fn honest_line(buffer: &mut [u8]) -> usize
    ensures { (buffer.new ≡ sets buffer.old 0 honest_line) × (result ≡ length honest_line) × (result ≤ 23) }
{
    let mut w = Writer::new(buffer);
    w.text(b"all senders are honest\n");
    w.at
}

// How many digits a number has: they are put into a buffer that has no room for them.
fn digits_of(n: u64) -> usize
    ensures { (result ≡ length (decimal n)) × (result ≤ 20) }
{
    digits::put_decimal(&mut [], 0, n)
}

// The spaces before a number of k digits that is right-aligned in four columns.
fn spaces(k: usize) -> &'static [u8]
    ensures { result.now ≡ replicate (4 - k) 32 }
{
    match k {
        0 => b"    ",
        1 => b"   ",
        2 => b"  ",
        3 => b" ",
        _ => b"",
    }
}

// The number of a step, right-aligned in four columns.
pub fn step_number(i: usize, w: &mut Writer)
    ensures same_buffer { w.new.out.ghost_name ≡ w.old.out.ghost_name }
    ensures put { Appends w.old.out.now w.old.at (aligned i) w.new.out.now w.new.at }
    ensures few { length (aligned i) ≤ 20 }
{
    let n = i as u64;
    w.text(spaces(digits_of(n)));
    w.number(n);
}

// The first n of two premises.
fn put_premises(n: usize, first: u16, second: u16, w: &mut Writer)
    requires { n ≤ 2 }
    ensures same_buffer { w.new.out.ghost_name ≡ w.old.out.ghost_name }
    ensures put { Appends w.old.out.now w.old.at (premises_text (take n (first ∷ second ∷ []))) w.new.out.now w.new.at }
    ensures few { length (premises_text (take n (first ∷ second ∷ []))) ≤ 15 }
{
    if n == 0 {
        return;
    }
    w.short(first);
    if n == 1 {
        return;
    }
    w.text(b" and ");
    w.short(second);
}

// A rule and its premises.
fn put_rule(step: &[u8], kind: u8, w: &mut Writer)
    requires { kind ≡ get_or step.now 0 0 }
    ensures same_buffer { w.new.out.ghost_name ≡ w.old.out.ghost_name }
    ensures put { Appends w.old.out.now w.old.at (ascii "rule " ++ decimal (kind - 65) ++ ascii " from " ++ premises_text (step_at step.now).numbers) w.new.out.now w.new.at }
    ensures few { length (ascii "rule " ++ decimal (kind - 65) ++ ascii " from " ++ premises_text (step_at step.now).numbers) ≤ 31 }
{
    let n = steps::numbers_in(kind);
    w.text(b"rule ");
    w.short(u16::from(kind.saturating_sub(65)));
    w.text(b" from ");
    put_premises(n, format::word(step, 8), format::word(step, 10), w);
}

// A word, and the first number of a step.
fn put_given(word: &[u8], step: &[u8], w: &mut Writer)
    requires { length word.now ≤ 11 }
    ensures same_buffer { w.new.out.ghost_name ≡ w.old.out.ghost_name }
    ensures put { Appends w.old.out.now w.old.at (word.now ++ decimal (word_at step.now 8)) w.new.out.now w.new.at }
    ensures few { length (word.now ++ decimal (word_at step.now 8)) ≤ 16 }
{
    w.text(word);
    w.short(format::word(step, 8));
}

// The kinds of the steps that are given.
const ASSUMPTION: u8 = 64;

const MESSAGE: u8 = 65;

// Why a step holds: an assumption, a message, or a rule with its premises.
fn put_why(step: &[u8], w: &mut Writer)
    ensures same_buffer { w.new.out.ghost_name ≡ w.old.out.ghost_name }
    ensures put { Appends w.old.out.now w.old.at (why (step_at step.now)) w.new.out.now w.new.at }
    ensures few { length (why (step_at step.now)) ≤ 31 }
{
    let kind = format::byte(step, 0);
    if kind == ASSUMPTION {
        put_given(b"assumption ", step, w);
        return;
    }
    if kind == MESSAGE {
        put_given(b"message ", step, w);
        return;
    }
    put_rule(step, kind, w);
}

// What stands behind the fact of the step at the front of some bytes: why it holds, in brackets, and the end of the line.
pub fn step_reason(step: &[u8], w: &mut Writer)
    ensures same_buffer { w.new.out.ghost_name ≡ w.old.out.ghost_name }
    ensures put { Appends w.old.out.now w.old.at (why_in_brackets (step_at step.now)) w.new.out.now w.new.at }
    ensures few { length (why_in_brackets (step_at step.now)) ≤ 36 }
{
    w.text(b"  [");
    put_why(step, w);
    w.text(b"]\n");
}
