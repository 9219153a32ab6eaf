// The goals of a book in lines: the line of a goal, and the steps of a derivation in pieces. A line says what its goal record or its step
// says; whether a step follows is the checker's to say.
ghost use Rattle.std.specs.Prelude.{◌≡◌, ◌+◌, ◌<◌, ◌≤◌, length, get_or, drop};
ghost use Rattle.logic.specs.Record.{no_record};
ghost use Rattle.logic.specs.Refusal.{told};
ghost use Rattle.logic.specs.Step.{step_at};
ghost use Rattle.logic.specs.Text.{length_told, at_front};
ghost use Rattle.logic.specs.Listing.{part_told, with_part};
ghost use Rattle.logic.specs.Explained.{goal_line, goal_line_among, goal_told, goal_in, step_line, behind_steps, unreadable, readable, step_line_at, steps_among, steps_told, steps_printed};
ghost use Rattle.written.specs.Stated.{records_in, Noted, told_cause};
ghost use Rattle.text.specs.Told.{told_listed};
ghost use Rattle.text.specs.Lines.{IsIndex, Stated, Prints, LinesIn};
ghost use Rattle.places.specs.Places.{goals_in};

use crate::listing::put_front;
use crate::{ForOwner, Piece};
use digits::Writer;
use format::Index;
use logic::{Cause, Counts, Refusal};

// Why the step at a place of a derivation cannot be printed, if it cannot.
fn unreadable_at(index: &Index, derivation: &[u8], at: usize) -> Option<Cause>
    requires inside { at ≤ length derivation.now }
    requires noted { Noted index.now.formulas index.now.numbers.now }
    ensures { told_cause result ≡ unreadable (records_in index.now.formulas index.now.numbers.now) (drop at derivation.now) }
{
    written::unreadable_as(index, &derivation[at..])
}

impl ForOwner<'_> {
    // The line of the step at the front of some bytes, which has number i.
    fn put_step(&self, step: &[u8], i: usize, out: &mut [u8]) -> usize
        requires right { unreadable (records_in self.now.printer.index.formulas self.now.printer.index.numbers.now) step.now ≡ 0 }
        ensures { Prints out.old (step_line (records_in self.now.printer.index.formulas self.now.printer.index.numbers.now) i (step_at step.now)) out.new result }
    {
        let n = written::numbers_of(&step[1..8]);
        let mut w = Writer::new(out);
        lines::step_number(i, &mut w);
        w.text(b". ");
        self.printer.put_printed(n, &mut w);
        lines::step_reason(step, &mut w);
        w.at
    }

    // The same for the step at a place of a derivation.
    fn put_step_at(&self, derivation: &[u8], at: usize, i: usize, out: &mut [u8]) -> usize
        requires inside { at ≤ length derivation.now }
        requires right { unreadable (records_in self.now.printer.index.formulas self.now.printer.index.numbers.now) (drop at derivation.now) ≡ 0 }
        ensures { Prints out.old (step_line (records_in self.now.printer.index.formulas self.now.printer.index.numbers.now) i (step_at (drop at derivation.now))) out.new result }
    {
        self.put_step(&derivation[at..], i, out)
    }

    // As many whole lines of the steps from number `from` on, which starts at the place `start`, as fit into the buffer, each made in
    // `line` first. A step that cannot be printed ends them. A loop over places and no `for`: each step says how long it is, and its number
    // goes along.
    fn put_steps(
        &self,
        derivation: &[u8],
        start: usize,
        from: usize,
        line: &mut [u8],
        buffer: &mut [u8],
    ) -> Piece
        requires start { (drop start derivation.now ≡ behind_steps from derivation.now) × (start ≤ length derivation.now) }
        requires room { 4160 ≤ length line.old }
        ensures { LinesIn (step_line_at (records_in self.now.printer.index.formulas self.now.printer.index.numbers.now) derivation.now) (from + readable (records_in self.now.printer.index.formulas self.now.printer.index.numbers.now) (behind_steps from derivation.now)) from buffer.old buffer.new result.bytes result.next }
    {
        let mut written: usize = 0;
        let mut at = start;
        let mut i = from;
        while at < derivation.len() {
            if unreadable_at(&self.printer.index, derivation, at).is_some() {
                return Piece {
                    bytes: written,
                    next: i,
                };
            }
            let k = self.put_step_at(derivation, at, i, line);
            if buffer.len() - written < k {
                return Piece {
                    bytes: written,
                    next: i,
                };
            }
            digits::put_text(buffer, written, &line[..k]);
            written += k;
            at = steps::next(derivation, at);
            i += 1;
        }
        Piece {
            bytes: written,
            next: i,
        }
    }

    // The line of goal g: its formula is what it asks, so that its text is that of the goal's fact.
    fn put_goal(&self, g: u32, out: &mut [u8]) -> usize
        requires goal { (g < self.now.printer.counts.goals) × Stated self.now.printer.index.formulas self.now.printer.index.numbers.now self.now.printer.counts }
        ensures { Prints out.old (goal_line (records_in self.now.printer.index.formulas self.now.printer.index.numbers.now) g (get_or (goals_in self.now.printer.counts.goals self.now.printer.index.numbers.now) g no_record)) out.new result }
    {
        let goal = self.printer.index.goal_at(g as usize);
        let mut w = Writer::new(out);
        lines::goal_heading(g, goal.first, &mut w);
        self.printer.put_statement(goal.second, &mut w);
        w.text(b"\n");
        w.at
    }
}

// The next piece of the steps of a derivation, by the numbers of an index. The lengths of the texts are measured only where there is a step to
// print.
fn explain_in(
    numbers: &[u64],
    n: Counts,
    derivation: &[u8],
    from: usize,
    buffer: &mut [u8],
) -> Result<Option<Piece>, Refusal>
    requires { IsIndex n.formulas numbers.now n }
    ensures { (told_listed result ≡ part_told (steps_among (records_in n.formulas numbers.now) derivation.now from (length buffer.old) (behind_steps from derivation.now)))
        × (buffer.new ≡ with_part (steps_among (records_in n.formulas numbers.now) derivation.now from (length buffer.old) (behind_steps from derivation.now)) buffer.old) }
{
    let start = steps::start_of(derivation, from);
    if derivation.len() <= start {
        return Ok(None);
    }
    let index = Index {
        numbers,
        formulas: n.formulas,
    };
    if let Some(cause) = unreadable_at(&index, derivation, start) {
        return Err(cause.at(from));
    }
    let printer = ForOwner::new(numbers, n);
    let mut line = [0u8; 4160];
    let done = printer.put_steps(derivation, start, from, &mut line, buffer);
    if done.bytes == 0 {
        return Err(Cause::ShortBuffer.at(0));
    }
    Ok(Some(done))
}

// The line of a goal, where it is there and fits.
fn goal_line_in(numbers: &[u64], n: Counts, goal: u32, buffer: &mut [u8]) -> Result<usize, Refusal>
    requires index { IsIndex n.formulas numbers.now n }
    requires stated { Stated n.formulas numbers.now n }
    ensures { (told result ≡ length_told (goal_line_among (records_in n.formulas numbers.now) (goals_in n.goals numbers.now) goal (length buffer.old)))
        × (buffer.new ≡ at_front (goal_line_among (records_in n.formulas numbers.now) (goals_in n.goals numbers.now) goal (length buffer.old)) buffer.old) }
{
    if n.goals <= goal as usize {
        return Err(Cause::NoSuchGoal.at(goal as usize));
    }
    let printer = ForOwner::new(numbers, n);
    let mut line = [0u8; 4160];
    let k = printer.put_goal(goal, &mut line);
    if buffer.len() < k {
        return Err(Cause::ShortBuffer.at(0));
    }
    put_front(buffer, 0, &line, k);
    Ok(k)
}

// The next piece of the steps of a derivation, in lines: as many whole lines, from step number `from` on, as fit into the buffer. They
// stand at its front then, and the rest of it stays. Begin with 0, and go on from the number answered until it is over (None). Refused are
// a book that is not accepted, a step `from` whose kind is unknown or that is cut (16) or whose fact is malformed (17), and a buffer too
// short for the next line (14; 4,160 bytes are always enough); a refusal changes nothing. Nobody looks whether a step follows, nor at the
// steps before `from`: one whose kind is unknown counts there as eight bytes.
pub fn explain(
    book: &[u8],
    derivation: &[u8],
    from: usize,
    buffer: &mut [u8],
) -> Result<Option<Piece>, Refusal>
    ensures { (told_listed result ≡ steps_told book.now derivation.now from buffer.old) × (buffer.new ≡ steps_printed book.now derivation.now from buffer.old) }
{
    let mut table = [0u64; format::INDEX_SIZE];
    let counts = book::index(book, &mut table)?;
    explain_in(&table, counts, derivation, from, buffer)
}

// The line of a goal: its number, the message after which it is asked, and its fact. It stands at the front of the buffer then, and the
// rest of the buffer stays as it was. Refused are a book that is not accepted, a goal that is not there (13), and a buffer too short for
// the line (14; 4,160 bytes are always enough); a refusal changes nothing.
pub fn goal_line(book: &[u8], goal: u32, buffer: &mut [u8]) -> Result<usize, Refusal>
    ensures { (told result ≡ goal_told book.now goal buffer.old) × (buffer.new ≡ goal_in book.now goal buffer.old) }
{
    let mut table = [0u64; format::INDEX_SIZE];
    let counts = book::index(book, &mut table)?;
    goal_line_in(&table, counts, goal, buffer)
}
