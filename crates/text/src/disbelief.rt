// The line of a formula that the sender of a message does not believe. Whether he does is the report's to say: a line is made for any
// message and any formula of a book.
ghost use Rattle.std.specs.Prelude.{◌≡◌, ◌||◌, ◌<◌, ◌≤◌, length, leb, ltb};
ghost use Rattle.logic.specs.Refusal.{told};
ghost use Rattle.logic.specs.Text.{length_told, at_front};
ghost use Rattle.logic.specs.Honesty.{disbelief_line, disbelief_among, disbelief_told, disbelief_in};
ghost use Rattle.written.specs.Stated.{records_in};
ghost use Rattle.text.specs.Lines.{IsIndex, Prints, messages_in};

use crate::ForOwner;
use crate::listing::put_front;
use digits::Writer;
use logic::{Cause, Counts, Refusal};

impl ForOwner<'_> {
    // The line of a pair: the message's number, its sender by name, and the formula.
    fn put_disbelief(&self, message: u16, formula: u16, out: &mut [u8]) -> usize
        requires pair { (1 ≤ message) × (message ≤ self.now.printer.counts.messages) × (formula < self.now.printer.index.formulas) }
        ensures { Prints out.old (disbelief_line (records_in self.now.printer.index.formulas self.now.printer.index.numbers.now) (messages_in self.now.printer.counts.messages self.now.printer.index.numbers.now) message formula) out.new result }
    {
        let sent = self.printer.index.message_at(usize::from(message));
        let name = self.printer.index.name_at(sent.first);
        let mut w = Writer::new(out);
        lines::disbelief_heading(message, name, &mut w);
        self.printer.put_statement(formula, &mut w);
        w.text(b"\n");
        w.at
    }
}

// Whether there is no such message or no such formula. Messages count from 1.
fn is_no_pair(n: Counts, message: u16, formula: u16) -> bool
    ensures { result ≡ (ltb message 1 || (ltb n.messages message || leb n.formulas formula)) }
{
    message < 1 || n.messages < usize::from(message) || n.formulas <= usize::from(formula)
}

// The line of a pair, where it is there and fits.
fn disbelief_line_in(
    numbers: &[u64],
    n: Counts,
    message: u16,
    formula: u16,
    buffer: &mut [u8],
) -> Result<usize, Refusal>
    requires index { IsIndex n.formulas numbers.now n }
    requires messages { n.messages ≤ 16 }
    ensures { (told result ≡ length_told (disbelief_among (records_in n.formulas numbers.now) (messages_in n.messages numbers.now) message formula (length buffer.old)))
        × (buffer.new ≡ at_front (disbelief_among (records_in n.formulas numbers.now) (messages_in n.messages numbers.now) message formula (length buffer.old)) buffer.old) }
{
    if is_no_pair(n, message, formula) {
        return Err(Cause::MalformedFact.at(0));
    }
    let printer = ForOwner::new(numbers, n);
    let mut line = [0u8; 4160];
    let k = printer.put_disbelief(message, formula, &mut line);
    if buffer.len() < k {
        return Err(Cause::ShortBuffer.at(0));
    }
    put_front(buffer, 0, &line, k);
    Ok(k)
}

// The line of a formula that the sender of a message does not believe: the message's number, his name, and the formula. It stands at
// the front of the buffer then, and the rest of the buffer stays as it was. Refused are a book that is not accepted, a message or a
// formula that is not there (17), and a buffer too short for the line (14; 4,160 bytes are always enough); a refusal changes nothing.
// Nobody looks whether he believes the formula.
pub fn disbelief_line(
    book: &[u8],
    message: u16,
    formula: u16,
    buffer: &mut [u8],
) -> Result<usize, Refusal>
    ensures { (told result ≡ disbelief_told book.now message formula buffer.old) × (buffer.new ≡ disbelief_in book.now message formula buffer.old) }
{
    let mut table = [0u64; format::INDEX_SIZE];
    let counts = book::index(book, &mut table)?;
    disbelief_line_in(&table, counts, message, formula, buffer)
}
