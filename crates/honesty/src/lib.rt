// Honest senders: for each message the formulas that its sender has put into a section of his own and does not believe.
#![tactic(auto)]

ghost use Rattle.logic.specs.Refusal.{told};
ghost use Rattle.logic.specs.Honesty.{Reported as IsReported};

use logic::Refusal;

// The report of a book: for each message the formulas that its sender has to believe before it and does not, as pairs of message number and
// formula number, two bytes each, in this order. It stands at the front of the buffer then, and the rest of the buffer stays as it was.
// Refused are a book that is not accepted, and a buffer shorter than the report (14); a refusal changes nothing. The survey and the pairs
// are made in tables of the function's own, which have room for those of every book: so nothing is written before the length is known, and
// the survey of a book that was read is not refused.
pub fn honesty(book: &[u8], report: &mut [u8]) -> Result<usize, Refusal>
    ensures { IsReported book.now report.old report.new (told result) }
{
    let mut numbers = [0u64; format::INDEX_SIZE];
    let n = book::index(book, &mut numbers)?;
    let mut table = [0u8; 38912];
    let _ = search::survey(book, &mut table);
    let mut pairs = [0u8; 16384];
    let k = reports::report(
        &numbers,
        n.formulas as u16,
        n.messages as u16,
        &table,
        &mut pairs,
    );
    digits::hand_over(&pairs[..k], report)
}
