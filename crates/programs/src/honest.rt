// What senders say and do not believe, message by message, as the program `honest` prints it.
use crate::{Reader, Told};

impl Reader<'_> {
    // Writes the line of a formula that the sender of a message does not believe.
    fn tell_disbelief(&self, message: u16, formula: u16) -> Told<()> {
        let mut buffer = [0u8; 4160];
        let n = text::disbelief_line(self.book, message, formula, &mut buffer).map_err(
            |f| self.refused(f),
        )?;
        self.streams.put(&buffer[..n])
    }

    // Writes a line for each pair of a report, four bytes a pair; it stops at the first write that fails.
    fn tell_pairs(&self, report: &[u8]) -> Told<()> {
        for pair in report.chunks_exact(4) {
            let message = format::word(pair, 0);
            let formula = format::word(pair, 2);
            self.tell_disbelief(message, formula)?;
        }
        Ok(())
    }

    // Writes what a report names, or that each sender believes what he says.
    fn tell_report(&self, report: &[u8]) -> Told<()> {
        if report.is_empty() {
            return self.streams.put_line(lines::honest_line);
        }
        self.tell_pairs(report)
    }

    // The buffer has room for the report of every book: 16 messages, and 256 formulas for each.
    pub(crate) fn report_book(&self) -> Told<()> {
        let mut report = [0u8; 16384];
        let n = honesty::honesty(self.book, &mut report).map_err(|f| self.refused(f))?;
        self.tell_report(&report[..n])
    }
}
