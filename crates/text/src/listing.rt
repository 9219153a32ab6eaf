// The listing of a book in pieces, from the table that a survey of it filled: a line for each place that holds a fact, then how
// many facts are held, then how many goals are reached. Each goal's fact is looked up in the table; nothing is searched again.
ghost use Rattle.std.specs.Prelude.{◌≡◌, ◌∷◌, [], ◌++◌, ◌+◌, ◌-◌, ◌<◌, ◌≤◌, length, take};
ghost use Rattle.std.proofs.lemmas.List.Edits.{sets};
ghost use Rattle.format.specs.Index.{look_in};
ghost use Rattle.logic.specs.Text.{ascii, decimal};
ghost use Rattle.logic.specs.Listing.{printed, place_line, line_at, part_among, part_told, with_part, listing_told, listing_in};
ghost use Rattle.written.specs.Stated.{records_in};
ghost use Rattle.text.specs.Told.{told_listed};
ghost use Rattle.text.specs.Printing.{fact_text_in};
ghost use Rattle.text.specs.Lines.{IsIndex, Named, Prints, LinesIn, places_of};
ghost use Rattle.places.specs.Places.{goals_in};

use crate::{Piece, Printer};
use digits::Writer;
use logic::{Audience, Cause, Counts, Refusal};
use written::Numbers;

// The first k bytes of a line, at a place of the buffer.
pub(crate) fn put_front(buffer: &mut [u8], at: usize, line: &[u8], k: usize)
    requires { k ≤ length line.now }
    ensures { buffer.new ≡ sets buffer.old at (take k line.now) }
{
    digits::put_text(buffer, at, &line[..k]);
}

// A listing: what prints its texts, the principals by rank, the table of a survey, and F, the number of places. The table has a byte for
// each place.
#[derive(Clone, Copy)]
struct Listing<'a> {
    printer: Printer<'a>,
    names: [u16; 8],
    table: &'a [u8],
    size: usize,
    ghost named: { Named (records_in printer.index.formulas printer.index.numbers.now) names },
    ghost sized: { size ≡ places_of printer.index.formulas printer.counts.principals },
    ghost long: { size ≤ length table.now },
}

impl Listing<'_> {
    // The line of place i, which holds v: each formula of each principal has 3 + 2 × p places. A fact that may not be written has none.
    fn put_place(&self, i: usize, v: u8, out: &mut [u8]) -> usize
        requires below { (i < self.now.size) × (1 ≤ v) }
        ensures { Prints out.old (place_line self.now.printer.audience (records_in self.now.printer.index.formulas self.now.printer.index.numbers.now) i v) out.new result }
    {
        let f = self.printer.index.formulas;
        let p = self.printer.counts.principals;
        let width = 3 + 2 * p;
        let m = i % width;
        let n = Numbers {
            mode: places::mode_of(p, m),
            p: places::of_rank(&self.names, i / width / f),
            q: places::other_of(&self.names, p, m),
            x: (i / width % f) as u16,
        };
        if !written::is_stated(&self.printer.index, n) {
            return 0;
        }
        self.printer.put_held(n, v, out)
    }

    // The line of place i, or nothing where it holds 0.
    fn put_place_line(&self, i: usize, out: &mut [u8]) -> usize
        requires below { i < self.now.size }
        ensures { Prints out.old (line_at self.now.printer.audience (records_in self.now.printer.index.formulas self.now.printer.index.numbers.now) (goals_in self.now.printer.counts.goals self.now.printer.index.numbers.now) self.now.table.now i) out.new result }
    {
        let v = self.table[i];
        if v == 0 {
            return 0;
        }
        self.put_place(i, v, out)
    }

    // The line with number i, at the front of a buffer with room for any line. How many bytes it has.
    fn put_line(&self, i: usize, out: &mut [u8]) -> usize
        ensures { Prints out.old (line_at self.now.printer.audience (records_in self.now.printer.index.formulas self.now.printer.index.numbers.now) (goals_in self.now.printer.counts.goals self.now.printer.index.numbers.now) self.now.table.now i) out.new result }
    {
        if i < self.size {
            return self.put_place_line(i, out);
        }
        if i == self.size {
            return lines::held_line(places::count_held(self.table, self.size), out);
        }
        let index = self.printer.index;
        let goals = self.printer.counts.goals;
        let reached = places::count_reached(
            index.numbers,
            index.formulas as u16,
            goals as u16,
            self.table,
        );
        lines::goals_line(reached, goals as u32, out)
    }

    // As many whole lines from number `from` on as fit into the buffer, each made in `line` first.
    fn put_lines(&self, from: usize, line: &mut [u8], buffer: &mut [u8]) -> Piece
        requires places { (self.now.size ≤ 38912) × (from ≤ self.now.size + 2) }
        requires room { 4160 ≤ length line.old }
        ensures { LinesIn (line_at self.now.printer.audience (records_in self.now.printer.index.formulas self.now.printer.index.numbers.now) (goals_in self.now.printer.counts.goals self.now.printer.index.numbers.now) self.now.table.now) (self.now.size + 2) from buffer.old buffer.new result.bytes result.next }
    {
        let mut at: usize = 0;
        for i in from..self.size + 2 {
            let k = self.put_line(i, line);
            if buffer.len() - at < k {
                return Piece { bytes: at, next: i };
            }
            digits::put_text(buffer, at, &line[..k]);
            at += k;
        }
        Piece {
            bytes: at,
            next: self.size + 2,
        }
    }
}

impl Printer<'_> {
    // The line of a fact that is held: the first message number, a space, and the text.
    fn put_held(&self, n: Numbers, v: u8, out: &mut [u8]) -> usize
        requires inside { (n.x < self.now.index.formulas) × (1 ≤ v) }
        ensures { Prints out.old (decimal (v - 1) ++ ascii " " ++ printed (fact_text_in self.now.audience self.now.index.formulas self.now.index.numbers.now (look_in self.now.index.formulas self.now.index.numbers.now) n.mode n.p n.q n.x) ++ (10 ∷ [])) out.new result }
    {
        let mut w = Writer::new(out);
        w.number(u64::from(v - 1));
        w.text(b" ");
        self.put_printed(n, &mut w);
        w.text(b"\n");
        w.at
    }

    // The formula numbers of the principals, by rank.
    fn names(&self) -> [u16; 8]
        ensures { Named (records_in self.now.index.formulas self.now.index.numbers.now) result }
    {
        let mut names = [0u16; 8];
        let mut r: usize = 0;
        for x in 0..self.index.formulas {
            if self.index.is_principal(x as u16) {
                names[r] = x as u16;
                r += 1;
            }
        }
        names
    }
}

// F, the number of places.
fn count_places(n: Counts) -> usize
    requires { (n.formulas ≤ 256) × (n.principals ≤ 8) }
    ensures { (result ≡ places_of n.formulas n.principals) × (result ≤ 38912) }
{
    n.principals * n.formulas * (3 + 2 * n.principals)
}

// The next piece of the listing, by the numbers of an index. The lengths of the texts are measured only where there is a line to print.
fn list_in(
    audience: Audience,
    numbers: &[u64],
    n: Counts,
    table: &[u8],
    from: usize,
    buffer: &mut [u8],
) -> Result<Option<Piece>, Refusal>
    requires { IsIndex n.formulas numbers.now n }
    ensures { (told_listed result ≡ part_told (part_among audience (records_in n.formulas numbers.now) (goals_in n.goals numbers.now) table.now from (length buffer.old)))
        × (buffer.new ≡ with_part (part_among audience (records_in n.formulas numbers.now) (goals_in n.goals numbers.now) table.now from (length buffer.old)) buffer.old) }
{
    let size = count_places(n);
    if table.len() < size {
        return Err(Cause::ShortBuffer.at(0));
    }
    if size + 2 <= from {
        return Ok(None);
    }
    let printer = Printer::new(audience, numbers, n);
    let listing = Listing {
        printer,
        names: printer.names(),
        table,
        size,
    };
    let mut line = [0u8; 4160];
    let done = listing.put_lines(from, &mut line, buffer);
    if done.bytes == 0 {
        return Err(Cause::ShortBuffer.at(0));
    }
    Ok(Some(done))
}

// The next piece of the listing of a book for an audience, from the table that a survey of it filled: as many whole lines, from number
// `from` on, as fit into the buffer. They stand at its front then, and the rest of it stays. Begin with 0, and go on from the number
// answered until it is over (None). The lines are those of the places, then `held` and `goals`. Refused are a book that is not accepted, a
// table of less than F bytes, and a buffer too short for the next line (14; 4,160 bytes are always enough); a refusal changes nothing.
pub fn list(
    audience: Audience,
    book: &[u8],
    table: &[u8],
    from: usize,
    buffer: &mut [u8],
) -> Result<Option<Piece>, Refusal>
    ensures { (told_listed result ≡ listing_told audience book.now table.now from buffer.old) × (buffer.new ≡ listing_in audience book.now table.now from buffer.old) }
{
    let mut numbers = [0u64; format::INDEX_SIZE];
    let counts = book::index(book, &mut numbers)?;
    list_in(audience, &numbers, counts, table, from, buffer)
}
