// The rules of each formula record for all principals at once: definitions and theorems. The only code looks into the table of instances: rows of
// four words with a bit for each record. A book without kind 17 has an empty table.
#![tactic(auto)]

ghost use Rattle.std.specs.Prelude.{◌≡◌};
ghost use Rattle.rules.specs.Rules.{word_in, row_has, IsNext};

// The word of row y that has the bit of record x.
fn word_in(rows: &[u64], y: u16, x: u8) -> u64
    ensures { result ≡ word_in rows.now y x }
{
    let at = usize::from(y) * 4 + usize::from(x) / 64;
    rows.get(at).copied().unwrap_or(0)
}

// Whether record x is in row y.
pub fn row_has(rows: &[u64], y: u16, x: u8) -> bool
    ensures { result ≡ row_has rows.now y x }
{
    (word_in(rows, y, x) >> (x % 64)) % 2 == 1
}

// The least that the rest of a word is where it has a bit.
const LEAST: u64 = 1;

// Where to look next in row y behind x: at the next record of the word that is in the row, or at the next word where the rest of the word has no
// bit. What is passed over is not in the row. It is a place to look at and no element, so a walk along a row is a `while` over places, up to 256.
pub fn next_in(rows: &[u64], y: u16, x: u8) -> usize
    ensures { IsNext rows.now y x result }
{
    let at = usize::from(x);
    let rest = word_in(rows, y, x) >> (x % 64) >> 1;
    if rest < LEAST {
        return at / 64 * 64 + 64;
    }
    at + 1 + u64::trailing_zeros(rest) as usize
}
