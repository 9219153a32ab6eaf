// The stamps of a turn of the survey: each fact that is held now and was not held before gets one, in a table of bytes. Only bits that
// are set are looked at.
#![tactic(auto)]

ghost use Rattle.std.specs.Prelude.{◌≡◌, ◌+◌, ◌*◌, ◌/◌, ◌%◌, ◌^◌, ◌<◌, ◌≤◌, get_or};
ghost use Rattle.stamps.specs.Stamps.{stamped, stamp_at, place_of, IsLowest, stamp_bits, fresh, part, state, stamp_part, stamp_record, stamp_upto, stamp_new};
ghost use Rattle.stamps.specs.Stamped.{state_of, SameTable};

// The lowest bit of a word that is not 0.
fn low_bit(w: u64) -> u32
    requires { 0 < w }
    ensures { (result < 64) × IsLowest w result }
{
    u64::trailing_zeros(w)
}

// The bits of a word that were not set before.
fn new_bits(new: u64, old: u64) -> u64
    ensures { result ≡ fresh new old }
{
    new ^ (new & old)
}

// What is stamped in a turn: what is held now, the stamp of each rank, how many places the block of a principal has, and how many principals
// there are. With at most 256 formulas and 8 principals no place and no count is too large for its type.
#[derive(Clone, Copy)]
struct Turn<'a> {
    words: &'a [u64; 1024],
    stamps: &'a [u8; 8],
    stride: u16,
    ranks: u8,
    ghost few: { (stride ≤ 4864) × (ranks ≤ 8) },
}

// A stamp at a place. What has no place in the table is not written. How many bytes are written then, with `count` before. Here and in the two
// functions below the count is handed on: kept in the struct it is read and written in memory for each bit, which makes a survey of a dense book
// four per cent slower, and of one with many turns eight.
fn put_stamp(table: &mut [u8], place: usize, stamp: u8, count: usize) -> usize
    requires { count < 65536 }
    ensures { stamped table.new result ≡ stamp_at place stamp (stamped table.old count) }
{
    if place < table.len() {
        table[place] = stamp;
        return count + 1;
    }
    count
}

// The stamp of a bit that is set: that of its rank, in the block of its principal.
fn stamp_bit(turn: &Turn, at: u16, bit: u32, table: &mut [u8], count: usize) -> usize
    requires { count < 65536 }
    ensures { stamped table.new result ≡ stamp_at (place_of turn.now.stride at bit) (get_or turn.now.stamps.now (bit % 8) 0) (stamped table.old count) }
{
    let rank = (bit % 8) as usize;
    let place = rank * usize::from(turn.stride) + (usize::from(at) + (bit / 8) as usize);
    put_stamp(table, place, turn.stamps[rank], count)
}

// The bits of a word, from the lowest up.
fn stamp_bits(turn: &Turn, at: u16, bits: u64, table: &mut [u8], count: usize) -> usize
    requires { count ≤ 49152 }
    ensures { stamped table.new result ≡ stamp_bits turn.now.stamps.now turn.now.stride at 64 bits (stamped table.old count) }
{
    let mut rest = bits;
    let mut written = count;
    // Each turn takes the lowest bit away: from bit to bit, and no range.
    while rest != 0 {
        written = stamp_bit(turn, at, low_bit(rest), table, written);
        rest &= rest - 1;
    }
    written
}

// What was held when stamps were given last, the table of stamps, and how many of its bytes were written in this turn.
#[derive(Drop)]
pub struct Stamped<'a> {
    pub before: [u64; 768],
    pub table: &'a mut [u8],
    pub count: usize,
}

impl<'a> Stamped<'a> {
    // The new facts of a part of a formula's facts; most words are as they were.
    fn stamp_part(&mut self, turn: &Turn, i: usize, low: u32, at: u16)
        requires { (i < 768) × (low < 64) × (self.old.count ≤ 49152) }
        ensures table { SameTable self.old self.new }
        ensures state { state_of self.new ≡ stamp_part turn.now.words.now turn.now.stamps.now turn.now.stride (part i low at) (state_of self.old) }
    {
        let new = turn.words[i];
        let old = self.before[i];
        if new == old {
            return;
        }
        self.before[i] = new;
        let bits = new_bits(new, old) >> low;
        self.count = stamp_bits(turn, at, bits, self.table, self.count);
    }

    // The new facts about formula x.
    fn stamp_record(&mut self, turn: &Turn, x: u8)
        requires { self.old.count ≤ x * 192 }
        ensures table { SameTable self.old self.new }
        ensures state { state_of self.new ≡ stamp_record turn.now.words.now turn.now.stamps.now turn.now.stride turn.now.ranks x (state_of self.old) }
    {
        let i = usize::from(x);
        let ranks = u16::from(turn.ranks);
        let at = u16::from(x) * (3 + 2 * ranks);
        self.stamp_part(turn, i, 40, at);
        self.stamp_part(turn, 256 + i, 0, at + 3);
        self.stamp_part(turn, 512 + i, 0, at + (3 + ranks));
    }

    // The new facts about the first n formulas.
    fn stamp_upto(&mut self, turn: &Turn, n: usize)
        requires { (n ≤ 256) × (self.old.count ≡ 0) }
        ensures table { SameTable self.old self.new }
        ensures state { state_of self.new ≡ stamp_upto turn.now.words.now turn.now.stamps.now turn.now.stride turn.now.ranks n (state_of self.old) }
    {
        for x in 0..n {
            self.stamp_record(turn, x as u8);
        }
    }

    // The new facts about n formulas, with p principals: what `words` holds and `before` does not gets the stamp of its principal, at its
    // place in the table; and `before` is then as `words`. `count` is then how many bytes were written. Of more than 256 formulas or 8
    // principals, which no book has, nothing is stamped.
    pub fn stamp_new(&mut self, words: &[u64; 1024], n: usize, p: u8, stamps: &[u8; 8])
        ensures table { SameTable self.old self.new }
        ensures state { state_of self.new ≡ stamp_new words.now stamps.now n p (state self.old.before self.old.table.now 0) }
    {
        self.count = 0;
        if n > 256 || p > 8 {
            return;
        }
        let turn = Turn {
            words,
            stamps,
            ranks: p,
            stride: (n as u16) * (3 + 2 * u16::from(p)),
        };
        self.stamp_upto(&turn, n);
    }
}
