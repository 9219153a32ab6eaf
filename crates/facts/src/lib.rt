// A fact of a principal, and an instance of a rule: the types, and the names of the numbers in them. What they mean is in specs/. The only code
// puts a record into a row of a table.
#![tactic(auto)]

ghost use Rattle.std.specs.Prelude.{◌≡◌};
ghost use Rattle.facts.specs.Facts.{with_record};

// A fact of the principal: a formula record and a bit of its word, by the names of bits below.
#[derive(Clone, Copy)]
pub struct Cell {
    pub formula: u8,
    pub bit: u8,
}

// An instance of a rule: where `first` and `second` are held, so is `gives`. Its kind is the step kind of the rule, by the names below. A rule
// with one premise has it twice. Kinds 64 and 65 ask for nothing: they give an assumption or a message, whose number stands
// in the place of the first premise's formula. The kind is the byte that document 01 names for a step, and no enum: it is written to the log
// and to the derivation as it stands, and that of a rule for the second part is one more than that for the first.
#[derive(Clone, Copy)]
pub struct Instance {
    pub kind: u8,
    pub first: Cell,
    pub second: Cell,
    pub gives: Cell,
}

// The bits of a formula's word, as numbers: a rank is added to two of them, and they are written to the log. The principal sees it; believes it; believes it fresh; believes that the principal of rank j said it, bit
// SAID + j; believes that the principal of rank j believes it, bit BELIEVED + j.
pub const SEES: u8 = 0;

pub const BELIEVES: u8 = 1;

pub const FRESH: u8 = 2;

pub const SAID: u8 = 3;

pub const BELIEVED: u8 = 11;

// The step kinds of what is given: an assumption, a message.
pub const ASSUMED: u8 = 64;

pub const DELIVERED: u8 = 65;

// The step kinds of the rules, 65 + the rule's number: 1 to 20 are document 01's, 21 and 22 those of wish 4 of document 02.
pub const RULE_1: u8 = 66;

pub const RULE_2: u8 = 67;

pub const RULE_3: u8 = 68;

pub const RULE_4: u8 = 69;

pub const RULE_5: u8 = 70;

pub const RULE_6: u8 = 71;

pub const RULE_7: u8 = 72;

pub const RULE_8: u8 = 73;

pub const RULE_9: u8 = 74;

pub const RULE_10: u8 = 75;

pub const RULE_11: u8 = 76;

pub const RULE_12: u8 = 77;

pub const RULE_13: u8 = 78;

pub const RULE_14: u8 = 79;

pub const RULE_15: u8 = 80;

pub const RULE_16: u8 = 81;

pub const RULE_17: u8 = 82;

pub const RULE_18: u8 = 83;

pub const RULE_19: u8 = 84;

pub const RULE_20: u8 = 85;

pub const RULE_21: u8 = 86;

pub const RULE_22: u8 = 87;

// The kinds of formula record that the engine asks for.
pub const PRINCIPAL: u8 = 1;

pub const CONJUNCTION: u8 = 4;

pub const ENCRYPTED: u8 = 5;

pub const SIGNED: u8 = 6;

pub const COMBINATION: u8 = 7;

pub const SHARED_KEY: u8 = 8;

pub const PUBLIC_KEY: u8 = 9;

pub const SHARED_SECRET: u8 = 10;

pub const FRESHNESS: u8 = 11;

pub const BELIEF: u8 = 12;

pub const CONTROLS: u8 = 15;

pub const DELEGATION: u8 = 17;

// A formula record has eight parts in the flat book: its kind, its three references, whether it is clear, the rank of a principal, and where the
// belief in it is kept once opened.
pub const PARTS: usize = 8;

pub const KIND: usize = 0;

pub const FIRST: usize = 1;

pub const SECOND: usize = 2;

pub const THIRD: usize = 3;

pub const CLEAR: usize = 4;

pub const RANK: usize = 5;

pub const OPENED_FORMULA: usize = 6;

pub const OPENED_BIT: usize = 7;

// All principals as a set of ranks, and how many ranks there are.
pub const EVERYONE: u8 = 255;

pub const RANKS: u8 = 8;

// Where the words of all principals begin of what each of them said, and of what each believes.
pub const SAID_FROM: usize = 256;

pub const BELIEVED_FROM: usize = 512;

// Where the statements before each statement begin in the links: two tables in one, as the definitions `last_about` and `before` have it.
pub const BEFORE_FROM: usize = 256;

// Record x in row y of a table with four words to a row, a bit for each record. A row that the table does not have is left out.
pub fn add_to_row(rows: &mut [u64], y: u16, x: u8)
    ensures { rows.new ≡ with_record rows.old y x }
{
    let at = usize::from(y) * 4 + usize::from(x) / 64;
    if at < rows.len() {
        rows[at] |= 1 << (x % 64);
    }
}
