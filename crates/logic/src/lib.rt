// The types that contracts of several crates name. There is little code here: this crate's specs/ say what a book is and what the
// rules are, its proofs/ hold the theorems about them.
#![tactic(auto)]

ghost use Rattle.std.specs.Prelude.{◌≡◌};
ghost use Rattle.logic.specs.Refusal.{number_of};

// Why something is turned away: a case for each row of document 01, "What is turned away", and for refusals 22 and 23 of document 02.
#[derive(Clone, Copy, PartialEq, Eq)]
pub enum Cause {
    UnknownKind,
    WrongLength,
    OutOfOrder,
    DanglingReference,
    WrongSort,
    NamesNotRising,
    SenderIsReceiver,
    RepeatedFormula,
    OverLimit,
    NotStatement,
    MessageAfterLast,
    NoSpace,
    NoSuchGoal,
    ShortBuffer,
    LongText,
    BadStepKind,
    MalformedFact,
    PremiseNotEarlier,
    DoesNotFollow,
    NotTheGoal,
    TooManySteps,
    LooseVariable,
    WrongDelegation,
}

impl Cause {
    // The number of this cause in the tables of documents 01 and 02.
    pub fn number(self) -> u8
        ensures { result ≡ number_of self }
    {
        match self {
            Cause::UnknownKind => 1,
            Cause::WrongLength => 2,
            Cause::OutOfOrder => 3,
            Cause::DanglingReference => 4,
            Cause::WrongSort => 5,
            Cause::NamesNotRising => 6,
            Cause::SenderIsReceiver => 7,
            Cause::RepeatedFormula => 8,
            Cause::OverLimit => 9,
            Cause::NotStatement => 10,
            Cause::MessageAfterLast => 11,
            Cause::NoSpace => 12,
            Cause::NoSuchGoal => 13,
            Cause::ShortBuffer => 14,
            Cause::LongText => 15,
            Cause::BadStepKind => 16,
            Cause::MalformedFact => 17,
            Cause::PremiseNotEarlier => 18,
            Cause::DoesNotFollow => 19,
            Cause::NotTheGoal => 20,
            Cause::TooManySteps => 21,
            Cause::LooseVariable => 22,
            Cause::WrongDelegation => 23,
        }
    }

    // The refusal for this cause, at the record, goal or step of that number.
    pub fn at(self, place: usize) -> Refusal
        ensures { result ≡ record { cause = self; place = place } }
    {
        Refusal { cause: self, place }
    }
}

// A refusal: its cause, and the number of the record, goal or step that the table's third column names.
#[derive(Clone, Copy, PartialEq, Eq)]
pub struct Refusal {
    pub cause: Cause,
    pub place: usize,
}

// What a field of a record may hold. `Absent` stands behind the last field of a kind.
#[derive(Clone, Copy, PartialEq, Eq)]
pub enum Sort {
    Absent,
    // a name number
    Name,
    // references to formula records: to a principal, to a key or a variable, to a formula of kinds 3 to 15 or 17
    Principal,
    Key,
    Formula,
    // to a variable, and to a formula of kind 15: the two fields of kind 17
    Variable,
    Control,
    // a reference to a formula of kind 12 or 13
    Statement,
    // a message number
    Message,
}

// The fields of a kind, left to right.
#[derive(Clone, Copy)]
pub struct Body {
    pub first: Sort,
    pub second: Sort,
    pub third: Sort,
}

// A record: its kind and its fields. A field that the kind does not have is 0.
#[derive(Clone, Copy, PartialEq, Eq)]
pub struct Record {
    pub kind: u8,
    pub first: u16,
    pub second: u16,
    pub third: u16,
}

// How many records of each class there are.
#[derive(Clone, Copy)]
pub struct Counts {
    pub formulas: usize,
    pub principals: usize,
    pub assumptions: usize,
    pub messages: usize,
    pub goals: usize,
}

// What comes of entering a record that is not refused: the number of an equal formula, or the number of the record that was appended.
#[derive(Clone, Copy)]
pub enum Entered {
    Present(usize),
    Added(usize),
}

// For whom a text is. Its owner reads the names of data, a guest in their place the numbers of their formulas: document 02, wish 5.
#[derive(Clone, Copy, PartialEq, Eq)]
pub enum Audience {
    Owner,
    Guest,
}
