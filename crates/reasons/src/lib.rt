// A refusal in words: the sentence of each number of document 01, "What is turned away", and of document 02, and what its place is the
// number of.
#![tactic(auto)]

ghost use Rattle.std.specs.Prelude.{◌≡◌, ◌≤◌, length};
ghost use Rattle.logic.specs.Reason.{reason_of, reason_told, reason_in};
ghost use Rattle.logic.specs.Refusal.{told};

use logic::Refusal;

// What the place of a refusal is the number of: a record, a goal or a step. Nothing where the place is always 0. The two ranges of records
// are two arms: of one arm `1..=12 | 22..=23` the proof did not close.
#[tactic(auto, unfolding(logic::specs::Reason::reason_of, logic::specs::Reason::reasons))]
pub fn unit(number: u32) -> &'static [u8]
    ensures { (result.now ≡ (reason_of number).unit) × (length result.now ≤ 6) }
{
    match number {
        1..=12 => b"record",
        13 => b"goal",
        16..=21 => b"step",
        22..=23 => b"record",
        _ => b"",
    }
}

// The sentence of a refusal; nothing for a number that is no refusal's.
#[tactic(auto, unfolding(logic::specs::Reason::reason_of, logic::specs::Reason::reasons))]
pub fn sentence(number: u32) -> &'static [u8]
    ensures { (result.now ≡ (reason_of number).sentence) × (length result.now ≤ 80) }
{
    match number {
        1 => b"an unknown kind byte",
        2 => b"a body that is not of its kind's length",
        3 => b"an assumption behind a message or a goal, or a message behind a goal",
        4 => b"a reference that is not to an earlier formula",
        5 => b"a reference of the wrong sort",
        6 => b"two principals whose names are equal or falling",
        7 => b"a sender that is the receiver",
        8 => b"a formula that is there already",
        9 => b"one more than the limit of its kind",
        10 => b"an assumption or a goal that is not of kind 12 or 13",
        11 => b"a goal after a message that is not there",
        12 => b"no space for it, or a used length above the buffer's",
        13 => b"there is no such goal",
        14 => b"a buffer that is too short",
        15 => b"a text above 4,096 bytes or above its buffer",
        16 => b"an unknown kind of step, or a step that is cut",
        17 => b"a malformed fact",
        18 => b"a premise that is not an earlier step",
        19 => b"it does not follow",
        20 => b"the steps end here, and the last one is not the goal",
        21 => b"a step numbered 65,535 or above",
        22 => b"an assumption, a message or a goal with a variable outside every kind 17",
        23 => b"a kind 17 that holds another kind 17 or another variable",
        _ => b"",
    }
}

// The sentence of a refusal's number at the front of a buffer, the rest of which stays as it was. A number that is no refusal's has the
// empty sentence. A buffer shorter than the sentence is refused (14 at 0), and nothing is changed then.
pub fn reason(number: u32, buffer: &mut [u8]) -> Result<usize, Refusal>
    ensures { (told result ≡ reason_told number buffer.old) × (buffer.new ≡ reason_in number buffer.old) }
{
    digits::hand_over(sentence(number), buffer)
}
