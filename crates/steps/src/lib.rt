// The steps of a derivation as they stand in its bytes: how long each is, and where it starts. For the lines of a derivation; the checker
// has functions of its own.
#![tactic(auto)]

ghost use Rattle.std.specs.Prelude.{◌≡◌, ◌<◌, ◌≤◌, length, drop};
ghost use Rattle.logic.specs.Step.{numbers_in, step_size};
ghost use Rattle.logic.specs.Explained.{behind_step, behind_steps};

// How many numbers a step of this kind has; 0 for a byte that is no kind of step. Two have rules 1 to 5, 9 to 11, 20 and 21.
pub fn numbers_in(kind: u8) -> usize
    ensures { (result ≡ numbers_in kind) × (result ≤ 2) }
{
    match kind {
        64 => 1,
        65 => 1,
        66..=70 | 74..=76 => 2,
        71..=73 | 77..=84 | 87 => 1,
        85..=86 => 2,
        0..=63 | 88..=255 => 0,
    }
}

// The bytes of a step of this kind: its kind, its fact, two for each number.
pub fn size_of(kind: u8) -> usize
    ensures { (result ≡ step_size kind) × (8 ≤ result) × (result ≤ 12) }
{
    8 + 2 * numbers_in(kind)
}

// Where the step behind the one at a place starts: at the end where there is none.
pub fn next(derivation: &[u8], at: usize) -> usize
    ensures { (drop result derivation.now ≡ behind_step (drop at derivation.now)) × (result ≤ length derivation.now) }
{
    let size = derivation.len();
    if size <= at {
        return size;
    }
    let k = size_of(derivation[at]);
    if size - at < k {
        return size;
    }
    at + k
}

// Where step number i starts: at the end where there is none.
pub fn start_of(derivation: &[u8], i: usize) -> usize
    ensures { (drop result derivation.now ≡ behind_steps i derivation.now) × (result ≤ length derivation.now) }
{
    let mut at: usize = 0;
    for n in 0..i {
        if derivation.len() <= at {
            return derivation.len();
        }
        at = next(derivation, at);
    }
    at
}
