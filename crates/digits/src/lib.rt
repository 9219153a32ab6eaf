// Bytes and numbers put into a buffer, and the per cent of goals reached. Bytes that have no place in the buffer are not
// written, so that nothing is asked of a caller.
#![tactic(auto)]

mod writer;

ghost use Rattle.std.specs.Prelude.{◌≡◌, ◌+◌, ◌-◌, ◌≤◌, min, length, set};
ghost use Rattle.std.proofs.lemmas.List.Edits.{sets};
ghost use Rattle.logic.specs.Refusal.{told};
ghost use Rattle.logic.specs.Text.{decimal, length_told, at_front};
ghost use Rattle.logic.specs.Reason.{whole};
ghost use Rattle.logic.specs.PerCent.{per_cent};

use logic::{Cause, Refusal};
pub use writer::Writer;

// How many of n bytes have a place in a buffer of `size` bytes, from the place `at` on.
fn fitting(size: usize, at: usize, n: usize) -> usize
    ensures { result ≡ min n (size - at) }
{
    n.min(size.saturating_sub(at))
}

// Copies the n bytes of a text that have a place in the buffer. Not by `copy_from_slice`: `at` may be past the end, where there is no part of
// the buffer to copy to, not even an empty one.
fn copy(out: &mut [u8], at: usize, text: &[u8], n: usize)
    requires { n ≡ min (length text.now) (length out.old - at) }
    ensures { out.new ≡ sets out.old at text.now }
{
    for i in 0..n {
        out[at + i] = text[i];
    }
}

// Puts a text into a buffer from the place `at` on. A text that fits is copied by its own length: for a fixed word this is a
// constant, and its copy a store or two.
pub fn put_text(out: &mut [u8], at: usize, text: &[u8])
    ensures { out.new ≡ sets out.old at text.now }
{
    let n = fitting(out.len(), at, text.len());
    if n < text.len() {
        copy(out, at, text, n);
        return;
    }
    copy(out, at, text, text.len());
}

// A whole text at the front of a buffer, the rest of which stays as it was. A buffer that is shorter is refused (14 at 0) and stays as it was.
pub fn hand_over(text: &[u8], buffer: &mut [u8]) -> Result<usize, Refusal>
    ensures { (told result ≡ length_told (whole (length buffer.old) text.now)) × (buffer.new ≡ at_front (whole (length buffer.old) text.now) buffer.old) }
{
    if buffer.len() < text.len() {
        return Err(Cause::ShortBuffer.at(0));
    }
    put_text(buffer, 0, text);
    Ok(text.len())
}

// Puts a byte at the place i behind `at`.
pub fn put_byte(out: &mut [u8], at: usize, i: usize, byte: u8)
    ensures { out.new ≡ set out.old (at + i) byte }
{
    if out.len().saturating_sub(at) <= i {
        return;
    }
    out[at + i] = byte;
}

// A number in decimal: the digits of its tenth, and its last digit. Answers how many digits it has. Not by `Display`, of which no contract
// says what it writes, nor where.
pub fn put_decimal(out: &mut [u8], at: usize, n: u64) -> usize
    ensures { (out.new ≡ sets out.old at (decimal n)) × (result ≡ length (decimal n)) × (result ≤ 20) }
{
    if n < 10 {
        put_byte(out, at, 0, 48 + n as u8);
        return 1;
    }
    let k = put_decimal(out, at, n / 10);
    put_byte(out, at, k, 48 + (n % 10) as u8);
    k + 1
}

// The goals reached, per cent of the goals there are: to the nearest whole number, at the half to the even one; 0 where there are no
// goals. The half is exact: twice the remainder is compared with the divisor, and no rounded quotient with a half.
pub fn per_cent(reached: u32, goals: u32) -> u64
    ensures { result ≡ per_cent reached goals }
{
    if goals == 0 {
        return 0;
    }
    let dividend = 100 * u64::from(reached);
    let divisor = u64::from(goals);
    let quotient = dividend / divisor;
    let remainder = dividend % divisor;
    if 2 * remainder < divisor {
        return quotient;
    }
    if divisor < 2 * remainder {
        return quotient + 1;
    }
    quotient + quotient % 2
}
