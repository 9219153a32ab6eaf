// What was answered, how many bytes of the buffer are as they were, and the bytes that were written.
use logic::Refusal;
use std::io;
use std::io::Write;

pub(crate) const BUFFER_SIZE: usize = 8400;

// No text that is written has the mark in it.
pub(crate) const MARK: u8 = b'~';

// The rest of a buffer of which the first n bytes were written, and then these.
pub(crate) fn rest(out: &mut impl Write, buffer: &[u8], n: usize) -> io::Result<()> {
    if let (Some(text), Some(behind)) = (buffer.get(..n), buffer.get(n..)) {
        writeln!(out, ", {} bytes as they were", cases::count(behind, MARK))?;
        out.write_all(text)?;
    }
    Ok(())
}

pub(crate) fn refusal(out: &mut impl Write, f: Refusal, buffer: &[u8]) -> io::Result<()> {
    cases::refused(out, f)?;
    rest(out, buffer, 0)
}

// Has a text written into the first `size` bytes of a buffer. Behind a text that is written stands its end, which it does not have itself.
pub(crate) fn text<F: FnOnce(&mut [u8]) -> Result<usize, Refusal>>(
    out: &mut impl Write,
    size: u32,
    end: &[u8],
    write: F,
) -> io::Result<()>
    requires { F.IsAlwaysCallable write }
{
    let mut buffer = [MARK; BUFFER_SIZE];
    let Some(part) = buffer.get_mut(..size as usize) else {
        return Ok(());
    };
    match write(part) {
        Ok(n) => {
            write!(out, "written {n}")?;
            rest(out, &buffer, n)?;
            out.write_all(end)
        }
        Err(f) => refusal(out, f, &buffer),
    }
}

// Has a line written into the first `size` bytes of a buffer: as much of it as has a place there, and a line feed where it is cut.
pub(crate) fn line<F: FnOnce(&mut [u8]) -> usize>(
    out: &mut impl Write,
    size: u32,
    write: F,
) -> io::Result<()>
    requires { F.IsAlwaysCallable write }
{
    let size = size as usize;
    let mut buffer = [MARK; BUFFER_SIZE];
    let Some(part) = buffer.get_mut(..size) else {
        return Ok(());
    };
    let n = write(part);
    write!(out, "line of {n}")?;
    rest(out, &buffer, n.min(size))?;
    if size < n {
        out.write_all(b"\n")?;
    }
    Ok(())
}
