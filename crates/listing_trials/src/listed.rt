// The listing of a book in pieces.
use crate::{BUFFER_SIZE, tell_buffer};
use cases::Line;
use logic::Audience;
use std::io;
use std::io::Write;
use text::Piece;

// The table has room for the survey of every book, and eight bytes more.
const TABLE_SIZE: usize = 38920;

// The piece from a line on, in the first bytes of a buffer. The number of the line to go on from, if there is one.
fn piece(
    out: &mut impl Write,
    audience: Audience,
    book: &[u8],
    table: &[u8],
    from: usize,
    size: u32,
) -> io::Result<Option<usize>> {
    let mut buffer = [b'.'; BUFFER_SIZE];
    let Some(part) = buffer.get_mut(..size as usize) else {
        return Ok(None);
    };
    match text::list(audience, book, table, from, part) {
        Ok(Some(Piece { bytes, next })) => {
            write!(out, "piece {bytes} bytes, next {next}")?;
            tell_buffer(out, &buffer, bytes)?;
            Ok(Some(next))
        }
        Ok(None) => {
            write!(out, "over")?;
            tell_buffer(out, &buffer, 0)?;
            Ok(None)
        }
        Err(f) => {
            cases::refused(out, f)?;
            tell_buffer(out, &buffer, 0)?;
            Ok(None)
        }
    }
}

// The pieces that a sign asks for, or less where the listing is over.
fn pieces(
    out: &mut impl Write,
    line: &Line,
    sign: u8,
    book: &[u8],
    table: &[u8],
) -> io::Result<()> {
    let [_, from, size] = line.numbers;
    let audience = match sign {
        b'@' => Audience::Guest,
        _ => Audience::Owner,
    };
    // No listing here has as many as 64.
    let times = match sign {
        b'<' | b'>' | b'@' => 64,
        _ => 1,
    };
    let mut at = from as usize;
    for _ in 0..times {
        let Some(next) = piece(out, audience, book, table, at, size)? else {
            break;
        };
        at = next;
    }
    Ok(())
}

// The listing of a book by the first bytes of a table, with the survey of the book in it if the sign asks for one.
pub(crate) fn run(
    out: &mut impl Write,
    line: &Line,
    sign: u8,
    byte: u8,
    book: &[u8],
) -> io::Result<()> {
    let [length, _, _] = line.numbers;
    let mut table = [byte; TABLE_SIZE];
    let Some(table) = table.get_mut(..length as usize) else {
        return Ok(());
    };
    if matches!(sign, b'/' | b'>' | b'@') {
        let _ = search::survey(book, table);
    }
    pieces(out, line, sign, book, table)
}
