//! Positions and sums, replayed.
use crate::words;
use entry::LogPosition;
use std::io;
use std::io::Write;

/// Answers the line, if it asks for a position as bytes, for bytes as a position, or for a sum.
pub(crate) fn line(out: &mut impl Write, line: &[u8]) -> io::Result<bool> {
    match text::word(line, 0) {
        b"put" => put(out, line)?,
        b"get" => get(out, line)?,
        b"sum" => sum(out, line)?,
        _ => return Ok(false),
    }
    Ok(true)
}

/// The 16 bytes of a position.
fn put(out: &mut impl Write, line: &[u8]) -> io::Result<()> {
    let position = LogPosition {
        file_id: words::number(line, 1),
        offset: words::number(line, 2),
    };
    let mut bytes = [0; 16];
    let stored = position.serialize_to(&mut bytes);
    write!(out, "{} ", words::number_of(stored))?;
    words::put_bytes(out, &bytes)
}

/// The position that bytes stand for.
fn get(out: &mut impl Write, line: &[u8]) -> io::Result<()> {
    let mut room = [0; 32];
    let count = words::bytes(line, 1, &mut room);
    let read = LogPosition::deserialize_from(text::first(&room, count));
    let position = read.unwrap_or(LogPosition {
        file_id: 0,
        offset: 0,
    });
    write!(
        out,
        "{} {} {}",
        words::number_of(read),
        position.file_id,
        position.offset
    )
}

/// A finished sum, continued over bytes.
fn sum(out: &mut impl Write, line: &[u8]) -> io::Result<()> {
    let mut room = [0; 128];
    let count = words::bytes(line, 2, &mut room);
    let sum = crc32c::append(words::number32(line, 1), text::first(&room, count));
    write!(out, "{sum}")
}
