//! The first entry and the first chunk of an image, read through the reader that holds its image.
use crate::{reader, words};
use segment_reader::held;
use segment_reader::held::FirstWhole;
use std::io;
use std::io::Write;

/// Answers the line, if it asks for one of them: the image that it names is put into the image that the writer and the reader have.
pub(crate) fn line(out: &mut impl Write, image: &mut [u8], line: &[u8]) -> io::Result<bool> {
    let whole = match text::word(line, 0) {
        b"first" => true,
        b"bytes" => false,
        _ => return Ok(false),
    };
    let size = words::bytes(line, 2, image);
    let image = text::first(image, size);
    let id = words::number(line, 1);
    if whole {
        put_first(out, held::first_whole(image, id))?;
    } else {
        put_bytes(out, image, id, words::number(line, 3))?;
    }
    Ok(true)
}

/// The opening's number; where it is 0 the entry's answer, and where there is an entry its answer whole and the place behind it.
fn put_first(out: &mut impl Write, first: FirstWhole) -> io::Result<()> {
    if let Err(refusal) = first.opening {
        return write!(out, "{}", refusal.number());
    }
    write!(out, "0 ")?;
    words::put(out, first.entry.map(reader::entry_in_words))?;
    if let Ok(Some(_)) = first.entry {
        write!(out, " ")?;
        words::put(out, first.whole.map(reader::whole_in_words))?;
        write!(out, " {} {}", first.state.place, first.state.valid_until)?;
    }
    Ok(())
}

/// The bytes asked for, the number of the CRC's check and its word.
fn put_bytes(out: &mut impl Write, image: &[u8], id: u64, asked: u64) -> io::Result<()> {
    words::put_bytes(out, held::first_bytes(image, id, asked))?;
    let is_right = held::first_crc(image, id);
    write!(
        out,
        " {} {}",
        words::number_of(is_right),
        u64::from(is_right.unwrap_or(false))
    )
}
