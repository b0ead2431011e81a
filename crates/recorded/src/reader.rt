//! The reader's calls, replayed. A line of answers: the number of refusal, four words, then place, valid_until and the bytes owed (0 outside a chunk),
//! and for `data` its bytes. A refused opening answers its number alone.
use crate::{Desk, words};
use entry::{EntryId, Refusal};
use segment_reader::calls::{Call, Reply};
use segment_reader::{Moment, ReadChunkResult, SegmentReader, WholeEntry};
use std::io;
use std::io::Write;

/// Answers the line, if it is one of a reader.
pub(crate) fn line(out: &mut impl Write, desk: &mut Desk<'_>, line: &[u8]) -> io::Result<bool> {
    // one test by itself: an opening is no `Call`, of which `called` tells by one `match`
    if text::same(text::word(line, 0), b"reader") {
        open(out, desk, line)?;
        return Ok(true);
    }
    let Some(call) = called(line) else {
        return Ok(false);
    };
    let size = desk.image.len().min(desk.size);
    let image = &mut desk.image[..size];
    let done = desk.reader.step(image, call);
    put(out, &desk.reader, done.map(in_words))?;
    if let Call::Data(_) = call {
        write!(out, " ")?;
        words::put_bytes(out, data(done))?;
    }
    Ok(true)
}

/// Opens the reader over the image that the line names.
fn open(out: &mut impl Write, desk: &mut Desk<'_>, line: &[u8]) -> io::Result<()> {
    desk.size = words::bytes(line, 2, desk.image);
    let size = desk.image.len().min(desk.size);
    let image = &mut desk.image[..size];
    match desk.reader.open(image, words::number(line, 1)) {
        Ok(()) => put(out, &desk.reader, Ok([0; 4])),
        Err(refusal) => write!(out, "{}", refusal.number()),
    }
}

/// The bytes that were read, none beside a refusal.
fn data(done: Result<Reply<'_>, Refusal>) -> &[u8] {
    match done {
        Ok(Reply::Data(part)) => part.bytes,
        _ => &[],
    }
}

/// The call of an open reader that the line names; `next` is the one for a chunk.
fn called(line: &[u8]) -> Option<Call> {
    match text::word(line, 0) {
        b"entry" => Some(Call::Entry),
        b"next" => Some(Call::Chunk),
        b"data" => Some(Call::Data(words::number(line, 1))),
        b"check" => Some(Call::Check),
        b"skip" => Some(Call::Skip),
        b"whole" => Some(Call::Whole),
        _ => None,
    }
}

pub(crate) fn entry_in_words(entry: Option<EntryId>) -> [u64; 4] {
    match entry {
        Some(id) => [1, id, 0, 0],
        None => [0; 4],
    }
}

pub(crate) fn whole_in_words(whole: WholeEntry) -> [u64; 4] {
    match whole {
        WholeEntry::Whole { place, chunks } => [1, place, chunks, 0],
        WholeEntry::Aborted => [2, 0, 0, 0],
    }
}

fn in_words(reply: Reply<'_>) -> [u64; 4] {
    match reply {
        Reply::Entry(entry) => entry_in_words(entry),
        Reply::Chunk(ReadChunkResult::Chunk { mark, length }) => [1, mark, u64::from(length), 0],
        Reply::Chunk(ReadChunkResult::EndOfEntry) => [2, 0, 0, 0],
        Reply::Chunk(ReadChunkResult::AbortedEntry) => [3, 0, 0, 0],
        Reply::Data(part) => [part.place, part.bytes.len() as u64, 0, 0],
        Reply::Check(is_right) => [u64::from(is_right), 0, 0, 0],
        Reply::Skipped => [0; 4],
        Reply::Whole(whole) => whole_in_words(whole),
    }
}

fn put(
    out: &mut impl Write,
    reader: &SegmentReader,
    answer: Result<[u64; 4], Refusal>,
) -> io::Result<()> {
    let owed = match reader.moment {
        Moment::InChunk { owed, .. } => owed,
        _ => 0,
    };
    words::put(out, answer)?;
    write!(out, " {} {} {owed}", reader.place, reader.valid_until)
}
