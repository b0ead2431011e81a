//! The writer's calls, replayed. A line of answers: the number of refusal, four words, then file position, staged bytes, file length, synchronized
//! number, whether a last id is known, the last id, and the sum of the logical segment.
use crate::{Desk, words};
use entry::Refusal;
use log_file::LogFileWriter;
use log_file::calls::{Call, Reply};
use log_file::opening::Terms;
use std::io;
use std::io::{SeekFrom, Write};

/// Answers the line, if it is one of a writer. The buffers are lent at the sizes that the opening named.
pub(crate) fn line(out: &mut impl Write, desk: &mut Desk<'_>, line: &[u8]) -> io::Result<bool> {
    // one test by itself: an opening is no `Call`, of which `called` tells by one `match`
    if text::same(text::word(line, 0), b"open") {
        open(out, desk, line)?;
        return Ok(true);
    }
    let mut room = [0; 256];
    let offered = offered(line, &mut room);
    let Some(call) = called(line, offered) else {
        return Ok(false);
    };
    let size = desk.image.len().min(desk.writer.size);
    let capacity = desk.staging.len().min(desk.writer.capacity);
    let image = &mut desk.image[..size];
    let staging = &mut desk.staging[..capacity];
    let done = desk.writer.step(image, staging, call);
    put(out, &desk.writer, image, staging, done.map(in_words))?;
    Ok(true)
}

/// The bytes that the line offers.
fn offered<'a>(line: &[u8], room: &'a mut [u8]) -> &'a [u8] {
    let count = words::bytes(line, 1, room);
    text::first(room, count)
}

/// Opens the writer: the buffers are lent at the sizes that the line names, and the image begins with the file's bytes. The image's bytes past them do
/// not matter.
fn open(out: &mut impl Write, desk: &mut Desk<'_>, line: &[u8]) -> io::Result<()> {
    let size = desk.image.len().min(words::number(line, 7) as usize);
    let capacity = desk.staging.len().min(words::number(line, 8) as usize);
    let image = &mut desk.image[..size];
    let staging = &mut desk.staging[..capacity];
    words::bytes(line, 10, image);
    let mut info = [0; 256];
    let info_length = words::bytes(line, 9, &mut info);
    let terms = Terms {
        id: words::number(line, 1),
        last: if words::number(line, 2) == 1 {
            Some(words::number(line, 3))
        } else {
            None
        },
        version_info: text::first(&info, info_length),
        validated_length: words::number(line, 4),
        file_length: words::number(line, 5),
        preallocate: words::number(line, 6),
    };
    let opened = desk.writer.open(terms, image, staging);
    put(out, &desk.writer, image, staging, opened.map(|()| [0; 4]))
}

/// The call of an open writer that the line names.
fn called<'a>(line: &[u8], offered: &'a [u8]) -> Option<Call<'a>> {
    match text::word(line, 0) {
        b"begin" => Some(Call::BeginEntry(words::number(line, 1))),
        b"chunk" => Some(Call::BeginChunk(words::number32(line, 1))),
        b"write" => Some(Call::Write(offered)),
        b"finish" => Some(Call::Finish),
        b"commit" => Some(Call::Commit),
        b"rollback" => Some(Call::Rollback),
        b"recycle" => Some(Call::Recycle(words::number(line, 1))),
        b"flush" => Some(Call::Flush),
        b"sync" => Some(Call::Synchronize(words::number(line, 1))),
        b"start" => Some(Call::Seek(SeekFrom::Start(words::number(line, 1)))),
        b"end" => Some(Call::Seek(SeekFrom::End(words::signed(line, 1)))),
        b"current" => Some(Call::Seek(SeekFrom::Current(words::signed(line, 1)))),
        _ => None,
    }
}

fn in_words(reply: Reply) -> [u64; 4] {
    match reply {
        Reply::Done => [0; 4],
        Reply::Taken(count) => [count as u64, 0, 0, 0],
        Reply::Chunk(chunk) => [
            chunk.position.file_id,
            chunk.position.offset,
            u64::from(chunk.crc),
            u64::from(chunk.length),
        ],
        Reply::Entry(entry) => [entry.id, entry.position as u64, 0, 0],
        Reply::Place(place) => [place, 0, 0, 0],
    }
}

/// The sum of what is in the file, continued over what is staged.
fn segment_sum(writer: &LogFileWriter, image: &[u8], staging: &[u8]) -> u32 {
    let below = text::first(image, writer.file.position);
    let staged = text::first(staging, writer.file.staged);
    crc32c::append(crc32c::append(0, below), staged)
}

fn put(
    out: &mut impl Write,
    writer: &LogFileWriter,
    image: &[u8],
    staging: &[u8],
    answer: Result<[u64; 4], Refusal>,
) -> io::Result<()> {
    let (known, last) = match writer.last {
        Some(id) => (1, id),
        None => (0, 0),
    };
    words::put(out, answer)?;
    write!(
        out,
        " {} {} {} {} {known} {last} {}",
        writer.file.position,
        writer.file.staged,
        writer.file.length,
        writer.file.synchronized,
        segment_sum(writer, image, staging)
    )
}
