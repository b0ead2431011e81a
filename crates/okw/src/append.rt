//! `okw new` and `okw append`: the segment is made or added to in memory, and goes to its file whole.
use crate::arguments::Argument;
use crate::entries::Entries;
use crate::files::NewFile;
use crate::outcome::{Failure, Refused};
use crate::{arguments, files};
use entry::{EntryId, Refusal};
use log_file::LogFileWriter;
use log_file::opening::Terms;
use log_file::segment::Segment;
use segment_reader::{WholeEntry, survey};
use std::fs::File;
use std::ops::Range;
use std::rt::{Env, Files};

/// The longest TEXT.
const LONGEST: usize = 131_072;

/// The longest version info.
const MOST_INFO: usize = 255;

/// A writer for the segment in the image.
fn opened<'a>(
    terms: Terms<'_>,
    image: &'a mut [u8],
    staging: &'a mut [u8],
) -> Result<Segment<'a>, Refusal> {
    let mut writer = LogFileWriter::default();
    writer.open(terms, image, staging)?;
    Ok(Segment {
        writer,
        image,
        staging,
    })
}

// ---- new

/// The bytes of a fresh segment, at the start of the image.
fn fresh(image: &mut [u8], id: u64, size: u64) -> Result<&[u8], Failure> {
    let image = image.get_mut(..size as usize).ok_or(Failure::TooLarge)?;
    let terms = Terms {
        id,
        last: None,
        version_info: &[],
        validated_length: 0,
        file_length: 0,
        preallocate: size,
    };
    opened(terms, image, &mut [0; 64])?;
    Ok(image)
}

pub(crate) fn new(
    rt: &(impl Env + Files<File = File>),
    image: &mut [u8],
    file: Argument,
    id: Argument,
    size: Argument,
) -> Result<(), Refused> {
    let segment = id.number(rt)?;
    let bytes = size.number(rt)?;
    let image = fresh(image, segment, bytes).map_err(|failure| size.refused(failure))?;
    files::create(rt, file, image).map_err(|failure| file.refused(failure))
}

// ---- append

/// The reading ends past the file: the last entry that it met is cut, or a chunk behind it.
fn cut(image: &[u8], id: u64, valid_until: u64) -> Result<Failure, Refusal> {
    Ok(match Entries::open(image, id)?.all().last() {
        Some(Ok(entry)) => match entry.whole {
            Ok(WholeEntry::Whole { .. }) => Failure::CutBehind {
                offset: entry.offset,
                valid_until,
            },
            _ => Failure::CutEntry {
                offset: entry.offset,
                valid_until,
            },
        },
        Some(Err(cut)) => Failure::CutEntry {
            offset: cut.mark,
            valid_until,
        },
        None => Failure::CutEntry {
            offset: 0,
            valid_until,
        },
    })
}

/// The end of the valid bytes, which must lie in the file.
fn valid_until(image: &[u8], id: u64) -> Result<u64, Failure> {
    let valid_until = survey::read_segment(image, id, &mut [])?.valid_until;
    if valid_until > image.len() as u64 {
        return Err(cut(image, id, valid_until)?);
    }
    Ok(valid_until)
}

/// A copy of the version info, since the image that holds it is written while it is read.
// a room of a fixed size, filled to a length: on the heap there may be no memory for it
fn version_info<'a>(
    image: &[u8],
    id: u64,
    room: &'a mut [u8; MOST_INFO],
) -> Result<&'a [u8], Refusal> {
    let info = Entries::open(image, id)?.version_info();
    let length = info.len().min(MOST_INFO);
    room[..length].copy_from_slice(&info[..length]);
    Ok(&room[..length])
}

fn put_chunk(segment: &mut Segment<'_>, text: &[u8]) -> Result<(), Failure> {
    if text.len() > LONGEST {
        return Err(Failure::TooLong);
    }
    segment.begin_chunk(text.len() as u32)?;
    segment.write(text)?;
    segment.finish()?;
    Ok(())
}

/// Writes, commits and flushes an entry with a chunk for each text.
fn put_entry(
    rt: &impl Env,
    segment: &mut Segment<'_>,
    id: EntryId,
    texts: &Range<usize>,
) -> Result<(), Failure> {
    segment.begin_entry(id)?;
    // one room for all texts: on the heap there may be no memory for them, and a room for each would be cleared each time
    let mut room = [0; LONGEST];
    // its ends: the range is walked twice, and a clone of it can fail
    for place in texts.start..texts.end {
        let length = rt.arg(place, &mut room).map_err(|_| Failure::TooLong)?;
        put_chunk(segment, &room[..length])?;
    }
    segment.commit()?;
    segment.flush()?;
    Ok(())
}

/// An entry to append to the segment in a file.
#[derive(Clone, Drop)]
struct Addition {
    file: Argument,
    id: u64,
    entry: EntryId,
    texts: Range<usize>,
}

impl Addition {
    /// The file's bytes with the entry in them, in memory: one entry more behind the valid bytes, in a file that keeps its size. The file is read as at
    /// power-up.
    fn in_memory<'a>(
        &self,
        rt: &(impl Env + Files<File = File>),
        image: &'a mut [u8],
    ) -> Result<&'a [u8], Failure> {
        let image = files::load(rt, self.file, image, true)?;
        let size = image.len() as u64;
        let validated_length = valid_until(image, self.id)?;
        let mut info = [0; MOST_INFO];
        let version_info = version_info(image, self.id, &mut info)?;
        let terms = Terms {
            id: self.id,
            last: None,
            version_info,
            validated_length,
            file_length: size,
            preallocate: size,
        };
        // of a fixed size, as it was: what is stored when follows from it
        let mut staging = [0; 4096];
        let mut segment = opened(terms, image, &mut staging)?;
        put_entry(rt, &mut segment, self.entry, &self.texts)?;
        Ok(image)
    }

    /// What is refused is refused before anything is made; what is not is done once more with the new file there, so that the file stays as it is read then.
    fn append(
        &self,
        rt: &(impl Env + Files<File = File>),
        image: &mut [u8],
    ) -> Result<(), Failure> {
        self.in_memory(rt, image)?;
        let mut room = [0; arguments::LONGEST];
        let mut room_beside = [0; arguments::LONGEST];
        let new = NewFile::make(rt, self.file.path(rt, &mut room)?, &mut room_beside)?;
        match self.in_memory(rt, image) {
            Ok(bytes) => new.replace(rt, bytes),
            Err(failure) => {
                new.remove(rt);
                Err(failure)
            }
        }
    }
}

pub(crate) fn append(
    rt: &(impl Env + Files<File = File>),
    image: &mut [u8],
    file: Argument,
    id: Argument,
    entry: Argument,
    texts: Range<usize>,
) -> Result<(), Refused> {
    let addition = Addition {
        file,
        id: id.number(rt)?,
        entry: entry.number(rt)?,
        texts,
    };
    match addition.append(rt, image) {
        Ok(()) => Ok(()),
        Err(Failure::Refused(Refusal::LowId)) => {
            Err(entry.refused(Failure::Refused(Refusal::LowId)))
        }
        Err(failure) => Err(file.refused(failure)),
    }
}
