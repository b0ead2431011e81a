//! `okw list` and `okw show`.
use crate::arguments::Argument;
use crate::chunks::Count;
use crate::entries::{Entries, Entry};
use crate::outcome::{Ended, Failure, Numbered};
use crate::{dump, files};
use entry::{EntryId, Refusal};
use std::fs::File;
use std::io;
use std::io::Write;
use std::ops::Range;
use std::rt::{Env, Files};

fn put_info(out: &mut impl Write, info: &[u8]) -> io::Result<()> {
    write!(out, "version info, {}", Count(info.len() as u64, "byte"))?;
    if !info.is_empty() {
        write!(out, ":")?;
    }
    for byte in info {
        write!(out, " {byte:02x}")?;
    }
    writeln!(out)
}

/// The entry's line and those of its chunks.
fn put_entry(out: &mut impl Write, entry: &Entry<'_>) -> io::Result<()> {
    writeln!(out, "{entry}")?;
    for chunk in entry.chunks() {
        writeln!(out, "{chunk}")?;
    }
    Ok(())
}

/// The same, with the chunks' bytes.
// one function for both would take a flag and test it in the loop: no plainer
fn dump_entry(out: &mut impl Write, entry: &Entry<'_>) -> io::Result<()> {
    writeln!(out, "{entry}")?;
    for chunk in entry.chunks() {
        writeln!(out, "{chunk}")?;
        let (bytes, offset) = chunk.bytes();
        dump::put(out, bytes, offset)?;
    }
    Ok(())
}

/// All entries of a segment and its end; the first refusal that was met.
fn list_segment(out: &mut impl Write, image: &[u8], id: u64) -> io::Result<Result<(), Refusal>> {
    let mut entries = match Entries::open(image, id) {
        Ok(entries) => entries,
        Err(refusal) => {
            writeln!(out, "refused {}", Numbered(refusal))?;
            return Ok(Err(refusal));
        }
    };
    let info = entries.version_info();
    let mut first = Ok(());
    for met in entries.by_ref().take(image.len()) {
        match met {
            Ok(entry) => {
                put_entry(out, &entry)?;
                first = first.and(entry.whole.map(|_| ()));
            }
            Err(cut) => {
                let refusal = Refusal::Cut(cut);
                writeln!(out, "cut at {}: refused {}", cut.mark, Numbered(refusal))?;
                first = first.and(Err(refusal));
            }
        }
    }
    let valid_until = entries.valid_until();
    write!(out, "valid_until {valid_until}")?;
    if valid_until > image.len() as u64 {
        write!(out, ", past the file")?;
    }
    writeln!(out)?;
    put_info(out, info)?;
    Ok(first)
}

/// The beginning of a file's line. It comes behind the reading: where output goes to that very file, it has not grown by then.
fn put_head(rt: &impl Env, out: &mut impl Write, file: Argument) -> io::Result<()> {
    write!(out, "segment ")?;
    file.put(rt, out)
}

/// The segment in the file, or why it could not be read, in its place among the others.
fn list_file(
    rt: &(impl Env + Files<File = File>),
    out: &mut impl Write,
    image: &mut [u8],
    file: Argument,
    id: Argument,
) -> Result<(), Ended> {
    let number = match id.number(rt) {
        Ok(number) => number,
        Err(refused) => {
            put_head(rt, out, file)?;
            writeln!(out, ": its ID is no number")?;
            return Err(Ended::from(refused));
        }
    };
    let image = match files::load(rt, file, image, false) {
        Ok(image) => image,
        Err(failure) => {
            put_head(rt, out, file)?;
            writeln!(out, ": {failure}")?;
            return Err(Ended::from(file.refused(failure)));
        }
    };
    put_head(rt, out, file)?;
    writeln!(out, ", id {number}, {}", Count(image.len() as u64, "byte"))?;
    let listed = list_segment(out, image, number)?;
    Ok(listed.map_err(|refusal| file.refused(Failure::Refused(refusal)))?)
}

/// Each file with its id; the first refusal of them all.
pub(crate) fn list(
    rt: &(impl Env + Files<File = File>),
    out: &mut impl Write,
    image: &mut [u8],
    segments: Range<usize>,
) -> Result<(), Ended> {
    let mut first = Ok(());
    for place in segments.step_by(2) {
        let file = Argument::new("FILE ", place);
        let id = Argument::new("ID ", place.saturating_add(1));
        match list_file(rt, out, image, file, id) {
            Ok(()) => {}
            Err(Ended::Refused(refused)) => first = first.and(Err(refused)),
            Err(Ended::Output(error)) => return Err(Ended::Output(error)),
        }
    }
    Ok(first?)
}

/// The entries with the id; the first refusal among them, where there is one with it.
fn show_entries(
    out: &mut impl Write,
    entries: Entries<'_>,
    wanted: EntryId,
) -> io::Result<Option<Result<(), Refusal>>> {
    let mut shown = None;
    for met in entries.all() {
        if let Ok(entry) = met {
            if entry.id == wanted {
                dump_entry(out, &entry)?;
                shown = Some(shown.unwrap_or(Ok(())).and(entry.whole.map(|_| ())));
            }
        }
    }
    Ok(shown)
}

pub(crate) fn show(
    rt: &(impl Env + Files<File = File>),
    out: &mut impl Write,
    image: &mut [u8],
    file: Argument,
    id: Argument,
    entry: Argument,
) -> Result<(), Ended> {
    let segment = id.number(rt)?;
    let wanted = entry.number(rt)?;
    let image = files::load(rt, file, image, false).map_err(|failure| file.refused(failure))?;
    let entries = Entries::open(image, segment).map_err(|refusal| file.refused(Failure::Refused(
        refusal,
    )))?;
    match show_entries(out, entries, wanted)? {
        Some(shown) => Ok(shown.map_err(|refusal| file.refused(Failure::Refused(refusal)))?),
        None => Err(Ended::from(entry.refused(Failure::NoEntry))),
    }
}
