//! A writer's state as 16 words and 255 bytes of version info, there and back.
ghost use Rattle.std.specs.Prelude.{◌≡◌, ◌≤◌, ◌&&◌, length, leb, slice_index, take, OnOk};
ghost use Rattle.std.specs.Bool.{then_some};
ghost use Rattle.okaywal_segment.specs.WriterWords.{moment_words, last_from, moment_from, chunk_fits, writer_fits, writer_from, writer_words, loaded};

use buffered::Buffered;
use entry::{EntryId, Refusal};
use log_file::{LogFileWriter, Moment};

/// The words of a state.
pub(crate) const STATE_WORDS: usize = 16;

/// The bytes of its version info.
pub(crate) const INFO_BYTES: usize = 255;

// Numbers for whether a last id is known and for the moment's kind, words and fields by hand: the C interface says which word tells what
// (include/okaywal_segment.h, "Writer state"). A reader's words (reader_words) tell other things at other places: one function for both would have no
// line of its own.

// ---- words to a state

/// The last id that two words tell: whether it is known, and which.
pub(crate) fn last_from(known: u64, id: u64) -> Option<Option<EntryId>>
    ensures { result ≡ then_some (leb known 1) (last_from known id) }
{
    match known {
        0 => Some(None),
        1 => Some(Some(id)),
        _ => None,
    }
}

/// The moment that six words tell. A chunk's numbers have 32 bits; other moments do not use them.
fn moment_from(kind: u64, id: u64, start: u64, length: u64, owed: u64, crc: u64) -> Option<Moment>
    ensures { result ≡ then_some (leb kind 2 && chunk_fits kind length owed crc) (moment_from kind id start length owed crc) }
{
    let start = start as usize;
    match kind {
        0 => Some(Moment::Idle),
        1 => Some(Moment::InEntry { id, start }),
        2 => Some(Moment::InChunk {
            id,
            start,
            length: u32::try_from(length).ok()?,
            owed: u32::try_from(owed).ok()?,
            crc: u32::try_from(crc).ok()?,
        }),
        _ => None,
    }
}

// The state that words and version info tell, unless a word is out of its range.
#[tactic(auto, unfolding(crate::specs::WriterWords::writer_from, crate::specs::WriterWords::writer_fits))]
fn writer_from(words: &[u64; 16], info: &[u8; 255]) -> Option<LogFileWriter>
    ensures { result ≡ then_some (writer_fits words.now) (writer_from words.now info.now) }
{
    let last = last_from(words[8], words[9])?;
    let moment = moment_from(
        words[10], words[11], words[12], words[13], words[14], words[15],
    )?;
    Some(LogFileWriter {
        id: words[0],
        info: *info,
        info_length: words[1] as usize,
        size: words[2] as usize,
        capacity: words[3] as usize,
        file: Buffered {
            length: words[4] as usize,
            position: words[5] as usize,
            staged: words[6] as usize,
            synchronized: words[7] as usize,
        },
        last,
        moment,
    })
}

/// The state that the lent words and version info tell, unless a slice is too short or a word is out of its range.
#[tactic(auto, using(crate::proofs::Ranges::fits_first, crate::proofs::Ranges::from_first))]
pub(crate) fn load(state: &[u64], info: &[u8]) -> Result<LogFileWriter, Refusal>
    ensures value { result ≡ loaded state.now info.now }
    ensures long { OnOk result (16 ≤ length state.now) }
{
    let words = state.first_chunk::<16>().ok_or(Refusal::OutOfRange)?;
    let info = info.first_chunk::<255>().ok_or(Refusal::OutOfRange)?;
    writer_from(words, info).ok_or(Refusal::OutOfRange)
}

// ---- a state to words

/// The moment in six words, 0 where it does not use them.
fn moment_words(moment: Moment) -> [u64; 6]
    ensures { result ≡ moment_words moment }
{
    match moment {
        Moment::Idle => [0; 6],
        Moment::InEntry { id, start } => [1, id, start as u64, 0, 0, 0],
        Moment::InChunk {
            id,
            start,
            length,
            owed,
            crc,
        } => [2, id, start as u64, length.into(), owed.into(), crc.into()],
    }
}

/// Every word of a state.
#[tactic(auto, unfolding(crate::specs::WriterWords::writer_words))]
pub(crate) fn words_of(writer: &LogFileWriter) -> [u64; 16]
    ensures { result ≡ writer_words writer.now }
{
    let [kind, id, start, length, owed, crc] = moment_words(writer.moment);
    [
        writer.id,
        writer.info_length as u64,
        writer.size as u64,
        writer.capacity as u64,
        writer.file.length as u64,
        writer.file.position as u64,
        writer.file.staged as u64,
        writer.file.synchronized as u64,
        u64::from(writer.last.is_some()),
        writer.last.unwrap_or(0),
        kind,
        id,
        start,
        length,
        owed,
        crc,
    ]
}
