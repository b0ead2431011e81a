//! A reader's state as 10 words, there and back.
ghost use Rattle.std.specs.Prelude.{◌≡◌, ◌≤◌, ◌&&◌, length, leb, OnOk};
ghost use Rattle.std.specs.Bool.{then_some};
ghost use Rattle.okaywal_segment.specs.ReaderWords.{reading_words, reader_words, reading_from, reader_from, part_fits, reader_fits, reader_loaded};

use entry::Refusal;
use segment_reader::{Moment, SegmentReader};

/// The words of a state.
pub(crate) const READER_WORDS: usize = 10;

// A number for the moment's kind, words and fields by hand: the C interface says which word tells what (include/okaywal_segment.h, "Reader state").
// Beside writer_words, for the reason that stands there.

// ---- words to a state

// The moment that five words tell. A chunk's numbers have 32 bits; other moments do not use them.
fn moment_from(kind: u64, id: u64, mark: u64, length: u64, owed: u64) -> Option<Moment>
    ensures { result ≡ then_some (leb kind 3 && part_fits kind length owed) (reading_from kind id mark length owed) }
{
    match kind {
        0 => Some(Moment::Between),
        1 => Some(Moment::InEntry { id }),
        2 => Some(Moment::InChunk {
            id,
            mark,
            length: u32::try_from(length).ok()?,
            owed: u32::try_from(owed).ok()?,
        }),
        3 => Some(Moment::Ended),
        _ => None,
    }
}

// The state that words tell, unless one is out of its range.
#[tactic(auto, unfolding(crate::specs::ReaderWords::reader_from, crate::specs::ReaderWords::reader_fits))]
fn reader_from(words: &[u64; 10]) -> Option<SegmentReader>
    ensures { result ≡ then_some (reader_fits words.now) (reader_from words.now) }
{
    let moment = moment_from(words[5], words[6], words[7], words[8], words[9])?;
    Some(SegmentReader {
        file_id: words[0],
        size: words[1],
        version_info_length: words[2],
        place: words[3],
        valid_until: words[4],
        moment,
    })
}

/// The state that the lent words tell, unless the slice is too short or a word is out of its range.
#[tactic(auto, using(crate::proofs::Ranges::reader_fits_first, crate::proofs::Ranges::reader_from_first))]
pub(crate) fn load(state: &[u64]) -> Result<SegmentReader, Refusal>
    ensures value { result ≡ reader_loaded state.now }
    ensures long { OnOk result (10 ≤ length state.now) }
{
    let words = state.first_chunk::<10>().ok_or(Refusal::OutOfRange)?;
    reader_from(words).ok_or(Refusal::OutOfRange)
}

// ---- a state to words

// The moment in five words, 0 where it does not use them.
fn moment_words(moment: Moment) -> [u64; 5]
    ensures { result ≡ reading_words moment }
{
    match moment {
        Moment::Between => [0; 5],
        Moment::InEntry { id } => [1, id, 0, 0, 0],
        Moment::InChunk {
            id,
            mark,
            length,
            owed,
        } => [2, id, mark, length.into(), owed.into()],
        Moment::Ended => [3, 0, 0, 0, 0],
    }
}

/// Every word of a state.
#[tactic(auto, unfolding(crate::specs::ReaderWords::reader_words))]
pub(crate) fn words_of(reader: &SegmentReader) -> [u64; 10]
    ensures { result ≡ reader_words reader.now }
{
    let [kind, id, mark, length, owed] = moment_words(reader.moment);
    [
        reader.file_id,
        reader.size,
        reader.version_info_length,
        reader.place,
        reader.valid_until,
        kind,
        id,
        mark,
        length,
        owed,
    ]
}
