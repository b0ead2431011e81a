//! A whole reading of an image by the reader's calls: read_entry and read_all_chunks in turn until ended, going on after a refusal and an aborted entry.
ghost use Rattle.std.specs.Prelude.{◌≡◌, OnErr};
ghost use Rattle.segment_reader.specs.Driver.{noted, ReadSegmentAllows};
ghost use Rattle.segment_reader.specs.Turns.{verdict_by, one_by};

use crate::entries::Entries;
use crate::held::Reader;
use crate::{SegmentReader, WholeEntry};
use entry::{EntryId, Refusal};

/// The number of entries met, of complete ones, and the end of the valid bytes.
#[derive(Clone, Copy, Debug, PartialEq, Eq)]
pub struct SegmentRead {
    pub met: u64,
    pub complete: u64,
    pub valid_until: u64,
}

/// What came of reading an entry whole: so many chunks; it is aborted; or the refusal, `Cut` or `WrongSum`.
// Kept: it is the `Result` of `read_all_chunks` less the place, which stands beside it once for all three cases; three cases side by side are plainer.
#[derive(Clone, Copy, Debug, PartialEq, Eq)]
pub enum Verdict {
    Complete { chunks: u64 },
    Aborted,
    Refused(Refusal),
}

/// An entry that was met: its verdict, its id, and the place where its chunks begin.
#[derive(Clone, Copy, Debug, PartialEq, Eq)]
pub struct EntryRead {
    pub verdict: Verdict,
    pub id: EntryId,
    pub place: u64,
}

/// The verdict in an answer.
pub(crate) fn verdict_of(answer: Result<WholeEntry, Refusal>) -> Verdict
    ensures { result ≡ verdict_by answer }
{
    match answer {
        Ok(WholeEntry::Whole { chunks, .. }) => Verdict::Complete { chunks },
        Ok(WholeEntry::Aborted) => Verdict::Aborted,
        Err(refusal) => Verdict::Refused(refusal),
    }
}

impl Verdict {
    /// One for a complete entry, zero for any other.
    fn one_if_complete(self) -> u64
        ensures { result ≡ one_by self }
    {
        match self {
            Verdict::Complete { .. } => 1,
            Verdict::Aborted | Verdict::Refused(_) => 0,
        }
    }
}

/// Stores the entry at its number, where it fits.
#[tactic(auto, unfolding(crate::specs::Driver::noted))]
fn note(list: &mut [EntryRead], number: u64, entry: EntryRead)
    ensures { list.new ≡ noted list.old number entry }
{
    // Kept: with `list.get_mut(number as usize)` the proof did not close (tried: both returns stayed open).
    if number < list.len() as u64 {
        list[number as usize] = entry;
    }
}

// The list is lent, and no Vec: no heap below the programs.
/// Reads the whole segment, and records in the list as many entries as fit; those past them stay. Refused as an opening is, and nothing is recorded.
#[tactic(auto, using(crate::proofs::Going::going))]
pub fn read_segment(
    image: &[u8],
    file_id: u64,
    list: &mut [EntryRead],
) -> Result<SegmentRead, Refusal>
    ensures allows { ReadSegmentAllows file_id image.now list.old result list.new }
    ensures refused { OnErr result (list.new ≡ list.old) }
{
    let mut state = SegmentReader::default();
    state.open(image, file_id)?;
    let mut entries = Entries {
        reader: Reader::new(image, state),
    };
    // met is answered too: it is counted here, and not by `enumerate` beside it
    let mut met = 0;
    let mut complete = 0;
    while let Some(entry) = entries.next() {
        note(list, met, entry);
        met += 1;
        complete += entry.verdict.one_if_complete();
    }
    Ok(SegmentRead {
        met,
        complete,
        valid_until: entries.reader.state.valid_until,
    })
}
