//! The entries of a segment, read in turn until the reading has ended, going on after refused and aborted ones.
use crate::chunks::{Chunks, Count};
use crate::outcome::Numbered;
use entry::{ChunkCut, EntryId, Refusal};
use segment_reader::held::Reader;
use segment_reader::{SegmentReader, WholeEntry};
use std::fmt;
use std::iter::Take;

/// What a whole reading of an entry says, in words.
#[derive(Clone, Copy)]
struct Verdict(Result<WholeEntry, Refusal>);

impl fmt::Display for Verdict {
    fn fmt<W: fmt::Write>(&self, f: &mut fmt::Formatter<W>) -> fmt::Result {
        match self.0 {
            Ok(WholeEntry::Whole { .. }) => f.write_str("complete"),
            Ok(WholeEntry::Aborted) => f.write_str("aborted"),
            Err(refusal) => write!(f, "refused {}", Numbered(refusal)),
        }
    }
}

/// An entry: its id, the offset where it begins, what a whole reading of it says, and a reader that has just entered it.
#[derive(Clone, Copy)]
pub struct Entry<'a> {
    pub id: EntryId,
    pub offset: u64,
    pub whole: Result<WholeEntry, Refusal>,
    entered: Chunks<'a>,
}

impl<'a> Entry<'a> {
    /// A chunk has nine bytes or more, so there are no more of them than the image has bytes.
    pub(crate) fn chunks(&self) -> Take<Chunks<'a>> {
        self.entered.take(self.entered.reader.image.len())
    }
}

/// The entry's line.
impl fmt::Display for Entry<'_> {
    fn fmt<W: fmt::Write>(&self, f: &mut fmt::Formatter<W>) -> fmt::Result {
        // two sums of one walk: `count` and a sum beside it would walk twice
        let mut chunks = 0u64;
        let mut bytes = 0u64;
        for chunk in self.chunks() {
            chunks = chunks.saturating_add(1);
            bytes = bytes.saturating_add(chunk.bytes().0.len() as u64);
        }
        write!(
            f,
            "entry at {}: id {}, {}, {}, {}",
            self.offset,
            self.id,
            Verdict(self.whole),
            Count(chunks, "chunk"),
            Count(bytes, "byte")
        )
    }
}

/// The entries from a reader on, and what is cut on the way to the next one and belongs to none.
// not segment_reader's `Entries`: it hands out no reader in the entry, whose chunks are shown, and passes over what is cut between two entries
#[derive(Clone, Copy)]
pub struct Entries<'a> {
    reader: Reader<'a>,
}

impl<'a> Entries<'a> {
    pub(crate) fn open(image: &'a [u8], id: u64) -> Result<Entries<'a>, Refusal> {
        let mut reader = Reader::new(image, SegmentReader::default());
        reader.open(id)?;
        Ok(Entries { reader })
    }

    pub(crate) fn version_info(&self) -> &'a [u8] {
        self.reader.state.version_info(self.reader.image)
    }

    /// The end of the bytes that are valid so far.
    pub(crate) fn valid_until(&self) -> u64 {
        self.reader.state.valid_until
    }

    /// An entry has nine bytes or more, so there are no more of them than the image has bytes.
    pub(crate) fn all(self) -> Take<Entries<'a>> {
        self.take(self.reader.image.len())
    }
}

impl<'a> Iterator for Entries<'a> {
    type Item = Result<Entry<'a>, ChunkCut>;

    fn next(&mut self) -> Option<Result<Entry<'a>, ChunkCut>> {
        match self.reader.entry() {
            Ok(Some(id)) => {
                let entered = Chunks {
                    reader: self.reader,
                };
                Some(Ok(Entry {
                    id,
                    offset: self.reader.state.valid_until,
                    whole: self.reader.whole(),
                    entered,
                }))
            }
            Err(Refusal::Cut(cut)) => Some(Err(cut)),
            // nothing else is refused over the image that the reader was opened over
            Ok(None) | Err(_) => None,
        }
    }
}
