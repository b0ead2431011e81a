//! The thin reader: the caller's image and a reader's state over it, held together. Each call leaves the work to one call of the state; none requires
//! anything. What each answers is specs/Held.
ghost use Rattle.std.specs.Prelude.{◌≡◌};
ghost use Rattle.segment_reader.specs.Held.{HeldOpenAllows, HeldNewAllows, HeldWithStateAllows, HeldBytesAllows, HeldPartAllows, HeldCheckCrcAllows, HeldEntryAllows, HeldChunkAllows, HeldWholeAllows, FirstWholeAllows, FirstChunksAllows, FirstBytesAllows, FirstCrcAllows, at_first_chunk};

use crate::{Part, ReadChunkResult, SegmentReader, WholeEntry};
use entry::{EntryId, Refusal};

/// The caller's own image, and the state that the next call begins with.
#[derive(Clone, Copy, Debug)]
pub struct Reader<'a> {
    pub image: &'a [u8],
    pub state: SegmentReader,
}

// Kept beside the state's own calls, one line each: README names them, and the image goes into every call, which a `Deref` could not add. `part` cannot fail
// (`HeldPartAllows`), `with_state` has its law (`HeldWithStateAllows`).
impl<'a> Reader<'a> {
    /// The image and a state, as an opening or any later call left it, put together.
    pub fn new(image: &'a [u8], state: SegmentReader) -> Reader<'a>
        ensures { HeldNewAllows image.entry state result }
    {
        Reader { image, state }
    }

    /// The same image with another state.
    pub fn with_state(self, state: SegmentReader) -> Reader<'a>
        ensures { HeldWithStateAllows self.entry state result }
    {
        Reader {
            image: self.image,
            state,
        }
    }

    /// Opens the reader over its image, before the first entry. Refused with `OutOfRange`, `Short`, `Magic`, `Version`, `Short`, in this order; its state
    /// is then all zeros and ended.
    pub fn open(&mut self, file_id: u64) -> Result<(), Refusal>
        ensures { HeldOpenAllows file_id self.old result self.new }
    {
        self.state.open(self.image, file_id)
    }

    /// The next entry, or the end; what is left of a current entry is skipped. Refused with `OutOfRange`; with `Cut` where a chunk's header is cut.
    pub fn entry(&mut self) -> Result<Option<EntryId>, Refusal>
        ensures { HeldEntryAllows self.old result self.new }
    {
        self.state.read_entry(self.image)
    }

    /// The next chunk of the current entry, its end, or that it is aborted. Refused with `OutOfRange`, `NotNow`; with `Cut` where the chunk's header is cut.
    pub fn chunk(&mut self) -> Result<ReadChunkResult, Refusal>
        ensures { HeldChunkAllows self.old result self.new }
    {
        self.state.read_chunk(self.image)
    }

    /// The bytes of the open chunk from the place on, at most so many as are asked for, owed and present: a part of the image, for as long as the image
    /// itself is lent. Refused with `OutOfRange`, `NotNow`.
    pub fn bytes(&mut self, asked: u64) -> Result<Part<'a>, Refusal>
        ensures { HeldBytesAllows self.old asked result self.new }
    {
        self.state.read(self.image, asked)
    }

    /// The same bytes alone, empty beside a refusal; the reader stays.
    pub fn part(&self, asked: u64) -> &'a [u8]
        ensures { HeldPartAllows self.now asked result.now }
    {
        self.state.part(self.image, asked)
    }

    /// Whether the open chunk's stored CRC is that of its data. Refused with `OutOfRange`, `NotNow`, this also while bytes are owed, and with `Cut` where
    /// the CRC is cut. Nothing moves.
    pub fn check_crc(&self) -> Result<bool, Refusal>
        ensures { HeldCheckCrcAllows self.now result }
    {
        self.state.check_crc(self.image)
    }

    /// The rest of the current entry, each chunk's CRC checked: where its chunks begin and how many there are, or that it is aborted. Refused with
    /// `OutOfRange`, `NotNow`; with `Cut` where a chunk is cut and `WrongSum` where a stored CRC differs.
    pub fn whole(&mut self) -> Result<WholeEntry, Refusal>
        ensures { HeldWholeAllows self.old result self.new }
    {
        self.state.read_all_chunks(self.image)
    }
}

/// The first entry of a segment: whether the segment opened, whether it has an entry, that entry whole, and the state behind it.
#[derive(Clone, Copy, Debug, PartialEq, Eq)]
pub struct FirstWhole {
    pub opening: Result<(), Refusal>,
    pub entry: Result<Option<EntryId>, Refusal>,
    pub whole: Result<WholeEntry, Refusal>,
    pub state: SegmentReader,
}

/// Opens a reader, reads the first entry, and reads it whole: all three answers. Where there is no such entry the last one is refused, with `OutOfRange`
/// or `NotNow`.
pub fn first_whole(image: &[u8], file_id: u64) -> FirstWhole
    ensures { FirstWholeAllows file_id image.now result }
{
    // Kept without `?`: after a refused opening the next two answers are each its own, and promised (`FirstWholeAllows`): `OutOfRange`, or over an empty
    // image ended and `NotNow`.
    let mut reader = Reader::new(image, SegmentReader::default());
    let opening = reader.open(file_id);
    let entry = reader.entry();
    let whole = reader.whole();
    FirstWhole {
        opening,
        entry,
        whole,
        state: reader.state,
    }
}

/// How many chunks the first entry has, where there is one and it is whole; else 0.
#[tactic(auto, unfolding(crate::specs::Held::chunks_in))]
pub fn first_chunks(image: &[u8], file_id: u64) -> u64
    ensures { FirstChunksAllows file_id image.now result }
{
    match first_whole(image, file_id).whole {
        Ok(WholeEntry::Whole { chunks, .. }) => chunks,
        Ok(WholeEntry::Aborted) => 0,
        Err(_) => 0,
    }
}

/// A reader in the first chunk of the first entry, before its bytes, where there is one.
fn first_chunk(image: &[u8], file_id: u64) -> Reader<'_>
    ensures image { result.image ≡ image.entry }
    ensures state { result.state ≡ at_first_chunk file_id image.now }
{
    // Kept without `?`: a refusal on the way leaves a state, and what the last call answers of it is promised (`at_first_chunk`).
    let mut reader = Reader::new(image, SegmentReader::default());
    let _ = reader.open(file_id);
    let _ = reader.entry();
    let _ = reader.chunk();
    reader
}

/// The bytes of that chunk, at most as many as are asked for: a part of the image, for as long as the image itself is lent. Empty where there is no such
/// chunk.
pub fn first_bytes(image: &[u8], file_id: u64, asked: u64) -> &[u8]
    ensures { FirstBytesAllows file_id image.now asked result.now }
{
    match first_chunk(image, file_id).bytes(asked) {
        Ok(part) => part.bytes,
        Err(_) => &image[..0],
    }
}

/// Whether the stored CRC of that chunk is that of its data. Refused with `OutOfRange` where the opening is, unless the image is empty; with `NotNow` where
/// there is no such chunk or bytes of it are missing; with `Cut` where the CRC is cut.
pub fn first_crc(image: &[u8], file_id: u64) -> Result<bool, Refusal>
    ensures { FirstCrcAllows file_id image.now result }
{
    let mut reader = first_chunk(image, file_id);
    let _ = reader.bytes(u64::from(u32::MAX));
    reader.check_crc()
}
