//! Reads a segment (okaywal's log_file.rs: SegmentReader, Entry, EntryChunk). The image is lent and is never written. No call requires anything: any
//! state, any image. What each call answers is specs/Calls.
#![tactic(auto)]

ghost use Rattle.std.specs.Prelude.{◌≡◌, OnErr, Ok, min, length};
ghost use Rattle.reading.specs.Reading.{left, skip};
ghost use Rattle.reading.specs.Shapes.{whole_as};
ghost use Rattle.segment_reader.specs.State.{stands_at, in_place, fit, start_of};
ghost use Rattle.segment_reader.specs.Calls.{step, zeros, resting, entry_at, entry_past};
ghost use Rattle.segment_reader.specs.Promises.{reply_of, entry_values, current_of, IsKept, IsMoved, NewAllows, ReadEntryAllows, ReadChunkAllows, ReadAllows, PartAllows, CheckCrcAllows, SkipAllows, ReadAllChunksAllows, VersionInfoAllows};

pub mod calls;
pub mod entries;
pub mod held;
pub mod laws;
pub mod survey;

use entry::{EntryId, LARGEST_IMAGE, Refusal};
use reading::marks::{Mark, checked_at, header_of, lead_at, look_at, part_of};
use reading::walks::{Contents, Next, Whole, header_cut, skip_from, whole_from};

/// The farthest place of a reader: 2^33.
pub const FARTHEST_PLACE: u64 = 8_589_934_592;

// Kept: four cases, two of them with numbers, are of no Option's or Result's shape.
/// The moment of a reader: no entry is current; in an entry; in a chunk of so many bytes whose 02 stands at mark, some of them still owed; ended.
#[derive(Clone, Copy, Debug, Default, PartialEq, Eq)]
pub enum Moment {
    Between,
    InEntry {
        id: EntryId,
    },
    InChunk {
        id: EntryId,
        mark: u64,
        length: u32,
        owed: u32,
    },
    #[default]
    Ended,
}

/// A reader: the file's id, the size of the image that it was opened over, the length of the version info that it found there, its place, which may lie
/// past the image, the end of the valid bytes, and the moment. Any numbers may stand in it.
// With no invariant: every call answers any numbers (`twelve-and-six-keep`).
#[derive(Clone, Copy, Debug, Default, PartialEq, Eq)]
pub struct SegmentReader {
    pub file_id: u64,
    pub size: u64,
    pub version_info_length: u64,
    pub place: u64,
    pub valid_until: u64,
    pub moment: Moment,
}

/// A chunk of so many bytes, its 02 at mark; the end mark; an aborted entry.
// Kept: three cases that are all answers are of no Option's or Result's shape.
#[derive(Clone, Copy, Debug, PartialEq, Eq)]
pub enum ReadChunkResult {
    Chunk { mark: u64, length: u32 },
    EndOfEntry,
    AbortedEntry,
}

/// A part of the image, and the place that it begins at.
#[derive(Clone, Copy, Debug)]
pub struct Part<'a> {
    pub place: u64,
    pub bytes: &'a [u8],
}

/// The place that a whole entry's chunks begin at, and how many stand there back to back; or the entry is aborted.
// Kept: of Option's shape, but an entry that was begun and aborted is not nothing, and "None" would be read as no entry; no plainer.
#[derive(Clone, Copy, Debug, PartialEq, Eq)]
pub enum WholeEntry {
    Whole { place: u64, chunks: u64 },
    Aborted,
}

/// As many bytes as are asked for, owed and present.
// Kept as a function of its own: written out in `read`, the proof that the cast loses nothing did not close (tried).
fn handed_out(asked: u64, owed: u32, present: u64) -> u32
    ensures { result ≡ min asked (min owed present) }
{
    asked.min(u64::from(owed).min(present)) as u32
}

impl Moment {
    /// Whether the place is one that the moment can have: in a chunk, behind the bytes read of it. No sum is formed that could wrap.
    #[tactic(auto, unfolding(crate::specs::State::in_place, crate::specs::State::stands_at))]
    fn is_in_place(self, place: u64) -> bool
        ensures { result ≡ in_place self place }
    {
        match self {
            Moment::InChunk {
                mark,
                length,
                owed,
                ..
            } => owed <= length && mark <= place && place - mark == 5 + u64::from(length - owed),
            Moment::Between | Moment::InEntry { .. } | Moment::Ended => true,
        }
    }
}

impl SegmentReader {
    /// Whether the state is one for this image.
    #[tactic(auto, unfolding(crate::specs::State::fit))]
    fn fits(&self, image: &[u8]) -> bool
        ensures { result ≡ fit self.now (length image.now) }
    {
        image.len() <= LARGEST_IMAGE
            && self.size == image.len() as u64
            && self.place <= FARTHEST_PLACE
            && self.moment.is_in_place(self.place)
    }

    /// The current entry, and the place in it once an open chunk is left. Refused with `OutOfRange`, `NotNow`.
    #[tactic(auto, unfolding(crate::specs::State::start_of, crate::specs::State::leaving), using(crate::proofs::Bounds::chunk_near))]
    fn current(&self, image: &[u8]) -> Result<(EntryId, u64), Refusal>
        ensures { result ≡ current_of (start_of self.now (length image.now)) }
    {
        if !self.fits(image) {
            return Err(Refusal::OutOfRange);
        }
        match self.moment {
            Moment::InEntry { id } => Ok((id, self.place)),
            Moment::InChunk {
                id,
                mark,
                length,
                ..
            } => Ok((id, mark + 9 + u64::from(length))),
            Moment::Between | Moment::Ended => Err(Refusal::NotNow),
        }
    }

    /// Goes behind the entry id, or a part of it: it is still current, or none is.
    #[tactic(auto, unfolding(crate::specs::Calls::resting))]
    fn rest(&mut self, id: EntryId, whole: Whole)
        ensures { self.new ≡ resting self.old id (left (whole_as whole)) }
    {
        match whole.left() {
            Next::Seek(place) => {
                self.place = place;
                self.moment = Moment::Between;
            }
            Next::Pass(place) => {
                self.place = place;
                self.moment = Moment::InEntry { id };
            }
        }
    }

    /// Enters the entry that begins at the place, which becomes `valid_until`; or the reading ends.
    #[tactic(auto, unfolding(crate::specs::Calls::entry_met), using(reading::proofs::Bounds::lead_inside))]
    fn enter(&mut self, image: &[u8], place: u64) -> Option<EntryId>
        ensures { step self.new (reply_of entry_values (Ok result)) ≡ entry_at self.old image.now place }
    {
        self.valid_until = place;
        let Some(id) = lead_at(image, place, self.file_id) else {
            self.place = place;
            self.moment = Moment::Ended;
            return None;
        };
        self.place = place + 9;
        self.moment = Moment::InEntry { id };
        Some(id)
    }

    /// Enters the entry behind what is left of the current one.
    #[tactic(auto, unfolding(crate::specs::Calls::entry_past))]
    fn enter_past(
        &mut self,
        image: &[u8],
        id: EntryId,
        from: u64,
    ) -> Result<Option<EntryId>, Refusal>
        ensures enters { step self.new (reply_of entry_values result) ≡ entry_past self.old image.now id (skip image.now from) }
        ensures moves { IsMoved result }
    {
        match skip_from(image, from) {
            Ok(place) => Ok(self.enter(image, place)),
            Err(cut) => {
                let contents = Contents::Cut(cut);
                let place = image.len() as u64;
                self.rest(id, Whole { contents, place });
                Err(Refusal::Cut(cut))
            }
        }
    }

    /// Opens the reader over the image, before its first entry. Refused with `OutOfRange`, `Short`, `Magic`, `Version`, `Short`, in this order; it is then
    /// all zeros and ended.
    #[tactic(auto, unfolding(crate::specs::Calls::new, crate::specs::Calls::opened_with), using(crate::proofs::Openings::refused_opening))]
    pub fn open(&mut self, image: &[u8], file_id: u64) -> Result<(), Refusal>
        ensures allows { NewAllows file_id image.now result self.new }
        ensures refused { OnErr result (self.new ≡ zeros) }
    {
        *self = SegmentReader::default();
        if image.len() > LARGEST_IMAGE {
            return Err(Refusal::OutOfRange);
        }
        let version_info_length = u64::from(header_of(image)?);
        *self = SegmentReader {
            file_id,
            size: image.len() as u64,
            version_info_length,
            place: 5 + version_info_length,
            valid_until: 5 + version_info_length,
            moment: Moment::Between,
        };
        Ok(())
    }

    /// The next entry, or the end; what is left of a current entry is skipped. Refused with `OutOfRange`; with `Cut` where a chunk's header is cut on the
    /// way, and then the place is the image's end, and no entry is current.
    #[tactic(auto, unfolding(crate::specs::Calls::read_entry, crate::specs::Calls::entry_from, crate::specs::State::start_of, crate::specs::State::leaving), using(crate::proofs::Bounds::chunk_near))]
    pub fn read_entry(&mut self, image: &[u8]) -> Result<Option<EntryId>, Refusal>
        ensures allows { ReadEntryAllows self.old image.now result self.new }
        ensures kept { IsKept self.old result self.new }
    {
        if !self.fits(image) {
            return Err(Refusal::OutOfRange);
        }
        match self.moment {
            Moment::Ended => Ok(None),
            Moment::Between => Ok(self.enter(image, self.place)),
            Moment::InEntry { id } => self.enter_past(image, id, self.place),
            Moment::InChunk {
                id,
                mark,
                length,
                ..
            } => self.enter_past(image, id, mark + 9 + u64::from(length)),
        }
    }

    /// The next chunk of the current entry, its end, or that it is aborted. Refused with `OutOfRange`, `NotNow`; with `Cut` where the chunk's header is
    /// cut, and then the place is the image's end, and no entry is current.
    #[tactic(auto, unfolding(crate::specs::Calls::read_chunk, crate::specs::Calls::chunk_from, crate::specs::Calls::chunk_met), using(reading::proofs::Bounds::chunk_inside, reading::proofs::Bounds::close_inside))]
    pub fn read_chunk(&mut self, image: &[u8]) -> Result<ReadChunkResult, Refusal>
        ensures allows { ReadChunkAllows self.old image.now result self.new }
        ensures kept { IsKept self.old result self.new }
    {
        let (id, place) = self.current(image)?;
        match look_at(image, place) {
            Mark::Chunk { length } => {
                self.place = place + 5;
                self.moment = Moment::InChunk {
                    id,
                    mark: place,
                    length,
                    owed: length,
                };
                Ok(ReadChunkResult::Chunk {
                    mark: place,
                    length,
                })
            }
            Mark::Cut { lacks } => {
                let cut = header_cut(place, lacks);
                let contents = Contents::Cut(cut);
                let place = image.len() as u64;
                self.rest(id, Whole { contents, place });
                Err(Refusal::Cut(cut))
            }
            Mark::Close => {
                let contents = Contents::Complete { chunks: 0 };
                let place = place + 1;
                self.rest(id, Whole { contents, place });
                Ok(ReadChunkResult::EndOfEntry)
            }
            Mark::Other => {
                let contents = Contents::Aborted;
                self.rest(id, Whole { contents, place });
                Ok(ReadChunkResult::AbortedEntry)
            }
        }
    }

    // The test and the pattern at the head of `read`, `check_crc` and `skip_remaining_bytes` stand in each: one function for the three would hand out a row
    // of four numbers, of which each takes its own, and would be no plainer.

    /// The bytes of the open chunk from the place on, at most so many as are asked for, owed and present: a part of the image, for as long as the image
    /// is lent. Refused with `OutOfRange`, `NotNow`.
    #[tactic(auto, unfolding(crate::specs::Calls::read, crate::specs::Calls::read_in, crate::specs::Calls::read_bytes, crate::specs::Calls::bytes_in, crate::specs::State::open_of, crate::specs::State::holding))]
    pub fn read<'a>(&mut self, image: &'a [u8], asked: u64) -> Result<Part<'a>, Refusal>
        ensures allows { ReadAllows self.old image.entry.now asked result self.new }
        ensures refused { OnErr result (self.new ≡ self.old) }
    {
        if !self.fits(image) {
            return Err(Refusal::OutOfRange);
        }
        let Moment::InChunk {
            id,
            mark,
            length,
            owed,
        } = self.moment
        else {
            return Err(Refusal::NotNow);
        };
        // by a name: the place before the call is answered, and the state moves on
        let place = self.place;
        let present = (image.len() as u64).saturating_sub(place);
        let count = handed_out(asked, owed, present);
        self.place = place + u64::from(count);
        self.moment = Moment::InChunk {
            id,
            mark,
            length,
            owed: owed - count,
        };
        Ok(Part {
            place,
            bytes: part_of(image, place, u64::from(count)),
        })
    }

    /// The same bytes alone, empty beside a refusal; the reader stays.
    pub fn part<'a>(&self, image: &'a [u8], asked: u64) -> &'a [u8]
        ensures { PartAllows self.now image.entry.now asked result.now }
    {
        // Kept beside `read`: the bytes alone are promised by a call that cannot fail (`PartAllows`).
        let mut reader = *self;
        match reader.read(image, asked) {
            Ok(part) => part.bytes,
            Err(_) => &image[..0],
        }
    }

    /// Whether the open chunk's stored CRC is that of its data. Refused with `OutOfRange`, `NotNow`, this also while bytes are owed, and with `Cut` where
    /// the CRC is cut. Nothing moves.
    #[tactic(auto, unfolding(crate::specs::Calls::check_crc, crate::specs::Calls::check_in, crate::specs::Calls::check_at, reading::specs::Reading::checked, crate::specs::State::open_of, crate::specs::State::holding), using(crate::proofs::Bounds::chunk_near))]
    pub fn check_crc(&self, image: &[u8]) -> Result<bool, Refusal>
        ensures { CheckCrcAllows self.now image.now result }
    {
        if !self.fits(image) {
            return Err(Refusal::OutOfRange);
        }
        let Moment::InChunk {
            mark,
            length,
            owed,
            ..
        } = self.moment
        else {
            return Err(Refusal::NotNow);
        };
        if owed > 0 {
            return Err(Refusal::NotNow);
        }
        checked_at(image, mark, length).map_err(Refusal::Cut)
    }

    /// Leaves the open chunk, for the place behind its CRC, which is not checked. Refused with `OutOfRange`, `NotNow`.
    #[tactic(auto, unfolding(crate::specs::Calls::skip_remaining, crate::specs::Calls::skip_in, crate::specs::State::open_of, crate::specs::State::holding), using(crate::proofs::Bounds::chunk_near))]
    pub fn skip_remaining_bytes(&mut self, image: &[u8]) -> Result<(), Refusal>
        ensures allows { SkipAllows self.old image.now result self.new }
        ensures refused { OnErr result (self.new ≡ self.old) }
    {
        if !self.fits(image) {
            return Err(Refusal::OutOfRange);
        }
        match self.moment {
            Moment::InChunk {
                id,
                mark,
                length,
                ..
            } => {
                self.place = mark + 9 + u64::from(length);
                self.moment = Moment::InEntry { id };
                Ok(())
            }
            Moment::Between | Moment::InEntry { .. } | Moment::Ended => Err(Refusal::NotNow),
        }
    }

    /// The rest of the current entry, each chunk's CRC checked: where its chunks begin and how many there are, or that it is aborted. Refused with
    /// `OutOfRange`, `NotNow`; with `Cut` where a chunk is cut and `WrongSum` where a stored CRC differs, and then the reader has moved on.
    #[tactic(auto, unfolding(crate::specs::Calls::read_all_chunks, crate::specs::Calls::whole_from, crate::specs::Calls::whole_reply))]
    pub fn read_all_chunks(&mut self, image: &[u8]) -> Result<WholeEntry, Refusal>
        ensures allows { ReadAllChunksAllows self.old image.now result self.new }
        ensures kept { IsKept self.old result self.new }
    {
        let (id, place) = self.current(image)?;
        let whole = whole_from(image, place);
        self.rest(id, whole);
        match whole.contents {
            Contents::Complete { chunks } => Ok(WholeEntry::Whole { place, chunks }),
            Contents::Aborted => Ok(WholeEntry::Aborted),
            Contents::Cut(cut) => Err(Refusal::Cut(cut)),
            Contents::WrongSum => Err(Refusal::WrongSum),
        }
    }

    /// The version info that the reader found: a part of the image, empty where the state is not one for it.
    #[tactic(auto, unfolding(crate::specs::Calls::version_info))]
    pub fn version_info<'a>(&self, image: &'a [u8]) -> &'a [u8]
        ensures { VersionInfoAllows self.now image.entry.now result.now }
    {
        if !self.fits(image) {
            return &image[..0];
        }
        part_of(image, 5, self.version_info_length)
    }
}
