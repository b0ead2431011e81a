//! The pieces of a segment (okaywal's entry.rs): marks, ids, positions and chunk records, and why a call is refused. The bytes of header, chunk, entry
//! and segment are specs/Format.
#![tactic(auto)]

ghost use Rattle.std.specs.Prelude.{◌≡◌, OnErr};
ghost use Rattle.entry.specs.Format.{chunk_sum};
ghost use Rattle.entry.specs.Position.{SerializeAllows, DeserializeAllows};
ghost use Rattle.entry.specs.Refusal.{refusal_number};

use std::error::Error;
use std::fmt;

// The marks are bytes, and no enum: they are what the definitions `entry` and `chunk` of specs/Format lay down, and an image may have any byte in their
// place. What a byte means where it stands is the enum `Mark` of reading.

/// The mark before an entry.
pub const NEW_ENTRY: u8 = 1;

/// The mark before a chunk.
pub const CHUNK: u8 = 2;

/// The mark behind an entry's last chunk.
pub const END_OF_ENTRY: u8 = 3;

/// The largest image that a segment may have.
pub const LARGEST_IMAGE: usize = 1_048_576;

/// The id of an entry.
pub type EntryId = u64;

/// The part of a chunk that the image's end cuts.
#[derive(Clone, Copy, Debug, PartialEq, Eq, Hash)]
pub enum CutPart {
    Header,
    Data,
    Crc,
}

/// A chunk that is cut: in which part, the offset of its 02, and how many bytes that part lacks.
#[derive(Clone, Copy, Debug, PartialEq, Eq, Hash)]
pub struct ChunkCut {
    pub part: CutPart,
    pub mark: u64,
    pub lacks: u64,
}

/// Why a call was refused. The numbers are a contract with callers in C.
#[derive(Clone, Copy, Debug, PartialEq, Eq, Hash)]
pub enum Refusal {
    Short,
    Magic,
    Version,
    InfoTooLong,
    NoRoom,
    NotNow,
    LowId,
    BytesOwed,
    Cut(ChunkCut),
    WrongSum,
    OutsideImage,
    OutOfRange,
}

impl Refusal {
    // A match, and no cast: `Cut` holds a value, and Rust casts no such enum.

    /// The number that stands for it.
    pub fn number(self) -> u8
        ensures { result ≡ refusal_number self }
    {
        match self {
            Refusal::Short => 1,
            Refusal::Magic => 2,
            Refusal::Version => 3,
            Refusal::InfoTooLong => 4,
            Refusal::NoRoom => 5,
            Refusal::NotNow => 6,
            Refusal::LowId => 7,
            Refusal::BytesOwed => 8,
            Refusal::Cut(_) => 9,
            Refusal::WrongSum => 10,
            Refusal::OutsideImage => 11,
            Refusal::OutOfRange => 12,
        }
    }
}

impl From<Refusal> for u8 {
    ghost from_gives = { λ refusal number. number ≡ refusal_number refusal };

    fn from(refusal: Refusal) -> u8 {
        refusal.number()
    }
}

impl fmt::Display for Refusal {
    ghost use Rattle.std.specs.Prelude.{Some};
    ghost use Rattle.entry.specs.RefusalText.{refusal_text};

    ghost output = { λ refusal. Some (refusal_text refusal) };

    fn fmt<W: fmt::Write>(&self, f: &mut fmt::Formatter<W>) -> fmt::Result {
        f.write_str(match self {
            Refusal::Short =>
                "fewer than 5 header bytes, or fewer than the version info's length after them",
            Refusal::Magic => "the first three header bytes differ",
            Refusal::Version => "the fourth header byte is not 0",
            Refusal::InfoTooLong => "version info longer than 255",
            Refusal::NoRoom => "no room",
            Refusal::NotNow => "the call does not belong to the present moment",
            Refusal::LowId => "entry id below the segment id",
            Refusal::BytesOwed => "a chunk is finished with bytes still owed",
            Refusal::Cut(_) => "a chunk's header, data or CRC is cut by the image's end",
            Refusal::WrongSum => "stored CRC differs, in reading a whole entry",
            Refusal::OutsideImage => "a seek lands below 0 or past the image size",
            Refusal::OutOfRange => "an argument outside its range",
        })
    }
}

impl Error for Refusal {}

/// The position of a chunk: that of its 02.
#[derive(Clone, Copy, Debug, PartialEq, Eq, PartialOrd, Ord, Hash)]
pub struct LogPosition {
    pub file_id: u64,
    pub offset: u64,
}

/// A chunk that was written.
#[derive(Clone, Copy, Debug, PartialEq, Eq)]
pub struct ChunkRecord {
    pub position: LogPosition,
    pub crc: u32,
    pub length: u32,
}

impl LogPosition {
    pub const SERIALIZED_LENGTH: usize = 16;

    // okaywal's names, under which PROMISES and the laws `serialize-one-answer` and `deserialize-one-answer` speak of both: no From and no TryFrom.

    /// Stores the 16 bytes of the position at the start of destination. Refused with `NoRoom` where destination is shorter; of a longer one, bytes 16
    /// and on stay.
    #[tactic(auto, unfolding(crate::specs::Position::serialized, crate::specs::Position::position_bytes), using(crate::proofs::Returns::halves))]
    pub fn serialize_to(self, destination: &mut [u8]) -> Result<(), Refusal>
        ensures allows { SerializeAllows self destination.old result destination.new }
        ensures refused { OnErr result (destination.new ≡ destination.old) }
    {
        if destination.len() < LogPosition::SERIALIZED_LENGTH {
            return Err(Refusal::NoRoom);
        }
        lists::copy_at(destination, 0, &lists::u64_bytes(self.file_id));
        lists::copy_at(destination, 8, &lists::u64_bytes(self.offset));
        Ok(())
    }

    /// The position in the first 16 bytes of read. Refused with `Short` where there are fewer.
    #[tactic(auto, unfolding(crate::specs::Position::deserialized))]
    pub fn deserialize_from(read: &[u8]) -> Result<LogPosition, Refusal>
        ensures { DeserializeAllows read.now result }
    {
        if read.len() < LogPosition::SERIALIZED_LENGTH {
            return Err(Refusal::Short);
        }
        Ok(LogPosition {
            file_id: lists::u64_at(read, 0),
            offset: lists::u64_at(read, 8),
        })
    }
}

/// The sum of a chunk of so many bytes with this data.
#[tactic(auto, unfolding(crate::specs::Format::chunk_sum, crate::specs::Format::covered))]
pub fn chunk_sum(length: u32, contents: &[u8]) -> u32
    ensures { result ≡ chunk_sum length contents.now }
{
    crc32c::append(0, contents)
}
