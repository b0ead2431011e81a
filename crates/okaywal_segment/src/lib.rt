//! The boundary for C and Rust (include/okaywal_segment.h): words in, one covered call, words out. No function requires anything, and none traps: any
//! words, any bytes. Here: the sum and positions.
#![tactic(auto)]

ghost use Rattle.crc32c.specs.Crc.{AppendAllows};
ghost use Rattle.entry.specs.Position.{deserialized};
ghost use Rattle.okaywal_segment.specs.Words.{Tells};
ghost use Rattle.okaywal_segment.specs.Positions.{PositionWriteAllows, PositionReadAllows};

pub mod laws;
pub mod opening;
pub mod reader;
mod reader_words;
mod words;
pub mod writer;
mod writer_words;

use entry::{LogPosition, Refusal};
use words::{ANSWER_WORDS, number_of, tell};

/// The sum continued from a finished sum, 0 for none yet.
pub fn okw_crc32c_append(crc: u32, bytes: &[u8]) -> u32
    ensures { AppendAllows crc bytes.now result }
{
    crc32c::append(crc, bytes)
}

/// Stores the position in the first 16 bytes. Refused with 5, and nothing stored, where there are fewer.
pub fn okw_position_write(file_id: u64, offset: u64, buf: &mut [u8]) -> u64
    ensures { PositionWriteAllows file_id offset buf.old result buf.new }
{
    number_of(LogPosition { file_id, offset }.serialize_to(buf))
}

// A position's file id and offset, in the words of an answer.
#[tactic(auto, unfolding(entry::specs::Position::deserialized))]
fn position_words(buf: &[u8]) -> Result<[u64; 4], Refusal>
    ensures { Tells result (deserialized buf.now) }
{
    let position = LogPosition::deserialize_from(buf)?;
    Ok([position.file_id, position.offset, 0, 0])
}

/// Answers file id and offset. Refused with 12, and nothing stored, where the answer is too short; with 1 where there are fewer than 16 bytes.
pub fn okw_position_read(buf: &[u8], answer: &mut [u64]) -> u64
    ensures { PositionReadAllows buf.now answer.old result answer.new }
{
    if answer.len() < ANSWER_WORDS {
        return Refusal::OutOfRange.number().into();
    }
    tell(position_words(buf), answer)
}
