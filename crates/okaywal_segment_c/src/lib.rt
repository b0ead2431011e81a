//! The C boundary as a static library: each function of include/okaywal_segment.h under its C name. Each calls the function of okaywal_segment that has the
//! same name, and promises the same. Here: the sum and positions.
// The same 23 functions once more: C wants them under these names, and those of okaywal_segment are public functions of Rattle, which stay.
#![tactic(auto)]

ghost use Rattle.crc32c.specs.Crc.{AppendAllows};
ghost use Rattle.okaywal_segment.specs.Positions.{PositionWriteAllows, PositionReadAllows};

pub mod opening;
pub mod reader;
pub mod writer;

/// The sum continued from a finished sum, 0 for none yet.
#[unsafe(no_mangle)]
pub extern "C" fn okw_crc32c_append(crc: u32, bytes: &[u8]) -> u32
    ensures { AppendAllows crc bytes.now result }
{
    okaywal_segment::okw_crc32c_append(crc, bytes)
}

/// Stores the position in the first 16 bytes. Refused with 5, and nothing stored, where there are fewer.
#[unsafe(no_mangle)]
pub extern "C" fn okw_position_write(file_id: u64, offset: u64, buf: &mut [u8]) -> u64
    ensures { PositionWriteAllows file_id offset buf.old result buf.new }
{
    okaywal_segment::okw_position_write(file_id, offset, buf)
}

/// Answers file id and offset. Refused with 12, and nothing stored, where the answer is too short; with 1 where there are fewer than 16 bytes.
#[unsafe(no_mangle)]
pub extern "C" fn okw_position_read(buf: &[u8], answer: &mut [u64]) -> u64
    ensures { PositionReadAllows buf.now answer.old result answer.new }
{
    okaywal_segment::okw_position_read(buf, answer)
}
