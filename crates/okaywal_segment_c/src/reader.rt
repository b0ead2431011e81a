//! The reader's calls. The image is lent to be read only.
ghost use Rattle.okaywal_segment.specs.ReaderPromises.{OpenAllows, EntryAllows, ChunkAllows, DataAllows, CheckCrcAllows, SkipAllows, WholeAllows};

/// Opens a reader over the image. Refused with 12 where the state is too short, and nothing is stored; with 12, 1, 2, 3, 1, in this order: the state is
/// then zeros, and ended.
#[unsafe(no_mangle)]
pub extern "C" fn okw_reader_open(state: &mut [u64], image: &[u8], file_id: u64) -> u64
    ensures { OpenAllows state.old image.now file_id result state.new }
{
    okaywal_segment::reader::okw_reader_open(state, image, file_id)
}

/// The next entry: 1 and its id; or 0, ended. Refused with 12, 9 where a chunk's header is cut on the way.
#[unsafe(no_mangle)]
pub extern "C" fn okw_reader_entry(state: &mut [u64], image: &[u8], answer: &mut [u64]) -> u64
    ensures { EntryAllows state.old image.now answer.old result state.new answer.new }
{
    okaywal_segment::reader::okw_reader_entry(state, image, answer)
}

/// The next chunk: 1, offset of the 02, length; 2 end of entry; 3 aborted. Refused with 12, 6, 9 where the chunk's header is cut.
#[unsafe(no_mangle)]
pub extern "C" fn okw_reader_chunk(state: &mut [u64], image: &[u8], answer: &mut [u64]) -> u64
    ensures { ChunkAllows state.old image.now answer.old result state.new answer.new }
{
    okaywal_segment::reader::okw_reader_chunk(state, image, answer)
}

/// The open chunk's next bytes, min(asked, owed, present) of them: the place that they begin at, and their number. Refused with 12, 6.
#[unsafe(no_mangle)]
pub extern "C" fn okw_reader_data(
    state: &mut [u64],
    image: &[u8],
    asked: u64,
    answer: &mut [u64],
) -> u64
    ensures { DataAllows state.old image.now asked answer.old result state.new answer.new }
{
    okaywal_segment::reader::okw_reader_data(state, image, asked, answer)
}

/// Whether the open chunk's CRC is right: 1 or 0. Refused with 12, 6, also while bytes are owed, 9 where the CRC is cut. No state word is written.
#[unsafe(no_mangle)]
pub extern "C" fn okw_reader_check_crc(state: &[u64], image: &[u8], answer: &mut [u64]) -> u64
    ensures { CheckCrcAllows state.now image.now answer.old result answer.new }
{
    okaywal_segment::reader::okw_reader_check_crc(state, image, answer)
}

/// Leaves the open chunk. Refused with 12, 6 where there is none.
#[unsafe(no_mangle)]
pub extern "C" fn okw_reader_skip(state: &mut [u64], image: &[u8]) -> u64
    ensures { SkipAllows state.old image.now result state.new }
{
    okaywal_segment::reader::okw_reader_skip(state, image)
}

/// The rest of the current entry: 1, the place that it began at, chunks; or 2, aborted. Refused with 12, 6, 9 for any cut, 10 where a CRC differs.
#[unsafe(no_mangle)]
pub extern "C" fn okw_reader_whole(state: &mut [u64], image: &[u8], answer: &mut [u64]) -> u64
    ensures { WholeAllows state.old image.now answer.old result state.new answer.new }
{
    okaywal_segment::reader::okw_reader_whole(state, image, answer)
}
