//! The writer's calls.
ghost use Rattle.okaywal_segment.specs.WriterPromises.{BeginAllows, BeginChunkAllows, WriteAllows, FinishAllows, CommitAllows, RollbackAllows, RecycleAllows, FlushAllows, SyncAllows, LandStartAllows, LandEndAllows, LandCurrentAllows};

/// Begins an entry. Refused with 12, 6 unless idle, 7 where the id is below the segment's, 5 where there is no room.
#[unsafe(no_mangle)]
pub extern "C" fn okw_writer_begin(
    state: &mut [u64],
    info: &[u8],
    image: &mut [u8],
    staging: &mut [u8],
    entry_id: u64,
) -> u64
    ensures { BeginAllows state.old info.now image.old staging.old entry_id result state.new image.new staging.new }
{
    okaywal_segment::writer::okw_writer_begin(state, info, image, staging, entry_id)
}

/// Begins a chunk of length bytes. Refused with 12, 6 unless in an entry with no chunk open, 5 where there is no room.
#[unsafe(no_mangle)]
pub extern "C" fn okw_writer_begin_chunk(
    state: &mut [u64],
    info: &[u8],
    image: &mut [u8],
    staging: &mut [u8],
    length: u32,
) -> u64
    ensures { BeginChunkAllows state.old info.now image.old staging.old length result state.new image.new staging.new }
{
    okaywal_segment::writer::okw_writer_begin_chunk(state, info, image, staging, length)
}

/// Takes the first min(offered, owed) bytes, and answers their number. Refused with 12, 6 unless in a chunk.
#[unsafe(no_mangle)]
pub extern "C" fn okw_writer_write(
    state: &mut [u64],
    info: &[u8],
    image: &mut [u8],
    staging: &mut [u8],
    bytes: &[u8],
    answer: &mut [u64],
) -> u64
    ensures { WriteAllows state.old info.now image.old staging.old bytes.now answer.old result state.new image.new staging.new answer.new }
{
    okaywal_segment::writer::okw_writer_write(state, info, image, staging, bytes, answer)
}

/// Finishes the open chunk: file id, offset of the 02, CRC, length. Refused with 12, 6 unless in a chunk, 8 with bytes owed.
#[unsafe(no_mangle)]
pub extern "C" fn okw_writer_finish(
    state: &mut [u64],
    info: &[u8],
    image: &mut [u8],
    staging: &mut [u8],
    answer: &mut [u64],
) -> u64
    ensures { FinishAllows state.old info.now image.old staging.old answer.old result state.new image.new staging.new answer.new }
{
    okaywal_segment::writer::okw_writer_finish(state, info, image, staging, answer)
}

/// Commits the entry: its id, and the logical position behind it. Refused with 12, 6 unless in an entry with no chunk open.
#[unsafe(no_mangle)]
pub extern "C" fn okw_writer_commit(
    state: &mut [u64],
    info: &[u8],
    image: &mut [u8],
    staging: &mut [u8],
    answer: &mut [u64],
) -> u64
    ensures { CommitAllows state.old info.now image.old staging.old answer.old result state.new image.new staging.new answer.new }
{
    okaywal_segment::writer::okw_writer_commit(state, info, image, staging, answer)
}

/// Goes back to the entry's start, also from inside a chunk. Refused with 12, 6 when idle.
#[unsafe(no_mangle)]
pub extern "C" fn okw_writer_rollback(
    state: &mut [u64],
    info: &[u8],
    image: &mut [u8],
    staging: &mut [u8],
) -> u64
    ensures { RollbackAllows state.old info.now image.old staging.old result state.new image.new staging.new }
{
    okaywal_segment::writer::okw_writer_rollback(state, info, image, staging)
}

/// Begins the segment anew under another id. Refused with 12, 6 unless idle.
#[unsafe(no_mangle)]
pub extern "C" fn okw_writer_recycle(
    state: &mut [u64],
    info: &[u8],
    image: &mut [u8],
    staging: &mut [u8],
    new_id: u64,
) -> u64
    ensures { RecycleAllows state.old info.now image.old staging.old new_id result state.new image.new staging.new }
{
    okaywal_segment::writer::okw_writer_recycle(state, info, image, staging, new_id)
}

/// Staged bytes go to the image. Refused with 12.
#[unsafe(no_mangle)]
pub extern "C" fn okw_writer_flush(
    state: &mut [u64],
    info: &[u8],
    image: &mut [u8],
    staging: &mut [u8],
) -> u64
    ensures { FlushAllows state.old info.now image.old staging.old result state.new image.new staging.new }
{
    okaywal_segment::writer::okw_writer_flush(state, info, image, staging)
}

/// Notes that everything below target is on the device, after a flush where that is wanted. Refused with 12.
#[unsafe(no_mangle)]
pub extern "C" fn okw_writer_sync(
    state: &mut [u64],
    info: &[u8],
    image: &mut [u8],
    staging: &mut [u8],
    target: u64,
) -> u64
    ensures { SyncAllows state.old info.now image.old staging.old target result state.new image.new staging.new }
{
    okaywal_segment::writer::okw_writer_sync(state, info, image, staging, target)
}

/// Where a seek to place lands. Refused with 12, 11 past the image size.
#[unsafe(no_mangle)]
pub extern "C" fn okw_writer_land_start(
    state: &[u64],
    info: &[u8],
    image: &[u8],
    staging: &[u8],
    place: u64,
    answer: &mut [u64],
) -> u64
    ensures { LandStartAllows state.now info.now image.now staging.now place answer.old result answer.new }
{
    okaywal_segment::writer::okw_writer_land_start(state, info, image, staging, place, answer)
}

/// Where a seek by offset from the file length lands. Refused with 12, 11 below 0 or past the image size.
#[unsafe(no_mangle)]
pub extern "C" fn okw_writer_land_end(
    state: &[u64],
    info: &[u8],
    image: &[u8],
    staging: &[u8],
    offset: i64,
    answer: &mut [u64],
) -> u64
    ensures { LandEndAllows state.now info.now image.now staging.now offset answer.old result answer.new }
{
    okaywal_segment::writer::okw_writer_land_end(state, info, image, staging, offset, answer)
}

/// Where a seek by offset from the logical position lands. Refused with 12, 11 below 0 or past the image size.
#[unsafe(no_mangle)]
pub extern "C" fn okw_writer_land_current(
    state: &[u64],
    info: &[u8],
    image: &[u8],
    staging: &[u8],
    offset: i64,
    answer: &mut [u64],
) -> u64
    ensures { LandCurrentAllows state.now info.now image.now staging.now offset answer.old result answer.new }
{
    okaywal_segment::writer::okw_writer_land_current(state, info, image, staging, offset, answer)
}
