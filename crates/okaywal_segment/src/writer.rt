//! The writer's calls. Each is refused with 12 where a slice is too short, before all else, and nothing is stored anywhere; with 12 where a word is out
//! of its range; and as the call itself is. An accepted one writes every state word anew. A refused one changes no state word and no byte of a buffer.
#![tactic(auto, using(crate::proofs::Ways::answered, crate::proofs::Ways::unanswered))]

ghost use Rattle.std.specs.Prelude.{◌≡◌, []};
ghost use Rattle.lists.specs.Answers.{accepted};
ghost use Rattle.log_file.specs.Calls.{landing};
ghost use Rattle.log_file.specs.Step.{call_of, reply_values};
ghost use Rattle.okaywal_segment.specs.Words.{answer_words};
ghost use Rattle.okaywal_segment.specs.Steps.{enough};
ghost use Rattle.okaywal_segment.specs.Crossing.{left, WriterAllows};
ghost use Rattle.okaywal_segment.specs.WriterSteps.{CalledAllows, LandedAllows, crossed_bare, crossed_by};
ghost use Rattle.okaywal_segment.specs.WriterPromises.{BeginAllows, BeginChunkAllows, WriteAllows, FinishAllows, CommitAllows, RollbackAllows, RecycleAllows, FlushAllows, SyncAllows, LandStartAllows, LandEndAllows, LandCurrentAllows};

use crate::words::{ANSWER_WORDS, number_of, put, tell};
use crate::writer_words::{INFO_BYTES, STATE_WORDS, load, words_of};
use entry::Refusal;
use log_file::calls::{Call, Reply};
use std::io::SeekFrom;

// The words of an answer, 0 behind those that the call reports.
fn reply_words(reply: Reply) -> [u64; 4]
    ensures { result ≡ answer_words (accepted (reply_values reply)) }
{
    match reply {
        Reply::Done => [0; 4],
        Reply::Taken(count) => [count as u64, 0, 0, 0],
        Reply::Chunk(chunk) => [
            chunk.position.file_id,
            chunk.position.offset,
            chunk.crc.into(),
            chunk.length.into(),
        ],
        Reply::Entry(entry) => [entry.id, entry.position as u64, 0, 0],
        Reply::Place(place) => [place, 0, 0, 0],
    }
}

// The twelve functions below stay, each for its call: they are public, and C knows them by name. So the four slices come one by one; a struct of them would
// be put together in all twelve, for the few functions here that pass them on. Those of reader.rt are lent other slices, and store on other refusals:
// what the two have in common is `tell` and `number_of` of words.

// Words to a state, one call, a state to words. Inlined with what it calls, so that each export is made for its one call: without it the three calls of a
// 64-byte chunk took a quarter longer (tried on an earlier form of this crate).
#[inline(always)]
fn called(
    state: &mut [u64],
    info: &[u8],
    image: &mut [u8],
    staging: &mut [u8],
    call: Call<'_>,
) -> Result<Reply, Refusal>
    ensures { CalledAllows (call_of call.entry) state.old info.now image.old staging.old result state.new image.new staging.new }
{
    let mut writer = load(state, info)?;
    let reply = writer.step(image, staging, call)?;
    put(state, &words_of(&writer));
    Ok(reply)
}

// The same for a call with no answer.
#[inline(always)]
fn carry_out(
    state: &mut [u64],
    info: &[u8],
    image: &mut [u8],
    staging: &mut [u8],
    call: Call<'_>,
) -> u64
    ensures { left result state.new image.new staging.new [] ≡ crossed_bare (call_of call.entry) state.old info.now image.old staging.old }
{
    number_of(called(state, info, image, staging, call))
}

// Whether no slice is too short for a call with an answer.
fn are_lent(state: &[u64], info: &[u8], answer: &[u64]) -> bool
    ensures { result ≡ enough 4 state.now info.now answer.now }
{
    STATE_WORDS <= state.len() && INFO_BYTES <= info.len() && ANSWER_WORDS <= answer.len()
}

// The same for a call with an answer, of which nothing is stored where a slice is too short.
#[inline(always)]
fn answering(
    state: &mut [u64],
    info: &[u8],
    image: &mut [u8],
    staging: &mut [u8],
    call: Call<'_>,
    answer: &mut [u64],
) -> u64
    ensures { left result state.new image.new staging.new answer.new ≡ crossed_by 4 (call_of call.entry) state.old info.now image.old staging.old answer.old }
{
    if !are_lent(state, info, answer) {
        return Refusal::OutOfRange.number().into();
    }
    tell(
        called(state, info, image, staging, call).map(reply_words),
        answer,
    )
}

/// Begins an entry. Refused with 12, 6 unless idle, 7 where the id is below the segment's, 5 where there is no room.
pub fn okw_writer_begin(
    state: &mut [u64],
    info: &[u8],
    image: &mut [u8],
    staging: &mut [u8],
    entry_id: u64,
) -> u64
    ensures { BeginAllows state.old info.now image.old staging.old entry_id result state.new image.new staging.new }
{
    carry_out(state, info, image, staging, Call::BeginEntry(entry_id))
}

/// Begins a chunk of length bytes. Refused with 12, 6 unless in an entry with no chunk open, 5 where there is no room.
pub fn okw_writer_begin_chunk(
    state: &mut [u64],
    info: &[u8],
    image: &mut [u8],
    staging: &mut [u8],
    length: u32,
) -> u64
    ensures { BeginChunkAllows state.old info.now image.old staging.old length result state.new image.new staging.new }
{
    carry_out(state, info, image, staging, Call::BeginChunk(length))
}

/// Takes the first min(offered, owed) bytes, and answers their number. Refused with 12, 6 unless in a chunk.
pub fn okw_writer_write(
    state: &mut [u64],
    info: &[u8],
    image: &mut [u8],
    staging: &mut [u8],
    bytes: &[u8],
    answer: &mut [u64],
) -> u64
    ensures { WriteAllows state.old info.now image.old staging.old bytes.now answer.old result state.new image.new staging.new answer.new }
{
    answering(state, info, image, staging, Call::Write(bytes), answer)
}

/// Finishes the open chunk: file id, offset of the 02, CRC, length. Refused with 12, 6 unless in a chunk, 8 with bytes owed.
pub fn okw_writer_finish(
    state: &mut [u64],
    info: &[u8],
    image: &mut [u8],
    staging: &mut [u8],
    answer: &mut [u64],
) -> u64
    ensures { FinishAllows state.old info.now image.old staging.old answer.old result state.new image.new staging.new answer.new }
{
    answering(state, info, image, staging, Call::Finish, answer)
}

/// Commits the entry: its id, and the logical position behind it. Refused with 12, 6 unless in an entry with no chunk open.
pub fn okw_writer_commit(
    state: &mut [u64],
    info: &[u8],
    image: &mut [u8],
    staging: &mut [u8],
    answer: &mut [u64],
) -> u64
    ensures { CommitAllows state.old info.now image.old staging.old answer.old result state.new image.new staging.new answer.new }
{
    answering(state, info, image, staging, Call::Commit, answer)
}

/// Goes back to the entry's start, also from inside a chunk. Refused with 12, 6 when idle.
pub fn okw_writer_rollback(
    state: &mut [u64],
    info: &[u8],
    image: &mut [u8],
    staging: &mut [u8],
) -> u64
    ensures { RollbackAllows state.old info.now image.old staging.old result state.new image.new staging.new }
{
    carry_out(state, info, image, staging, Call::Rollback)
}

/// Begins the segment anew under another id. Refused with 12, 6 unless idle.
pub fn okw_writer_recycle(
    state: &mut [u64],
    info: &[u8],
    image: &mut [u8],
    staging: &mut [u8],
    new_id: u64,
) -> u64
    ensures { RecycleAllows state.old info.now image.old staging.old new_id result state.new image.new staging.new }
{
    carry_out(state, info, image, staging, Call::Recycle(new_id))
}

/// Staged bytes go to the image. Refused with 12.
pub fn okw_writer_flush(state: &mut [u64], info: &[u8], image: &mut [u8], staging: &mut [u8]) -> u64
    ensures { FlushAllows state.old info.now image.old staging.old result state.new image.new staging.new }
{
    carry_out(state, info, image, staging, Call::Flush)
}

/// Notes that everything below target is on the device, after a flush where that is wanted. Refused with 12.
pub fn okw_writer_sync(
    state: &mut [u64],
    info: &[u8],
    image: &mut [u8],
    staging: &mut [u8],
    target: u64,
) -> u64
    ensures { SyncAllows state.old info.now image.old staging.old target result state.new image.new staging.new }
{
    carry_out(state, info, image, staging, Call::Synchronize(target))
}

// Where a seek lands, of a state that is told by words.
fn landed(
    state: &[u64],
    info: &[u8],
    image: &[u8],
    staging: &[u8],
    from: SeekFrom,
) -> Result<[u64; 4], Refusal>
    ensures { LandedAllows from state.now info.now image.now staging.now result }
{
    let place = load(state, info)?.seek(image, staging, from)?;
    Ok([place, 0, 0, 0])
}

// Nothing moves, and no state word is written.
#[tactic(auto, unfolding(crate::specs::Crossing::crossed))]
fn land(
    state: &[u64],
    info: &[u8],
    image: &[u8],
    staging: &[u8],
    from: SeekFrom,
    answer: &mut [u64],
) -> u64
    ensures { WriterAllows (landing from) state.now info.now image.now staging.now answer.old result state.now image.now staging.now answer.new }
{
    if !are_lent(state, info, answer) {
        return Refusal::OutOfRange.number().into();
    }
    tell(landed(state, info, image, staging, from), answer)
}

/// Where a seek to place lands. Refused with 12, 11 past the image size.
pub fn okw_writer_land_start(
    state: &[u64],
    info: &[u8],
    image: &[u8],
    staging: &[u8],
    place: u64,
    answer: &mut [u64],
) -> u64
    ensures { LandStartAllows state.now info.now image.now staging.now place answer.old result answer.new }
{
    land(state, info, image, staging, SeekFrom::Start(place), answer)
}

/// Where a seek by offset from the file length lands. Refused with 12, 11 below 0 or past the image size.
pub fn okw_writer_land_end(
    state: &[u64],
    info: &[u8],
    image: &[u8],
    staging: &[u8],
    offset: i64,
    answer: &mut [u64],
) -> u64
    ensures { LandEndAllows state.now info.now image.now staging.now offset answer.old result answer.new }
{
    land(state, info, image, staging, SeekFrom::End(offset), answer)
}

/// Where a seek by offset from the logical position lands. Refused with 12, 11 below 0 or past the image size.
pub fn okw_writer_land_current(
    state: &[u64],
    info: &[u8],
    image: &[u8],
    staging: &[u8],
    offset: i64,
    answer: &mut [u64],
) -> u64
    ensures { LandCurrentAllows state.now info.now image.now staging.now offset answer.old result answer.new }
{
    land(
        state,
        info,
        image,
        staging,
        SeekFrom::Current(offset),
        answer,
    )
}
