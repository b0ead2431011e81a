//! The reader's calls. The image is lent to be read only. Each is refused with 12 where a slice is too short, before all else, and nothing is stored
//! anywhere; with 12 where a word is out of its range; and as the call itself is. An accepted one, 9 and 10 write every state word anew.
#![tactic(auto, using(crate::proofs::ReaderWays::answered, crate::proofs::ReaderWays::unanswered))]

ghost use Rattle.std.specs.Prelude.{◌≡◌, []};
ghost use Rattle.lists.specs.Answers.{accepted};
ghost use Rattle.okaywal_segment.specs.Steps.{enough_to_read};
ghost use Rattle.segment_reader.specs.Step.{call_of, step_values};
ghost use Rattle.okaywal_segment.specs.Words.{answer_words};
ghost use Rattle.okaywal_segment.specs.ReaderCrossing.{read};
ghost use Rattle.okaywal_segment.specs.ReaderSteps.{CalledAllows, CheckedAllows, crossed_bare, crossed_by};
ghost use Rattle.okaywal_segment.specs.ReaderPromises.{OpenAllows, EntryAllows, ChunkAllows, DataAllows, CheckCrcAllows, SkipAllows, WholeAllows};

use crate::reader_words::{READER_WORDS, load, words_of};
use crate::words::{ANSWER_WORDS, number_of, put, tell};
use entry::Refusal;
use segment_reader::calls::{Call, Reply};
use segment_reader::{ReadChunkResult, SegmentReader, WholeEntry};

// The words of an answer, 0 behind those that the call reports.
fn reply_words(reply: Reply<'_>) -> [u64; 4]
    ensures { result ≡ answer_words (accepted (step_values reply.entry)) }
{
    match reply {
        Reply::Entry(Some(id)) => [1, id, 0, 0],
        Reply::Entry(None) | Reply::Skipped => [0; 4],
        Reply::Chunk(ReadChunkResult::Chunk { mark, length }) => [1, mark, length.into(), 0],
        Reply::Chunk(ReadChunkResult::EndOfEntry) | Reply::Whole(WholeEntry::Aborted) => [
            2, 0, 0, 0,
        ],
        Reply::Chunk(ReadChunkResult::AbortedEntry) => [3, 0, 0, 0],
        Reply::Data(part) => [part.place, part.bytes.len() as u64, 0, 0],
        Reply::Check(right) => [right.into(), 0, 0, 0],
        Reply::Whole(WholeEntry::Whole { place, chunks }) => [1, place, chunks, 0],
    }
}

// Beside the functions of writer.rt, and one public function for each call, for the reasons that stand there.

// Words to a state, one call, a state to words where the call moved it: accepted, or refused at a cut or a wrong sum.
#[tactic(auto, unfolding(segment_reader::specs::Calls::answer_of, segment_reader::specs::Calls::cut_number))]
#[inline(always)]
fn called<'a>(state: &mut [u64], image: &'a [u8], call: Call) -> Result<Reply<'a>, Refusal>
    ensures { CalledAllows (call_of call) state.old image.entry.now result state.new }
{
    let mut reader = load(state)?;
    let told = reader.step(image, call);
    if let Ok(_) | Err(Refusal::Cut(_) | Refusal::WrongSum) = told {
        put(state, &words_of(&reader));
    }
    told
}

// Whether no slice is too short for a call with an answer.
fn are_lent(state: &[u64], answer: &[u64]) -> bool
    ensures { result ≡ enough_to_read 4 state.now answer.now }
{
    READER_WORDS <= state.len() && ANSWER_WORDS <= answer.len()
}

// The same with an answer, of which nothing is stored where a slice is too short.
#[inline(always)]
fn answering(state: &mut [u64], image: &[u8], call: Call, answer: &mut [u64]) -> u64
    ensures { read result state.new answer.new ≡ crossed_by 4 (call_of call) state.old image.now answer.old }
{
    if !are_lent(state, answer) {
        return Refusal::OutOfRange.number().into();
    }
    tell(called(state, image, call).map(reply_words), answer)
}

// The same for a call with no answer.
#[inline(always)]
fn carry_out(state: &mut [u64], image: &[u8], call: Call) -> u64
    ensures { read result state.new [] ≡ crossed_bare (call_of call) state.old image.now }
{
    number_of(called(state, image, call))
}

/// Opens a reader over the image. Refused with 12 where the state is too short, and nothing is stored; with 12, 1, 2, 3, 1, in this order: the state is
/// then zeros, and ended.
#[tactic(auto, unfolding(crate::specs::ReaderCrossing::opened_reader, segment_reader::specs::Calls::answer_of, segment_reader::specs::Calls::cut_number))]
pub fn okw_reader_open(state: &mut [u64], image: &[u8], file_id: u64) -> u64
    ensures { OpenAllows state.old image.now file_id result state.new }
{
    if state.len() < READER_WORDS {
        return Refusal::OutOfRange.number().into();
    }
    let mut reader = SegmentReader::default();
    let opened = reader.open(image, file_id);
    put(state, &words_of(&reader));
    number_of(opened)
}

/// The next entry: 1 and its id; or 0, ended. Refused with 12, 9 where a chunk's header is cut on the way.
pub fn okw_reader_entry(state: &mut [u64], image: &[u8], answer: &mut [u64]) -> u64
    ensures { EntryAllows state.old image.now answer.old result state.new answer.new }
{
    answering(state, image, Call::Entry, answer)
}

/// The next chunk: 1, offset of the 02, length; 2 end of entry; 3 aborted. Refused with 12, 6, 9 where the chunk's header is cut.
pub fn okw_reader_chunk(state: &mut [u64], image: &[u8], answer: &mut [u64]) -> u64
    ensures { ChunkAllows state.old image.now answer.old result state.new answer.new }
{
    answering(state, image, Call::Chunk, answer)
}

/// The open chunk's next bytes, min(asked, owed, present) of them: the place that they begin at, and their number. Refused with 12, 6.
pub fn okw_reader_data(state: &mut [u64], image: &[u8], asked: u64, answer: &mut [u64]) -> u64
    ensures { DataAllows state.old image.now asked answer.old result state.new answer.new }
{
    answering(state, image, Call::Data(asked), answer)
}

// Whether the open chunk's CRC is right, of a state that is told by words.
#[tactic(auto, unfolding(segment_reader::specs::Calls::read_by, segment_reader::specs::Calls::answer_of, segment_reader::specs::Calls::cut_number))]
fn checked(state: &[u64], image: &[u8]) -> Result<[u64; 4], Refusal>
    ensures { CheckedAllows state.now image.now result }
{
    let right = load(state)?.check_crc(image)?;
    Ok([right.into(), 0, 0, 0])
}

/// Whether the open chunk's CRC is right: 1 or 0. Refused with 12, 6, also while bytes are owed, 9 where the CRC is cut. No state word is written.
#[tactic(auto, unfolding(crate::specs::ReaderCrossing::crossed))]
pub fn okw_reader_check_crc(state: &[u64], image: &[u8], answer: &mut [u64]) -> u64
    ensures { CheckCrcAllows state.now image.now answer.old result answer.new }
{
    if !are_lent(state, answer) {
        return Refusal::OutOfRange.number().into();
    }
    tell(checked(state, image), answer)
}

/// Leaves the open chunk. Refused with 12, 6 where there is none.
pub fn okw_reader_skip(state: &mut [u64], image: &[u8]) -> u64
    ensures { SkipAllows state.old image.now result state.new }
{
    carry_out(state, image, Call::Skip)
}

/// The rest of the current entry: 1, the place that it began at, chunks; or 2, aborted. Refused with 12, 6, 9 for any cut, 10 where a CRC differs.
pub fn okw_reader_whole(state: &mut [u64], image: &[u8], answer: &mut [u64]) -> u64
    ensures { WholeAllows state.old image.now answer.old result state.new answer.new }
{
    answering(state, image, Call::Whole, answer)
}
