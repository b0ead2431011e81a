//! Opening a writer: the one call that writes the version info.
ghost use Rattle.okaywal_segment.specs.OpeningCrossing.{request, OpenAllows};

use crate::words::{number_of, put};
use crate::writer_words::{INFO_BYTES, STATE_WORDS, last_from, words_of};
use entry::Refusal;
use log_file::LogFileWriter;
use log_file::opening::Terms;

/// Opens a segment. Refused with 12 where state or info is too short, and nothing is stored; with 12 for a number out of its range, 4 for a version info
/// over 255 bytes, 5 where padding or header has no room: state and info are then zeros, and the buffers stay.
// Eleven parameters: the C interface lends the slices and tells the numbers one by one (include/okaywal_segment.h).
#[tactic(auto, unfolding(crate::specs::OpeningCrossing::started, crate::specs::OpeningCrossing::opening_of))]
pub fn okw_writer_open(
    state: &mut [u64],
    info: &mut [u8],
    image: &mut [u8],
    staging: &mut [u8],
    version_info: &[u8],
    id: u64,
    last_known: u64,
    last_id: u64,
    validated_length: u64,
    file_length: u64,
    preallocate: u64,
) -> u64
    ensures { OpenAllows state.old info.old image.old staging.old (request version_info.now id last_known last_id validated_length file_length preallocate) result state.new info.new image.new staging.new }
{
    if state.len() < STATE_WORDS || info.len() < INFO_BYTES {
        return Refusal::OutOfRange.number().into();
    }
    let mut writer = LogFileWriter::default();
    let opened = match last_from(last_known, last_id) {
        Some(last) => {
            let terms = Terms {
                id,
                last,
                version_info,
                validated_length,
                file_length,
                preallocate,
            };
            writer.open(terms, image, staging)
        }
        None => Err(Refusal::OutOfRange),
    };
    put(state, &words_of(&writer));
    lists::copy_at(info, 0, &writer.info);
    number_of(opened)
}
