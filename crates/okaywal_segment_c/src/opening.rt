//! Opening a writer.
ghost use Rattle.okaywal_segment.specs.OpeningCrossing.{request, OpenAllows};

/// Opens a segment. Refused with 12 where state or info is too short, and nothing is stored; with 12 for a number out of its range, 4 for a version info
/// over 255 bytes, 5 where padding or header has no room: state and info are then zeros, and the buffers stay.
#[unsafe(no_mangle)]
pub extern "C" fn okw_writer_open(
    state: &mut [u64],
    info: &mut [u8],
    image: &mut [u8],
    staging: &mut [u8],
    version_info: &[u8],
    id: u64,
    last_known: u64,
    last_id: u64,
    validated_length: u64,
    file_length: u64,
    preallocate: u64,
) -> u64
    ensures { OpenAllows state.old info.old image.old staging.old (request version_info.now id last_known last_id validated_length file_length preallocate) result state.new info.new image.new staging.new }
{
    okaywal_segment::opening::okw_writer_open(
        state,
        info,
        image,
        staging,
        version_info,
        id,
        last_known,
        last_id,
        validated_length,
        file_length,
        preallocate,
    )
}
