//! Opening a writer (okaywal's LogFileWriter::new): the file is padded with zeros to the next multiple of the preallocation; a fresh one gets its header.
#![tactic(auto, unfolding(crate::specs::Opening::opened, crate::specs::Opening::open_refusal, crate::specs::Opening::opened_machine, crate::specs::Opening::unheaded, crate::specs::Opening::prepared))]

ghost use Rattle.std.specs.Prelude.{◌≡◌, ◌+◌, ◌≤◌, length, OnErr};
ghost use Rattle.buffered.specs.Staging.{store, Room};
ghost use Rattle.log_file.specs.Opening.{padded, headed, kept};

use crate::file::put_header;
use crate::{LARGEST_STAGING, LogFileWriter, MOST_INFO, Moment};
use buffered::Buffered;
use entry::{EntryId, LARGEST_IMAGE, Refusal};

/// The terms of an opening: the segment's id, the last id that was committed in it, its version info, up to where it is valid, how long its file is, and
/// of which number the file's length is to be a multiple.
#[derive(Clone, Copy, Debug, PartialEq, Eq)]
pub struct Terms<'a> {
    pub id: u64,
    pub last: Option<EntryId>,
    pub version_info: &'a [u8],
    pub validated_length: u64,
    pub file_length: u64,
    pub preallocate: u64,
}

// The file length that the opening makes: max(ceil(validated / preallocate), 1) times preallocate.
#[tactic(auto, unfolding(crate::specs::Opening::padded))]
fn padded_length(validated: u64, preallocate: u64) -> u64
    requires { (1 ≤ preallocate) × (preallocate ≤ 4294967295) × (validated ≤ 1048576) }
    ensures { result ≡ padded validated preallocate }
{
    ((validated + preallocate - 1) / preallocate).max(1) * preallocate
}

// The header, written and flushed, where the opening is fresh. It stores without a test: `open` has tested.
#[tactic(auto, unfolding(crate::specs::Opening::headed))]
fn head(file: &mut Buffered, image: &mut [u8], staging: &mut [u8], info: &[u8], validated: usize)
    requires { Room (store image.old staging.old file.old) 0 × (length info.now ≤ 255) × (file.old.position ≡ validated) × (file.old.staged ≡ 0) × (5 + length info.now ≤ length image.old) }
    ensures { store image.new staging.new file.new ≡ headed info.now validated (store image.old staging.old file.old) }
{
    if validated == 0 {
        put_header(file, image, staging, info);
        file.flush(image, staging);
    }
}

// By hand: derived (tried), it is said field by field, and the search did not get from there to `blank`, which `open` promises of a refused opening.
impl Default for LogFileWriter {
    ghost use Rattle.log_file.specs.Opening.{IsBlank};

    ghost is_default = { IsBlank };

    /// The state of a refused opening: zeros, idle. Every call refuses it.
    fn default() -> Self {
        LogFileWriter {
            id: 0,
            info: [0; 255],
            info_length: 0,
            size: 0,
            capacity: 0,
            file: Buffered::default(),
            last: None,
            moment: Moment::Idle,
        }
    }
}

impl LogFileWriter {
    ghost use Rattle.log_file.specs.Opening.{terms, blank, OpenAllows};

    /// Opens a segment that is valid up to validated_length in a file of file_length bytes. Refused with `OutOfRange` for a number out of its range,
    /// `InfoTooLong`, `NoRoom` for padding or header: the state left is then one of zeros, and the buffers stay.
    pub fn open(
        &mut self,
        opening: Terms<'_>,
        image: &mut [u8],
        staging: &mut [u8],
    ) -> Result<(), Refusal>
        ensures allows { OpenAllows (terms opening.entry.id opening.entry.last opening.entry.version_info.now opening.entry.preallocate) opening.entry.validated_length opening.entry.file_length image.old staging.old result self.new image.new staging.new }
        ensures refused { OnErr result ((self.new ≡ blank) × (image.new ≡ image.old) × (staging.new ≡ staging.old)) }
    {
        *self = LogFileWriter::default();
        let (size, capacity) = (image.len(), staging.len());
        let Terms {
            id,
            last,
            version_info: info,
            validated_length,
            file_length,
            preallocate,
        } = opening;
        if LARGEST_IMAGE < size
            || LARGEST_STAGING < capacity
            || preallocate < 1
            || u64::from(u32::MAX) < preallocate
            || file_length < validated_length
            || (size as u64) < file_length
        {
            return Err(Refusal::OutOfRange);
        }
        if MOST_INFO < info.len() {
            return Err(Refusal::InfoTooLong);
        }
        let padded = padded_length(validated_length, preallocate);
        if (size as u64) < padded || size < 5 + info.len() {
            return Err(Refusal::NoRoom);
        }
        let (padded, validated) = (padded as usize, validated_length as usize);
        let lacking = padded.saturating_sub(file_length as usize);
        buffered::clear(image, file_length as usize, lacking);
        buffered::clear(image, validated, lacking);
        let mut file = Buffered {
            length: padded.max(file_length as usize),
            position: validated,
            staged: 0,
            synchronized: validated,
        };
        head(&mut file, image, staging, info, validated);
        // the version info, and zeros behind it: an array, as in `LogFileWriter`
        let mut all = [0; MOST_INFO];
        lists::copy_at(&mut all, 0, info);
        *self = LogFileWriter {
            id,
            info: all,
            info_length: info.len(),
            size,
            capacity,
            file,
            last,
            moment: Moment::Idle,
        };
        Ok(())
    }
}
