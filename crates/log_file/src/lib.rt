//! The segment writer (okaywal's log_file.rs and entry.rs): the state in one value, image and staging lent. Every call answers any state, any buffers
//! and any arguments: with what it did, or with why it is refused, and then nothing has changed. A refused
//! opening leaves a state of zeros.
#![tactic(auto)]

ghost use Rattle.std.specs.Prelude.{◌≡◌, length, ◌+◌, leb, IfOk, IfErr, true, false};
ghost use Rattle.entry.specs.declared.Refusal.TheVariants.{OutOfRange};
ghost use Rattle.lists.specs.Answers.{all};

use buffered::Buffered;
use entry::{EntryId, LARGEST_IMAGE, Refusal};

pub mod calls;
pub mod entries;
pub mod file;
pub mod laws;
pub mod opening;
pub mod segment;

/// The largest staging.
pub const LARGEST_STAGING: usize = 65_536;

/// The longest version info.
pub const MOST_INFO: usize = 255;

// Kept: three cases, two of them with numbers, have neither Option's nor Result's shape.
/// Idle, in an entry that knows its start, or in a chunk that knows its length, its entry, the bytes it owes and the sum of those it got.
#[derive(Clone, Copy, Debug, PartialEq, Eq)]
pub enum Moment {
    Idle,
    InEntry {
        id: EntryId,
        start: usize,
    },
    InChunk {
        id: EntryId,
        start: usize,
        length: u32,
        owed: u32,
        crc: u32,
    },
}

/// A writer's whole state; the bytes are in the image and the staging, which are lent.
// With no invariant: any numbers may stand in it, and every call answers them (`refused-keeps`, `valid-stays`).
#[derive(Clone, Copy, Debug, PartialEq, Eq)]
pub struct LogFileWriter {
    /// The segment's id.
    pub id: u64,
    // An array with its length beside it: no heap below the programs, and what C lends are 255 bytes and a length.
    /// The version info: its first bytes, as many as the next number says.
    pub info: [u8; 255],
    pub info_length: usize,
    /// The sizes of image and staging at opening.
    pub size: usize,
    pub capacity: usize,
    pub file: Buffered,
    /// The id of the last entry that was committed.
    pub last: Option<EntryId>,
    pub moment: Moment,
}

// Whether a + b is at most limit; the sum is never formed.
fn within(a: usize, b: usize, limit: usize) -> bool
    ensures { result ≡ leb (a + b) limit }
{
    a <= limit && b <= limit - a
}

impl Moment {
    ghost use Rattle.log_file.specs.State.{reserve, open_rules};

    // What an open entry or chunk may still ask for: an end mark; the bytes owed, a sum and an end mark.
    fn reserve(self) -> usize
        ensures { result ≡ reserve self }
    {
        match self {
            Moment::Idle => 0,
            Moment::InEntry { .. } => 1,
            Moment::InChunk { owed, .. } => owed as usize + 5,
        }
    }

    // Whether an open entry or chunk can have begun where it says, at this logical position.
    #[inline(always)]
    fn is_open_at(self, position: usize) -> bool
        ensures { result ≡ all (open_rules self position) }
    {
        match self {
            Moment::Idle => true,
            Moment::InEntry { start, .. } => within(start, 9, position),
            Moment::InChunk {
                start,
                length,
                owed,
                ..
            } => {
                within(start, 9, position)
                    && owed <= length
                    && within(start, 14 + (length - owed) as usize, position)
            }
        }
    }
}

impl LogFileWriter {
    ghost use Rattle.log_file.specs.State.{ruled, valid_with};

    // Whether the state keeps its own rules. Any numbers at all may stand in it: no sum is formed that could wrap.
    #[tactic(auto, unfolding(crate::specs::State::ruled))]
    #[inline(always)]
    fn has_rules(&self) -> bool
        ensures { result ≡ ruled self.now }
    {
        let numbers = self.size <= LARGEST_IMAGE
            && self.capacity <= LARGEST_STAGING
            && self.info_length <= MOST_INFO
            && self.file.staged <= self.capacity
            && self.file.synchronized <= self.file.position
            && self.file.position <= self.file.length
            && self.file.length <= self.size
            && within(5, self.info_length, self.size);
        if !numbers {
            return false;
        }
        let position = self.file.position + self.file.staged;
        within(position, self.moment.reserve(), self.size) && self.moment.is_open_at(position)
    }

    // And the buffers have the sizes at opening.
    #[inline(always)]
    fn is_for(&self, image: &[u8], staging: &[u8]) -> bool
        ensures { result ≡ valid_with self.now (length image.now) (length staging.now) }
    {
        self.has_rules() && image.len() == self.size && staging.len() == self.capacity
    }

    // Refused unless the state keeps its own rules.
    #[inline(always)]
    fn check_rules(&self) -> Result<(), Refusal>
        ensures good { IfOk result (λ _. ruled self.now ≡ true) }
        ensures bad { IfErr result (λ refusal. (refusal ≡ OutOfRange) × (ruled self.now ≡ false)) }
    {
        if self.has_rules() {
            return Ok(());
        }
        Err(Refusal::OutOfRange)
    }

    // Refused unless, besides, the buffers are those: at the head of each call.
    #[inline(always)]
    fn check(&self, image: &[u8], staging: &[u8]) -> Result<(), Refusal>
        ensures good { IfOk result (λ _. valid_with self.now (length image.now) (length staging.now) ≡ true) }
        ensures bad { IfErr result (λ refusal. (refusal ≡ OutOfRange) × (valid_with self.now (length image.now) (length staging.now) ≡ false)) }
    {
        if self.is_for(image, staging) {
            return Ok(());
        }
        Err(Refusal::OutOfRange)
    }
}
