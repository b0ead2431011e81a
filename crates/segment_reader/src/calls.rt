//! One call of a reader by its name, for those who hold calls as values.
use crate::{Part, ReadChunkResult, SegmentReader, WholeEntry};
use entry::{EntryId, Refusal};

// An enum, and in `step` a match over it: calls are held as values, in lists too (`read_by`, `led_by`); a closure is no value. Beside the writer's: other
// calls, other replies, and no line in common.
/// A call of a reader that was opened: for an entry, a chunk, so many bytes of its data, the check of its CRC, leaving it, the entry whole.
#[derive(Clone, Copy, Debug, PartialEq, Eq)]
pub enum Call {
    Entry,
    Chunk,
    Data(u64),
    Check,
    Skip,
    Whole,
}

/// What a call gives.
#[derive(Clone, Copy, Debug)]
pub enum Reply<'a> {
    Entry(Option<EntryId>),
    Chunk(ReadChunkResult),
    Data(Part<'a>),
    Check(bool),
    Skipped,
    Whole(WholeEntry),
}

impl SegmentReader {
    ghost use Rattle.segment_reader.specs.Promises.{IsKept};
    ghost use Rattle.segment_reader.specs.Step.{StepAllows};

    /// The call by its name. Refused as that call is.
    #[tactic(auto, unfolding(crate::specs::Calls::read_by))]
    #[inline(always)]
    pub fn step<'a>(&mut self, image: &'a [u8], call: Call) -> Result<Reply<'a>, Refusal>
        ensures allows { StepAllows call self.old image.entry.now result self.new }
        ensures kept { IsKept self.old result self.new }
    {
        match call {
            Call::Entry => Ok(Reply::Entry(self.read_entry(image)?)),
            Call::Chunk => Ok(Reply::Chunk(self.read_chunk(image)?)),
            Call::Data(asked) => Ok(Reply::Data(self.read(image, asked)?)),
            Call::Check => Ok(Reply::Check(self.check_crc(image)?)),
            Call::Skip => {
                self.skip_remaining_bytes(image)?;
                Ok(Reply::Skipped)
            }
            Call::Whole => Ok(Reply::Whole(self.read_all_chunks(image)?)),
        }
    }
}
