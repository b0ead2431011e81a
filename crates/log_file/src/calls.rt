//! One call of a writer, by name: what a program that keeps a list of calls makes of them.
#![tactic(auto)]

ghost use Rattle.std.specs.Prelude.{OnErr};

use crate::LogFileWriter;
use crate::entries::CommittedEntry;
use entry::{ChunkRecord, EntryId, Refusal};
use std::io::SeekFrom;

/// A call of a writer by its name, with what it is given; a piece to write is lent.
// An enum, and in `step` a match over it: a run is a list of such values, which its theorems speak of (`call_of`); a closure is no value to compare.
#[derive(Clone, Copy, Debug)]
pub enum Call<'a> {
    BeginEntry(EntryId),
    BeginChunk(u32),
    Write(&'a [u8]),
    Finish,
    Commit,
    Rollback,
    Recycle(u64),
    Flush,
    Synchronize(u64),
    Seek(SeekFrom),
}

/// What an accepted call reports.
#[derive(Clone, Copy, Debug, PartialEq, Eq)]
pub enum Reply {
    Done,
    Taken(usize),
    Chunk(ChunkRecord),
    Entry(CommittedEntry),
    Place(u64),
}

impl LogFileWriter {
    ghost use Rattle.log_file.specs.Promises.{IsUnchanged};
    ghost use Rattle.log_file.specs.Step.{StepAllows};

    /// Makes the call that `call` names. Refused as that call is.
    #[inline(always)]
    pub fn step(
        &mut self,
        image: &mut [u8],
        staging: &mut [u8],
        call: Call<'_>,
    ) -> Result<Reply, Refusal>
        ensures allows { StepAllows self.old image.old staging.old call.entry result self.new image.new staging.new }
        ensures refused { OnErr result (IsUnchanged self.old image.old staging.old self.new image.new staging.new) }
    {
        match call {
            Call::BeginEntry(id) => {
                self.begin_entry(image, staging, id)?;
                Ok(Reply::Done)
            }
            Call::BeginChunk(length) => {
                self.begin_chunk(image, staging, length)?;
                Ok(Reply::Done)
            }
            Call::Write(offered) => Ok(Reply::Taken(self.write(image, staging, offered)?)),
            Call::Finish => Ok(Reply::Chunk(self.finish(image, staging)?)),
            Call::Commit => Ok(Reply::Entry(self.commit(image, staging)?)),
            Call::Rollback => {
                self.rollback(image, staging)?;
                Ok(Reply::Done)
            }
            Call::Recycle(id) => {
                self.recycle(image, staging, id)?;
                Ok(Reply::Done)
            }
            Call::Flush => {
                self.flush(image, staging)?;
                Ok(Reply::Done)
            }
            Call::Synchronize(target) => {
                self.synchronize(image, staging, target)?;
                Ok(Reply::Done)
            }
            Call::Seek(from) => Ok(Reply::Place(self.seek(image, staging, from)?)),
        }
    }
}
