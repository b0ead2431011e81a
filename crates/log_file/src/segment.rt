//! A writer with the buffers that it is used with: for programs that keep the three together.
#![tactic(auto)]

ghost use Rattle.std.specs.Prelude.{OnErr};

use crate::LogFileWriter;
use crate::entries::CommittedEntry;
use entry::{ChunkRecord, EntryId, Refusal};
use std::io::SeekFrom;

/// A writer, and the image and the staging that all its calls are made with.
// Drop and no more: what is lent to be changed has no copy.
#[derive(Drop)]
pub struct Segment<'a> {
    pub writer: LogFileWriter,
    pub image: &'a mut [u8],
    pub staging: &'a mut [u8],
}

/// Each call is the writer's call of that name, on these buffers.
// By hand, a line each, no plainer otherwise: the buffers go into every call, which a `Deref` to the writer could not add.
impl Segment<'_> {
    ghost use Rattle.log_file.specs.Promises.{BeginEntryAllows, BeginChunkAllows, WriteAllows, FinishAllows, CommitAllows, RollbackAllows, RecycleAllows, FlushAllows, SynchronizeAllows, SeekAllows, IsUnchanged};

    pub fn begin_entry(&mut self, id: EntryId) -> Result<(), Refusal>
        ensures allows { BeginEntryAllows self.old.writer self.old.image.now self.old.staging.now id result self.new.writer self.new.image.now self.new.staging.now }
        ensures refused { OnErr result (IsUnchanged self.old.writer self.old.image.now self.old.staging.now self.new.writer self.new.image.now self.new.staging.now) }
    {
        self.writer.begin_entry(self.image, self.staging, id)
    }

    pub fn begin_chunk(&mut self, length: u32) -> Result<(), Refusal>
        ensures allows { BeginChunkAllows self.old.writer self.old.image.now self.old.staging.now length result self.new.writer self.new.image.now self.new.staging.now }
        ensures refused { OnErr result (IsUnchanged self.old.writer self.old.image.now self.old.staging.now self.new.writer self.new.image.now self.new.staging.now) }
    {
        self.writer.begin_chunk(self.image, self.staging, length)
    }

    pub fn write(&mut self, offered: &[u8]) -> Result<usize, Refusal>
        ensures allows { WriteAllows self.old.writer self.old.image.now self.old.staging.now offered.now result self.new.writer self.new.image.now self.new.staging.now }
        ensures refused { OnErr result (IsUnchanged self.old.writer self.old.image.now self.old.staging.now self.new.writer self.new.image.now self.new.staging.now) }
    {
        self.writer.write(self.image, self.staging, offered)
    }

    pub fn finish(&mut self) -> Result<ChunkRecord, Refusal>
        ensures allows { FinishAllows self.old.writer self.old.image.now self.old.staging.now result self.new.writer self.new.image.now self.new.staging.now }
        ensures refused { OnErr result (IsUnchanged self.old.writer self.old.image.now self.old.staging.now self.new.writer self.new.image.now self.new.staging.now) }
    {
        self.writer.finish(self.image, self.staging)
    }

    pub fn commit(&mut self) -> Result<CommittedEntry, Refusal>
        ensures allows { CommitAllows self.old.writer self.old.image.now self.old.staging.now result self.new.writer self.new.image.now self.new.staging.now }
        ensures refused { OnErr result (IsUnchanged self.old.writer self.old.image.now self.old.staging.now self.new.writer self.new.image.now self.new.staging.now) }
    {
        self.writer.commit(self.image, self.staging)
    }

    pub fn rollback(&mut self) -> Result<(), Refusal>
        ensures allows { RollbackAllows self.old.writer self.old.image.now self.old.staging.now result self.new.writer self.new.image.now self.new.staging.now }
        ensures refused { OnErr result (IsUnchanged self.old.writer self.old.image.now self.old.staging.now self.new.writer self.new.image.now self.new.staging.now) }
    {
        self.writer.rollback(self.image, self.staging)
    }

    pub fn recycle(&mut self, id: u64) -> Result<(), Refusal>
        ensures allows { RecycleAllows self.old.writer self.old.image.now self.old.staging.now id result self.new.writer self.new.image.now self.new.staging.now }
        ensures refused { OnErr result (IsUnchanged self.old.writer self.old.image.now self.old.staging.now self.new.writer self.new.image.now self.new.staging.now) }
    {
        self.writer.recycle(self.image, self.staging, id)
    }

    pub fn flush(&mut self) -> Result<(), Refusal>
        ensures allows { FlushAllows self.old.writer self.old.image.now self.old.staging.now result self.new.writer self.new.image.now self.new.staging.now }
        ensures refused { OnErr result (IsUnchanged self.old.writer self.old.image.now self.old.staging.now self.new.writer self.new.image.now self.new.staging.now) }
    {
        self.writer.flush(self.image, self.staging)
    }

    pub fn synchronize(&mut self, target: u64) -> Result<(), Refusal>
        ensures allows { SynchronizeAllows self.old.writer self.old.image.now self.old.staging.now target result self.new.writer self.new.image.now self.new.staging.now }
        ensures refused { OnErr result (IsUnchanged self.old.writer self.old.image.now self.old.staging.now self.new.writer self.new.image.now self.new.staging.now) }
    {
        self.writer.synchronize(self.image, self.staging, target)
    }

    pub fn seek(&self, from: SeekFrom) -> Result<u64, Refusal>
        ensures { SeekAllows self.now.writer self.now.image.now self.now.staging.now from result }
    {
        self.writer.seek(self.image, self.staging, from)
    }
}
