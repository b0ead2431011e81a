//! The calls that make an entry (okaywal's entry.rs): begin_entry, begin_chunk, write, finish, commit, rollback.
#![tactic(auto, unfolding(crate::specs::State::ruled, crate::specs::State::valid, crate::specs::Calls::checks, crate::specs::Calls::refusal, crate::specs::Calls::reports, crate::specs::Calls::writes, crate::specs::Calls::worked, crate::specs::Calls::moment_after, crate::specs::Calls::last_after, crate::specs::Calls::id_after, crate::specs::Calls::acted, crate::specs::Calls::called, buffered::specs::Staging::written_all, buffered::specs::Staging::back_to))]

ghost use Rattle.std.specs.Prelude.{OnErr};

use crate::file::put;
use crate::{LogFileWriter, Moment};
use entry::{CHUNK, ChunkRecord, END_OF_ENTRY, EntryId, LogPosition, NEW_ENTRY, Refusal};

/// An entry that was committed: its id, and the logical position behind it.
#[derive(Clone, Copy, Debug, PartialEq, Eq)]
pub struct CommittedEntry {
    pub id: EntryId,
    pub position: usize,
}

// Image and staging are two slices in every call: C lends them so, call by call. What keeps them together is `segment::Segment`.
impl LogFileWriter {
    ghost use Rattle.log_file.specs.Promises.{BeginEntryAllows, BeginChunkAllows, WriteAllows, FinishAllows, CommitAllows, RollbackAllows, IsUnchanged};

    /// Begins an entry: 01 and its id. Refused with `OutOfRange`, `NotNow` unless idle, `LowId` where the id is below the segment's, `NoRoom`, in this
    /// order.
    pub fn begin_entry(
        &mut self,
        image: &mut [u8],
        staging: &mut [u8],
        id: EntryId,
    ) -> Result<(), Refusal>
        ensures allows { BeginEntryAllows self.old image.old staging.old id result self.new image.new staging.new }
        ensures refused { OnErr result (IsUnchanged self.old image.old staging.old self.new image.new staging.new) }
    {
        self.check(image, staging)?;
        let Moment::Idle = self.moment else {
            return Err(Refusal::NotNow);
        };
        if id < self.id {
            return Err(Refusal::LowId);
        }
        let start = self.file.position + self.file.staged;
        if self.size < start + 10 {
            return Err(Refusal::NoRoom);
        }
        self.file
            .write_both(image, staging, &[NEW_ENTRY], &lists::u64_bytes(id));
        self.moment = Moment::InEntry { id, start };
        Ok(())
    }

    /// Begins a chunk of so many bytes: 02 and the length. Refused with `OutOfRange`, `NotNow` unless in an entry with no chunk open, `NoRoom`.
    #[inline(always)]
    pub fn begin_chunk(
        &mut self,
        image: &mut [u8],
        staging: &mut [u8],
        length: u32,
    ) -> Result<(), Refusal>
        ensures allows { BeginChunkAllows self.old image.old staging.old length result self.new image.new staging.new }
        ensures refused { OnErr result (IsUnchanged self.old image.old staging.old self.new image.new staging.new) }
    {
        self.check(image, staging)?;
        let Moment::InEntry { id, start } = self.moment else {
            return Err(Refusal::NotNow);
        };
        let position = self.file.position + self.file.staged;
        if self.size < position + length as usize + 10 {
            return Err(Refusal::NoRoom);
        }
        let mut file = self.file;
        file.write_both(image, staging, &[CHUNK], &lists::u32_bytes(length));
        self.file = file;
        self.moment = Moment::InChunk {
            id,
            start,
            length,
            owed: length,
            crc: entry::chunk_sum(length, &[]),
        };
        Ok(())
    }

    // The pattern at the head of `write` and `finish` stands in both: one function for the two would hand out a row of five numbers, and would be no plainer.

    /// Takes the first bytes of those offered, at most as many as are owed, and reports their number. Refused with `OutOfRange`, `NotNow` unless in a chunk.
    pub fn write(
        &mut self,
        image: &mut [u8],
        staging: &mut [u8],
        offered: &[u8],
    ) -> Result<usize, Refusal>
        ensures allows { WriteAllows self.old image.old staging.old offered.now result self.new image.new staging.new }
        ensures refused { OnErr result (IsUnchanged self.old image.old staging.old self.new image.new staging.new) }
    {
        self.check(image, staging)?;
        let Moment::InChunk {
            id,
            start,
            length,
            owed,
            crc,
        } = self.moment
        else {
            return Err(Refusal::NotNow);
        };
        let count = offered.len().min(owed as usize);
        let taken = &offered[..count];
        self.file.write(image, staging, taken);
        self.moment = Moment::InChunk {
            id,
            start,
            length,
            owed: owed - count as u32,
            crc: crc32c::append(crc, taken),
        };
        Ok(count)
    }

    /// Writes the CRC and reports position, CRC, length. Refused with `OutOfRange`, `NotNow` unless in a chunk, `BytesOwed`: the chunk stays open.
    #[inline(always)]
    pub fn finish(&mut self, image: &mut [u8], staging: &mut [u8]) -> Result<ChunkRecord, Refusal>
        ensures allows { FinishAllows self.old image.old staging.old result self.new image.new staging.new }
        ensures refused { OnErr result (IsUnchanged self.old image.old staging.old self.new image.new staging.new) }
    {
        self.check(image, staging)?;
        let Moment::InChunk {
            id,
            start,
            length,
            owed,
            crc,
        } = self.moment
        else {
            return Err(Refusal::NotNow);
        };
        if 0 < owed {
            return Err(Refusal::BytesOwed);
        }
        let position = LogPosition {
            file_id: self.id,
            offset: (self.file.position + self.file.staged - length as usize - 5) as u64,
        };
        let mut file = self.file;
        put(&mut file, image, staging, &lists::u32_bytes(crc));
        self.file = file;
        self.moment = Moment::InEntry { id, start };
        Ok(ChunkRecord {
            position,
            crc,
            length,
        })
    }

    /// Writes 03, and reports the entry's id and the logical position behind it. Refused with `OutOfRange`, `NotNow` unless in an entry with no chunk
    /// open.
    #[inline(always)]
    pub fn commit(
        &mut self,
        image: &mut [u8],
        staging: &mut [u8],
    ) -> Result<CommittedEntry, Refusal>
        ensures allows { CommitAllows self.old image.old staging.old result self.new image.new staging.new }
        ensures refused { OnErr result (IsUnchanged self.old image.old staging.old self.new image.new staging.new) }
    {
        self.check(image, staging)?;
        let Moment::InEntry { id, .. } = self.moment else {
            return Err(Refusal::NotNow);
        };
        let position = self.file.position + self.file.staged + 1;
        let mut file = self.file;
        put(&mut file, image, staging, &[END_OF_ENTRY]);
        self.file = file;
        self.last = Some(id);
        self.moment = Moment::Idle;
        Ok(CommittedEntry { id, position })
    }

    /// Goes back to the entry's start, also from inside a chunk. No byte changes. Refused with `OutOfRange`, `NotNow` when idle.
    #[inline(always)]
    pub fn rollback(&mut self, image: &mut [u8], staging: &mut [u8]) -> Result<(), Refusal>
        ensures allows { RollbackAllows self.old image.old staging.old result self.new image.new staging.new }
        ensures refused { OnErr result (IsUnchanged self.old image.old staging.old self.new image.new staging.new) }
    {
        self.check(image, staging)?;
        let start = match self.moment {
            Moment::Idle => return Err(Refusal::NotNow),
            Moment::InEntry { start, .. } | Moment::InChunk { start, .. } => start,
        };
        self.file.back_to(start);
        self.moment = Moment::Idle;
        Ok(())
    }
}
