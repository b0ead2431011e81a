//! The calls on the segment as a whole (okaywal's log_file.rs): recycle, flush, synchronize, seek, and the plain reads of a state.
#![tactic(auto, unfolding(crate::specs::State::ruled, crate::specs::State::valid, crate::specs::Calls::checks, crate::specs::Calls::refusal, crate::specs::Calls::reports, crate::specs::Calls::writes, crate::specs::Calls::worked, crate::specs::Calls::moment_after, crate::specs::Calls::last_after, crate::specs::Calls::id_after, crate::specs::Calls::acted, crate::specs::Calls::called, buffered::specs::Staging::written_all, buffered::specs::Staging::back_to, crate::specs::Reads::read))]

ghost use Rattle.std.specs.Prelude.{ℕ, ◌≡◌, ◌+◌, ◌≤◌, length, OnErr};
ghost use Rattle.buffered.specs.Staging.{store, written, written_all, Room};
ghost use Rattle.log_file.specs.Calls.{heading};

use crate::{LogFileWriter, Moment};
use buffered::Buffered;
use entry::{EntryId, Refusal};
use std::io::SeekFrom;

// One write, out of line as `write_both` is, so that the calls that make it are small enough to stand within the boundary's.
#[inline(never)]
pub(crate) fn put(file: &mut Buffered, image: &mut [u8], staging: &mut [u8], bytes: &[u8])
    requires { Room (store image.old staging.old file.old) (length bytes.now) }
    ensures written { store image.new staging.new file.new ≡ written (store image.old staging.old file.old) bytes.now }
    ensures room { (n : ℕ) → Room (store image.old staging.old file.old) (length bytes.now + n) → Room (store image.new staging.new file.new) n }
{
    file.write(image, staging, bytes);
}

// The header in its three writes: the mark and version 0, the length byte, the version info. It stores without a test, as `head` does: their callers test,
// and require nothing (`RecycleAllows`, `OpenAllows`).
pub(crate) fn put_header(file: &mut Buffered, image: &mut [u8], staging: &mut [u8], info: &[u8])
    requires { Room (store image.old staging.old file.old) (5 + length info.now) × (length info.now ≤ 255) }
    ensures written { store image.new staging.new file.new ≡ written_all (store image.old staging.old file.old) (heading info.now) }
    ensures room { Room (store image.new staging.new file.new) 0 }
{
    file.write_both(image, staging, &[0x6f, 0x6b, 0x77, 0], &[info.len() as u8]);
    file.write(image, staging, info);
}

impl LogFileWriter {
    ghost use Rattle.log_file.specs.Promises.{RecycleAllows, FlushAllows, SynchronizeAllows, SeekAllows, IsUnchanged};
    ghost use Rattle.log_file.specs.Reads.{PositionAllows, BufferPositionAllows, IsSynchronizedAllows, LastEntryIdAllows};

    /// Begins the segment anew under another id: everything is dropped, and the header is written but not flushed. Refused with `OutOfRange`, `NotNow`
    /// unless idle.
    pub fn recycle(&mut self, image: &mut [u8], staging: &mut [u8], id: u64) -> Result<(), Refusal>
        ensures allows { RecycleAllows self.old image.old staging.old id result self.new image.new staging.new }
        ensures refused { OnErr result (IsUnchanged self.old image.old staging.old self.new image.new staging.new) }
    {
        self.check(image, staging)?;
        let Moment::Idle = self.moment else {
            return Err(Refusal::NotNow);
        };
        self.file.back_to(0);
        put_header(
            &mut self.file,
            image,
            staging,
            &self.info[..self.info_length],
        );
        self.id = id;
        self.last = None;
        Ok(())
    }

    /// Staged bytes go to the image. Refused with `OutOfRange`.
    #[inline(always)]
    pub fn flush(&mut self, image: &mut [u8], staging: &mut [u8]) -> Result<(), Refusal>
        ensures allows { FlushAllows self.old image.old staging.old result self.new image.new staging.new }
        ensures refused { OnErr result (IsUnchanged self.old image.old staging.old self.new image.new staging.new) }
    {
        self.check(image, staging)?;
        self.file.flush(image, staging);
        Ok(())
    }

    /// Notes that everything below the file position is on the device, after a flush where target lies past that; nothing where so much as target is
    /// noted already. A target past the end is allowed. Refused with `OutOfRange`.
    #[inline(always)]
    pub fn synchronize(
        &mut self,
        image: &mut [u8],
        staging: &mut [u8],
        target: u64,
    ) -> Result<(), Refusal>
        ensures allows { SynchronizeAllows self.old image.old staging.old target result self.new image.new staging.new }
        ensures refused { OnErr result (IsUnchanged self.old image.old staging.old self.new image.new staging.new) }
    {
        self.check(image, staging)?;
        self.file.synchronize(image, staging, target);
        Ok(())
    }

    /// Where a seek would land: counted from 0, the file length or the logical position. Refused with `OutOfRange`, `OutsideImage` below 0 or past the
    /// image size.
    #[inline(always)]
    pub fn seek(&self, image: &[u8], staging: &[u8], from: SeekFrom) -> Result<u64, Refusal>
        ensures { SeekAllows self.now image.now staging.now from result }
    {
        self.check(image, staging)?;
        let position = self.file.position + self.file.staged;
        buffered::seek::seek(
            from,
            self.file.length as u64,
            position as u64,
            self.size as u64,
        )
        .ok_or(Refusal::OutsideImage)
    }

    /// The logical position. No buffers are brought, so `OutOfRange` is for the state's own rules, here and in the three reads below.
    pub fn position(&self) -> Result<usize, Refusal>
        ensures { PositionAllows self.now result }
    {
        self.check_rules()?;
        Ok(self.file.position + self.file.staged)
    }

    /// The file position.
    pub fn buffer_position(&self) -> Result<usize, Refusal>
        ensures { BufferPositionAllows self.now result }
    {
        self.check_rules()?;
        Ok(self.file.position)
    }

    /// Whether everything up to the logical position is on the device.
    pub fn is_synchronized(&self) -> Result<bool, Refusal>
        ensures { IsSynchronizedAllows self.now result }
    {
        self.check_rules()?;
        Ok(self.file.position + self.file.staged == self.file.synchronized)
    }

    /// The id of the last entry that was committed.
    pub fn last_entry_id(&self) -> Result<Option<EntryId>, Refusal>
        ensures { LastEntryIdAllows self.now result }
    {
        self.check_rules()?;
        Ok(self.last)
    }
}
