// internal: for the crates above alone
//! What stands between the writer and its image (okaywal's buffered.rs). Image and staging are lent.
#![tactic(auto)]

ghost use Rattle.std.specs.Prelude.{ℕ, ◌≡◌, ◌+◌, ◌≤◌, length, replicate};
ghost use Rattle.lists.specs.Lay.{lay};

pub mod seek;

// The numbers alone, without the slices that they are about: C lends image and staging, apart, at each call, and keeps the numbers as words in between
// (okw_writer_begin and the others). So the two slices go side by side through every call, and what the numbers ask of them is the one word `Room`
// of specs/Staging: a type that held it would have to hold the slices.

/// The file's length and position, how many bytes are staged, and how much of the file is known to be on the device.
#[derive(Clone, Copy, Debug, Default, PartialEq, Eq)]
pub struct Buffered {
    pub length: usize,
    pub position: usize,
    pub staged: usize,
    pub synchronized: usize,
}

/// Every store to an image goes through here, in ascending order.
fn put(image: &mut [u8], at: usize, bytes: &[u8])
    requires { at + length bytes.now ≤ length image.old }
    ensures { image.new ≡ lay image.old at bytes.now }
{
    lists::copy_at(image, at, bytes);
}

// Piece by piece through `put`: std's `fill` was tried, and leaves the order of the stores to the C library.
/// Stores count zeros from the offset at on, as many at a time as zeros holds.
fn clear_by(image: &mut [u8], at: usize, count: usize, zeros: &[u8])
    requires { (at + count ≤ length image.old) × (zeros.now ≡ replicate 64 0) }
    ensures { image.new ≡ lay image.old at (replicate count 0) }
{
    let mut i = 0;
    while i < count {
        let k = (count - i).min(64);
        put(image, at + i, &zeros[..k]);
        i += k;
    }
}

/// Stores count zeros from the offset at on.
pub fn clear(image: &mut [u8], at: usize, count: usize)
    requires { at + count ≤ length image.old }
    ensures { image.new ≡ lay image.old at (replicate count 0) }
{
    clear_by(image, at, count, &[0; 64]);
}

impl Buffered {
    ghost use Rattle.buffered.specs.Staging.{store, flushed, direct, staged, written, synchronized, numbers_back, Room};

    /// Staged bytes go to the image.
    #[tactic(auto, unfolding(crate::specs::Staging::flushed))]
    #[inline(always)]
    pub fn flush(&mut self, image: &mut [u8], staging: &[u8])
        requires { Room (store image.old staging.now self.old) 0 }
        ensures flushed { store image.new staging.now self.new ≡ flushed (store image.old staging.now self.old) }
        ensures room { (n : ℕ) → Room (store image.old staging.now self.old) n → Room (store image.new staging.now self.new) n }
    {
        put(image, self.position, &staging[..self.staged]);
        self.position += self.staged;
        self.staged = 0;
        self.length = self.length.max(self.position);
    }

    /// Bytes go straight into the image.
    #[tactic(auto, unfolding(crate::specs::Staging::direct))]
    fn store_direct(&mut self, image: &mut [u8], staging: &[u8], bytes: &[u8])
        requires { self.old.position + length bytes.now ≤ length image.old }
        ensures { store image.new staging.now self.new ≡ direct (store image.old staging.now self.old) bytes.now }
    {
        put(image, self.position, bytes);
        self.position += bytes.len();
        self.length = self.length.max(self.position);
    }

    /// Bytes go behind the staged ones.
    #[tactic(auto, unfolding(crate::specs::Staging::staged))]
    fn keep(&mut self, image: &[u8], staging: &mut [u8], bytes: &[u8])
        requires { self.old.staged + length bytes.now ≤ length staging.old }
        ensures { store image.now staging.new self.new ≡ staged (store image.now staging.old self.old) bytes.now }
    {
        lists::copy_at(staging, self.staged, bytes);
        self.staged += bytes.len();
    }

    /// One write. What fitted the image beside its bytes fits it afterwards.
    #[tactic(auto, unfolding(crate::specs::Staging::flushed, crate::specs::Staging::direct, crate::specs::Staging::staged))]
    #[inline(always)]
    pub fn write(&mut self, image: &mut [u8], staging: &mut [u8], bytes: &[u8])
        requires { Room (store image.old staging.old self.old) (length bytes.now) }
        ensures written { store image.new staging.new self.new ≡ written (store image.old staging.old self.old) bytes.now }
        ensures room { (n : ℕ) → Room (store image.old staging.old self.old) (length bytes.now + n) → Room (store image.new staging.new self.new) n }
    {
        let room = staging.len() - self.staged;
        if staging.len() < bytes.len() {
            self.flush(image, staging);
            self.store_direct(image, staging, bytes);
        } else if room < bytes.len() {
            let (front, rest) = bytes.split_at(room);
            self.keep(image, staging, front);
            self.flush(image, staging);
            self.keep(image, staging, rest);
        } else {
            self.keep(image, staging, bytes);
        }
    }

    /// Two writes, one after the other.
    pub fn write_both(&mut self, image: &mut [u8], staging: &mut [u8], one: &[u8], two: &[u8])
        requires { Room (store image.old staging.old self.old) (length one.now + length two.now) }
        ensures written { store image.new staging.new self.new ≡ written (written (store image.old staging.old self.old) one.now) two.now }
        ensures room { (n : ℕ) → Room (store image.old staging.old self.old) (length one.now + length two.now + n) → Room (store image.new staging.new self.new) n }
    {
        self.write(image, staging, one);
        self.write(image, staging, two);
    }

    /// Nothing where everything below target is on the device already; else a flush if target lies past the file position.
    #[tactic(auto, unfolding(crate::specs::Staging::synchronized))]
    #[inline(always)]
    pub fn synchronize(&mut self, image: &mut [u8], staging: &[u8], target: u64)
        requires { Room (store image.old staging.now self.old) 0 }
        ensures { store image.new staging.now self.new ≡ synchronized (store image.old staging.now self.old) target }
    {
        if target <= self.synchronized as u64 {
            return;
        }
        if (self.position as u64) < target {
            self.flush(image, staging);
        }
        self.synchronized = self.position;
    }

    /// The logical position becomes at most limit, and so does the synchronized number. No byte changes.
    #[inline(always)]
    pub fn back_to(&mut self, limit: usize)
        ensures { self.new ≡ numbers_back self.old limit }
    {
        self.staged = self.staged.min(limit.saturating_sub(self.position));
        self.position = self.position.min(limit);
        self.synchronized = self.synchronized.min(limit);
    }
}
