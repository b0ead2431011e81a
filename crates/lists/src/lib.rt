// internal: for the crates above alone
//! Storing bytes into a buffer, numbers of 4 and 8 bytes. What else stands here are words of specs/ that the crates above share.
#![tactic(auto)]

ghost use Rattle.std.specs.Prelude.{◌≡◌, ◌+◌, ◌≤◌, length};
ghost use Rattle.lists.specs.Lay.{lay};
ghost use Rattle.lists.specs.Numbers.{le, number as number_at};

// Byte by byte: std's `copy_from_slice` was tried. The archive for C then wants `memmove` from outside, which it did not want before, and the C library
// chooses in which order the bytes are stored.
/// Copies src into dst from the offset at on, in ascending order.
pub fn copy_at(dst: &mut [u8], at: usize, src: &[u8])
    requires { at + length src.now ≤ length dst.old }
    ensures { dst.new ≡ lay dst.old at src.now }
{
    for i in 0..src.len() {
        dst[at + i] = src[i];
    }
}

// Two functions each way, and not one over the width: each is std's conversion of its own type, and u32 and u64 have no trait of that in common. std's
// methods at the callers in place of these were tried: the proofs of `begin_entry` and `finish` of log_file did not close. With the width as a const
// parameter std's bytes would be cut to it anew: no plainer.

/// The 4 bytes of a number, the low byte first.
#[tactic(auto, using(crate::proofs::Numbers::bytes))]
pub fn u32_bytes(number: u32) -> [u8; 4]
    ensures { result ≡ le 4 number }
{
    number.to_le_bytes()
}

/// The 8 bytes of a number, the low byte first.
#[tactic(auto, using(crate::proofs::Numbers::bytes))]
pub fn u64_bytes(number: u64) -> [u8; 8]
    ensures { result ≡ le 8 number }
{
    number.to_le_bytes()
}

/// The number in the 4 bytes at the offset at.
#[tactic(auto, using(crate::proofs::Numbers::places))]
pub fn u32_at(bytes: &[u8], at: usize) -> u32
    requires { at + 4 ≤ length bytes.now }
    ensures { result ≡ number_at 4 bytes.now at }
{
    u32::from_le_bytes([bytes[at], bytes[at + 1], bytes[at + 2], bytes[at + 3]])
}

/// The number in the 8 bytes at the offset at.
#[tactic(auto, using(crate::proofs::Numbers::places))]
pub fn u64_at(bytes: &[u8], at: usize) -> u64
    requires { at + 8 ≤ length bytes.now }
    ensures { result ≡ number_at 8 bytes.now at }
{
    u64::from_le_bytes([
        bytes[at],
        bytes[at + 1],
        bytes[at + 2],
        bytes[at + 3],
        bytes[at + 4],
        bytes[at + 5],
        bytes[at + 6],
        bytes[at + 7],
    ])
}
