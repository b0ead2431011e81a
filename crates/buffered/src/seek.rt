//! Landing places: where a seek would land, worked out exactly from a base and a signed offset. Nothing moves.
ghost use Rattle.std.specs.Prelude.{◌≡◌, pos, ◌+ℤ◌};
ghost use Rattle.buffered.specs.Seek.{landed_as, land, SeekAllows};

use std::io::SeekFrom;

/// The place a signed offset from a base, in an image of size bytes.
fn land_by(base: u64, offset: i64, size: u64) -> Option<u64>
    ensures { landed_as result ≡ land size (pos base +ℤ offset) }
{
    base.checked_add_signed(offset)
        .filter(|place| *place <= size)
}

/// Where a seek lands in an image of size bytes: Start counts from 0, End from length, Current from position. None below 0 or past the size.
pub fn seek(from: SeekFrom, length: u64, position: u64, size: u64) -> Option<u64>
    ensures { SeekAllows from length position size result }
{
    match from {
        SeekFrom::Start(place) => land_by(place, 0, size),
        SeekFrom::End(offset) => land_by(length, offset, size),
        SeekFrom::Current(offset) => land_by(position, offset, size),
    }
}
