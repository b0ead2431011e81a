//! What stands at a place of the image: a mark, an entry's lead, the segment's header. Places may lie past the image.
// Kept: image and place stay two parameters. A walk moves the place over one image, so a struct of both would be made anew at each step: no plainer.
ghost use Rattle.std.specs.Prelude.{◌≡◌, ◌+◌, ◌^◌, ◌≤◌, ◌<◌, get_or, length};
ghost use Rattle.lists.specs.Stream.{part};
ghost use Rattle.reading.specs.Reading.{standing, lead, opened, matches, body_cut, checked};
ghost use Rattle.reading.specs.Shapes.{mark_as, lead_as, opened_as};

use entry::{CHUNK, ChunkCut, CutPart, END_OF_ENTRY, EntryId, NEW_ENTRY, Refusal};

/// A chunk; a chunk whose header is cut, and how many bytes it lacks; the end mark; anything else, nothing too.
// Kept: four cases, two of them with a number, are of no Option's or Result's shape.
#[derive(Clone, Copy, Debug, PartialEq, Eq)]
pub enum Mark {
    Chunk { length: u32 },
    Cut { lacks: u64 },
    Close,
    Other,
}

/// The byte at a place, 0 past the image.
fn byte_at(image: &[u8], place: u64) -> u8
    ensures { result ≡ get_or image.now place 0 }
{
    image.get(place as usize).copied().unwrap_or(0)
}

/// What stands at a place.
#[tactic(auto, unfolding(crate::specs::Reading::standing))]
pub fn look_at(image: &[u8], place: u64) -> Mark
    ensures { mark_as result ≡ standing image.now place }
{
    let mark = byte_at(image, place);
    match mark {
        CHUNK => {
            let at = place as usize;
            let present = image.len() - at;
            if present < 5 {
                return Mark::Cut {
                    lacks: 5 - present as u64,
                };
            }
            Mark::Chunk {
                length: lists::u32_at(image, at + 1),
            }
        }
        END_OF_ENTRY => Mark::Close,
        _ => Mark::Other,
    }
}

/// The entry that begins at a place: nine bytes, the first a 01, and an id that is not below the file's.
#[tactic(auto, unfolding(crate::specs::Reading::lead))]
pub fn lead_at(image: &[u8], place: u64, file_id: u64) -> Option<EntryId>
    ensures { lead_as result ≡ lead file_id image.now place }
{
    let mark = byte_at(image, place);
    if mark != NEW_ENTRY {
        return None;
    }
    let at = place as usize;
    if image.len() - at < 9 {
        return None;
    }
    let id = lists::u64_at(image, at + 1);
    if id < file_id {
        return None;
    }
    Some(id)
}

/// The length of the version info. Refused with `Short`, `Magic`, `Version`, `Short`, in this order.
#[tactic(auto, unfolding(crate::specs::Reading::opened))]
pub fn header_of(image: &[u8]) -> Result<u8, Refusal>
    ensures { opened_as result ≡ opened image.now }
{
    if image.len() < 5 {
        return Err(Refusal::Short);
    }
    if !image.starts_with(b"okw") {
        return Err(Refusal::Magic);
    }
    if image[3] != 0 {
        return Err(Refusal::Version);
    }
    let length = image[4];
    if image.len() < 5 + length as usize {
        return Err(Refusal::Short);
    }
    Ok(length)
}

/// The part of the image from a place on, of at most so many bytes.
pub fn part_of(image: &[u8], place: u64, count: u64) -> &[u8]
    ensures { result.now ≡ part image.now place count }
{
    let size = image.len() as u64;
    let from = place.min(size);
    let count = count.min(size - from);
    &image[from as usize..(from + count) as usize]
}

/// Whether the stored sum of the chunk at a place is that of its data.
fn matches_at(image: &[u8], place: u64, count: u32) -> bool
    requires { place + 9 + count ≤ length image.now }
    ensures { result ≡ matches image.now place count }
{
    let from = place as usize + 5;
    let end = from + count as usize;
    lists::u32_at(image, end) == entry::chunk_sum(count, &image[from..end])
}

/// Where a chunk that does not lie inside the image is cut: in its data, else in its sum.
#[tactic(auto, unfolding(crate::specs::Reading::body_cut))]
fn body_cut(image: &[u8], place: u64, count: u32) -> ChunkCut
    requires { (place < 2 ^ 63) × (length image.now ≤ place + 9 + count) }
    ensures { result ≡ body_cut image.now place count }
{
    let size = image.len() as u64;
    let end = place + 5 + u64::from(count);
    if end <= size {
        return ChunkCut {
            part: CutPart::Crc,
            mark: place,
            lacks: end + 4 - size,
        };
    }
    ChunkCut {
        part: CutPart::Data,
        mark: place,
        lacks: end - size,
    }
}

/// Whether the stored sum of the chunk at a place is that of its data; or where the chunk is cut, if it does not lie inside the image.
// It asks for a place below 2^63: of one near 2^64 the bytes that are lacking have no 64-bit number, so a form that asks nothing would want an answer more.
#[tactic(auto, unfolding(crate::specs::Reading::checked))]
pub fn checked_at(image: &[u8], place: u64, count: u32) -> Result<bool, ChunkCut>
    requires { place < 2 ^ 63 }
    ensures { result ≡ checked image.now place count }
{
    if place + 9 + u64::from(count) > image.len() as u64 {
        return Err(body_cut(image, place, count));
    }
    Ok(matches_at(image, place, count))
}
