//! The walks over chunks: skipping them, and reading a whole entry; and what is current after it.
ghost use Rattle.std.specs.Prelude.{◌≡◌};
ghost use Rattle.reading.specs.Reading.{header_cut, skip, whole, left};
ghost use Rattle.reading.specs.Shapes.{skipped_as, whole_as};

use crate::marks::{Mark, checked_at, look_at};
use entry::{ChunkCut, CutPart};

/// What an entry holds: so many chunks; or it is aborted, a chunk is cut, a sum differs.
// Kept: four cases are of no Option's or Result's shape.
#[derive(Clone, Copy, Debug, PartialEq, Eq)]
pub enum Contents {
    Complete { chunks: u64 },
    Aborted,
    Cut(ChunkCut),
    WrongSum,
}

/// A whole entry, and the place afterwards.
#[derive(Clone, Copy, Debug, PartialEq, Eq)]
pub struct Whole {
    pub contents: Contents,
    pub place: u64,
}

/// After an entry: none is current, or it still is.
// Kept: both cases hold a place and neither is an error, so it is of no Option's or Result's shape.
#[derive(Clone, Copy, Debug, PartialEq, Eq)]
pub enum Next {
    Seek(u64),
    Pass(u64),
}

/// A chunk whose header is cut.
pub fn header_cut(place: u64, lacks: u64) -> ChunkCut
    ensures { result ≡ header_cut place lacks }
{
    ChunkCut {
        part: CutPart::Header,
        mark: place,
        lacks,
    }
}

/// Passes chunks until something else is met, and a 03 met there too: the place behind them, or the header that is cut. No sum is checked.
#[tactic(auto, using(crate::proofs::Bounds::skipping))]
pub fn skip_from(image: &[u8], from: u64) -> Result<u64, ChunkCut>
    ensures { skipped_as result ≡ skip image.now from }
{
    let mut place = from;
    while let Mark::Chunk { length } = look_at(image, place) {
        place += 9 + u64::from(length);
    }
    match look_at(image, place) {
        Mark::Cut { lacks } => Err(header_cut(place, lacks)),
        Mark::Close => Ok(place + 1),
        Mark::Chunk { .. } | Mark::Other => Ok(place),
    }
}

/// Reads an entry whole, each chunk tested before the next: header, data, sum.
#[tactic(auto, using(crate::proofs::Count::reading))]
pub fn whole_from(image: &[u8], from: u64) -> Whole
    ensures { whole_as result ≡ whole image.now from }
{
    let mut place = from;
    let mut chunks = 0;
    // Kept: five ways out of this loop each have a value and a place of their own; behind a `while let` or a chain all would have to be told apart again.
    loop {
        match look_at(image, place) {
            Mark::Chunk { length } => {
                let next = place + 9 + u64::from(length);
                match checked_at(image, place, length) {
                    Ok(true) => {
                        place = next;
                        chunks += 1;
                    }
                    Ok(false) => {
                        return Whole {
                            contents: Contents::WrongSum,
                            place: next,
                        };
                    }
                    Err(cut) => {
                        return Whole {
                            contents: Contents::Cut(cut),
                            place: next,
                        };
                    }
                }
            }
            Mark::Cut { lacks } => {
                return Whole {
                    contents: Contents::Cut(header_cut(place, lacks)),
                    place: image.len() as u64,
                };
            }
            Mark::Close => {
                return Whole {
                    contents: Contents::Complete { chunks },
                    place: place + 1,
                };
            }
            Mark::Other => {
                return Whole {
                    contents: Contents::Aborted,
                    place,
                };
            }
        }
    }
}

impl Whole {
    /// What is current after the entry.
    #[tactic(auto, unfolding(crate::specs::Reading::left, crate::specs::Reading::after_cut))]
    pub fn left(self) -> Next
        ensures { result ≡ left (whole_as self) }
    {
        match self.contents {
            Contents::Cut(
                ChunkCut {
                    part: CutPart::Header,
                    ..
                },
            ) => Next::Seek(self.place),
            _ => Next::Pass(self.place),
        }
    }
}
