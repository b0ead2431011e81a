//! The chunks of an entry: each read to its end and checked.
use entry::Refusal;
use segment_reader::ReadChunkResult;
use segment_reader::held::Reader;
use std::fmt;

/// As `1 byte`, `2 bytes`.
#[derive(Clone, Copy)]
pub struct Count(pub u64, pub &'static str);

impl fmt::Display for Count {
    fn fmt<W: fmt::Write>(&self, f: &mut fmt::Formatter<W>) -> fmt::Result {
        let ending = if self.0 == 1 { "" } else { "s" };
        write!(f, "{} {}{ending}", self.0, self.1)
    }
}

/// A chunk that is there whole, its CRC right or wrong; one that is cut, in its data, of which some may be there, or in its CRC; a header that is cut. The
/// mark is the offset of its 02.
#[derive(Clone, Copy)]
pub enum Chunk<'a> {
    Whole {
        mark: u64,
        bytes: &'a [u8],
        crc: u32,
        is_right: bool,
    },
    Cut {
        mark: u64,
        length: u32,
        bytes: &'a [u8],
    },
    CutHeader {
        mark: u64,
    },
}

impl<'a> Chunk<'a> {
    /// Its bytes that are there, and where they begin.
    pub(crate) fn bytes(&self) -> (&'a [u8], u64) {
        match *self {
            Chunk::Whole { mark, bytes, .. } => (bytes, mark.saturating_add(5)),
            Chunk::Cut { mark, bytes, .. } => (bytes, mark.saturating_add(5)),
            Chunk::CutHeader { mark } => (&[], mark),
        }
    }
}

impl fmt::Display for Chunk<'_> {
    fn fmt<W: fmt::Write>(&self, f: &mut fmt::Formatter<W>) -> fmt::Result {
        match *self {
            Chunk::Whole {
                mark,
                bytes,
                crc,
                is_right,
            } => {
                let count = Count(bytes.len() as u64, "byte");
                let verdict = if is_right { "right" } else { "wrong" };
                write!(f, "  chunk at {mark}: {count}, crc {crc:08x}, {verdict}")
            }
            Chunk::Cut {
                mark,
                length,
                bytes,
            } => {
                let count = Count(u64::from(length), "byte");
                write!(f, "  chunk at {mark}: {count}, ")?;
                let present = bytes.len();
                if present as u64 == u64::from(length) {
                    f.write_str("CRC cut")
                } else {
                    write!(f, "cut: {present} of them are there")
                }
            }
            Chunk::CutHeader { mark } => write!(f, "  chunk at {mark}: header cut"),
        }
    }
}

/// The chunks from a reader on.
#[derive(Clone, Copy)]
pub struct Chunks<'a> {
    pub reader: Reader<'a>,
}

/// The four bytes behind those of the chunk, 0 where they are not there.
fn stored_crc(image: &[u8], mark: u64, length: u32) -> u32 {
    let behind = mark.saturating_add(5).saturating_add(u64::from(length));
    match image.get(behind as usize..) {
        Some(rest) => rest.first_chunk().map_or(0, |crc| u32::from_le_bytes(*crc)),
        None => 0,
    }
}

impl<'a> Chunks<'a> {
    /// The chunk whose header was just read.
    fn opened(&mut self, mark: u64, length: u32) -> Chunk<'a> {
        let bytes = match self.reader.bytes(u64::from(length)) {
            Ok(part) => part.bytes,
            Err(_) => &[],
        };
        match self.reader.check_crc() {
            Ok(is_right) => Chunk::Whole {
                mark,
                bytes,
                crc: stored_crc(self.reader.image, mark, length),
                is_right,
            },
            Err(_) => Chunk::Cut {
                mark,
                length,
                bytes,
            },
        }
    }
}

impl<'a> Iterator for Chunks<'a> {
    type Item = Chunk<'a>;

    fn next(&mut self) -> Option<Chunk<'a>> {
        match self.reader.chunk() {
            Ok(ReadChunkResult::Chunk { mark, length }) => Some(self.opened(mark, length)),
            Err(Refusal::Cut(cut)) => Some(Chunk::CutHeader { mark: cut.mark }),
            _ => None,
        }
    }
}
