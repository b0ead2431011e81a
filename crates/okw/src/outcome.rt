//! How a run ended, and how that is said.
use crate::arguments::Argument;
use entry::{LARGEST_IMAGE, Refusal};
use std::io::{ErrorKind, Write};
use std::rt::Env;
use std::{fmt, io};

/// The number of a refusal and its meaning, as `10 (stored CRC differs, in reading a whole entry)`.
#[derive(Clone, Copy)]
pub struct Numbered(pub Refusal);

impl fmt::Display for Numbered {
    fn fmt<W: fmt::Write>(&self, f: &mut fmt::Formatter<W>) -> fmt::Result {
        let refusal = self.0;
        write!(f, "{} ({refusal})", refusal.number())
    }
}

/// Why something was refused.
#[derive(Clone, Copy)]
pub enum Failure {
    /// A refusal of a proved call.
    Refused(Refusal),
    /// The system's kind of an error: at the file, or at the new file beside it.
    System(ErrorKind),
    Beside(ErrorKind),
    Link,
    TooLarge,
    NotNumber,
    TooLong,
    NoEntry,
    /// The reading ends past the file; the entry that is cut begins at offset.
    CutEntry { offset: u64, valid_until: u64 },
    /// The same, and a chunk behind the complete entry at offset is cut.
    CutBehind { offset: u64, valid_until: u64 },
    /// What the command wants behind it.
    Usage(&'static str),
}

/// The system's own kinds of errors, in words.
fn in_words(error: ErrorKind) -> &'static str {
    match error {
        ErrorKind::NotFound => "no such file or folder",
        ErrorKind::PermissionDenied => "no permission",
        ErrorKind::AlreadyExists => "it exists already",
        ErrorKind::NotADirectory => "a part of its path is no folder",
        ErrorKind::IsADirectory => "it is a folder",
        ErrorKind::InvalidInput => "no name of a file",
        ErrorKind::StorageFull => "no space left on the device",
        ErrorKind::ReadOnlyFilesystem => "its file system is read-only",
        ErrorKind::InvalidFilename => "its name is too long",
        _ => "the system cannot read or write it",
    }
}

impl fmt::Display for Failure {
    fn fmt<W: fmt::Write>(&self, f: &mut fmt::Formatter<W>) -> fmt::Result {
        match *self {
            Failure::Refused(refusal) => write!(f, "{}", Numbered(refusal)),
            Failure::System(error) => f.write_str(in_words(error)),
            Failure::Beside(error) => {
                let hint = match error {
                    ErrorKind::AlreadyExists => {
                        "; another run is at it, or left it when it was cut off: then remove it"
                    }
                    _ => "",
                };
                write!(
                    f,
                    "the new file beside it, its name and .new: {}{hint}",
                    in_words(error)
                )
            }
            Failure::Link => f.write_str("it is a link: expected the file that it leads to"),
            Failure::TooLarge => write!(
                f,
                "{}: a segment has at most {LARGEST_IMAGE} bytes",
                Numbered(Refusal::OutOfRange)
            ),
            Failure::NotNumber => f.write_str("expected a number from 0 to 18446744073709551615"),
            Failure::TooLong => f.write_str("expected each TEXT to have at most 131072 bytes"),
            Failure::NoEntry => f.write_str("expected the id of an entry in the segment"),
            Failure::CutEntry {
                offset,
                valid_until,
            } => write!(
                f,
                "{}: the entry at {offset} is cut, the valid bytes would end at {valid_until}, past the file",
                Numbered(Refusal::OutOfRange)
            ),
            Failure::CutBehind {
                offset,
                valid_until,
            } => write!(
                f,
                "{}: a chunk behind the entry at {offset} is cut, the valid bytes would end at {valid_until}, past the file",
                Numbered(Refusal::OutOfRange)
            ),
            Failure::Usage(expected) => f.write_str(expected),
        }
    }
}

impl From<Refusal> for Failure {
    fn from(refusal: Refusal) -> Failure {
        Failure::Refused(refusal)
    }
}

impl From<io::Error> for Failure {
    fn from(error: io::Error) -> Failure {
        Failure::System(error.kind())
    }
}

/// A failure, and the argument that it is about.
#[derive(Clone, Copy)]
pub struct Refused {
    pub argument: Argument,
    pub failure: Failure,
}

impl Refused {
    /// The last line of a refused run.
    pub(crate) fn put(&self, rt: &impl Env, out: &mut impl Write) -> io::Result<()> {
        write!(out, "refused: ")?;
        self.argument.put_in_role(rt, out)?;
        writeln!(out, ": {}", self.failure)
    }
}

/// What ends a run before it is done: a refusal, or an output that takes no more.
// no Result: both are failures. Drop alone: an error of std's has no copy
#[derive(Drop)]
pub enum Ended {
    Refused(Refused),
    Output(io::Error),
}

impl From<Refused> for Ended {
    fn from(refused: Refused) -> Ended {
        Ended::Refused(refused)
    }
}

impl From<io::Error> for Ended {
    fn from(error: io::Error) -> Ended {
        Ended::Output(error)
    }
}
