//! The words of the command line, and what they ask for.
use crate::outcome::{Failure, Refused};
use std::env::FillError;
use std::io::{ErrorKind, Write};
use std::ops::Range;
use std::rt::Env;
use std::{io, str};

/// The longest name and the longest number that are looked at.
pub(crate) const LONGEST: usize = 4096;

/// A place on the command line, and the role of the word there: FILE, ID, ENTRY, SIZE or ENTRY_ID, with a blank behind it, or nothing for the command itself.
// no bytes: they stay where the system has them, and are copied to a room of a fixed size where they are wanted. On the heap they took memory for each word,
// which may not be there
#[derive(Clone, Copy)]
pub struct Argument {
    role: &'static str,
    place: usize,
}

/// What is asked for. The segments and the texts are places: a FILE and its ID take two.
pub enum Command {
    List {
        segments: Range<usize>,
    },
    Show {
        file: Argument,
        id: Argument,
        entry: Argument,
    },
    New {
        file: Argument,
        id: Argument,
        size: Argument,
    },
    Append {
        file: Argument,
        id: Argument,
        entry: Argument,
        texts: Range<usize>,
    },
}

/// How many words there are, the program's name among them.
fn count(rt: &impl Env) -> usize {
    for place in 0..usize::MAX {
        if let Err(FillError::NotPresent) = rt.arg(place, &mut []) {
            return place;
        }
    }
    usize::MAX
}

/// What is no path.
fn no_path(error: FillError) -> Failure {
    Failure::System(match error {
        FillError::NotPresent => ErrorKind::InvalidInput,
        FillError::TooLong => ErrorKind::InvalidFilename,
    })
}

impl Argument {
    pub(crate) fn new(role: &'static str, place: usize) -> Argument {
        Argument { role, place }
    }

    /// The word; none where it is missing or longer than the room.
    fn word<'a>(self, rt: &impl Env, room: &'a mut [u8]) -> &'a [u8] {
        let length = rt.arg(self.place, room).unwrap_or(0);
        &room[..length]
    }

    /// The name of a file. One that is not UTF-8 is none that std can open.
    pub(crate) fn path<'a>(self, rt: &impl Env, room: &'a mut [u8]) -> Result<&'a str, Failure> {
        let length = rt.arg(self.place, room).map_err(no_path)?;
        str::from_utf8(&room[..length]).map_err(|_| Failure::System(ErrorKind::InvalidInput))
    }

    pub(crate) fn number(self, rt: &impl Env) -> Result<u64, Refused> {
        let mut room = [0; LONGEST];
        text::decimal(self.word(rt, &mut room)).ok_or(self.refused(Failure::NotNumber))
    }

    pub(crate) fn refused(self, failure: Failure) -> Refused {
        Refused {
            argument: self,
            failure,
        }
    }

    // By hand, with `put_in_role` and `Refused::put`: a word may be no UTF-8, and `Display` writes text.
    /// As it is, but for control characters: these as `\x0a`, so that a word stays on its line. Its place where it is empty, missing or too long.
    pub(crate) fn put(self, rt: &impl Env, out: &mut impl Write) -> io::Result<()> {
        let mut room = [0; LONGEST];
        let word = self.word(rt, &mut room);
        if word.is_empty() {
            return write!(out, "argument {}", self.place);
        }
        for byte in word {
            if byte.is_ascii_control() {
                write!(out, "\\x{byte:02x}")?;
            } else {
                out.write_all(&[*byte])?;
            }
        }
        Ok(())
    }

    /// The role before it.
    pub(crate) fn put_in_role(self, rt: &impl Env, out: &mut impl Write) -> io::Result<()> {
        out.write_all(self.role.as_bytes())?;
        self.put(rt, out)
    }
}

/// What the command wants behind it.
fn expected(command: &str) -> &'static str {
    match command {
        "list" => "expected FILE ID, once or more",
        "show" => "expected FILE ID ENTRY",
        "new" => "expected FILE ID SIZE",
        "append" => "expected FILE ID ENTRY_ID and at least one TEXT",
        _ => "expected list, show, new or append",
    }
}

impl Command {
    /// The command that the first word names, where as many words follow as it expects.
    pub(crate) fn asked(rt: &impl Env) -> Result<Command, Refused> {
        let command = Argument::new("", 1);
        // the longest name of a command has six bytes
        let mut room = [0; 8];
        let name = str::from_utf8(command.word(rt, &mut room)).unwrap_or("");
        let count = count(rt);
        let file = Argument::new("FILE ", 2);
        let id = Argument::new("ID ", 3);
        match (name, count) {
            ("list", 4..) if count % 2 == 0 => Ok(Command::List { segments: 2..count }),
            ("show", 5) => Ok(Command::Show {
                file,
                id,
                entry: Argument::new("ENTRY ", 4),
            }),
            ("new", 5) => Ok(Command::New {
                file,
                id,
                size: Argument::new("SIZE ", 4),
            }),
            ("append", 6..) => Ok(Command::Append {
                file,
                id,
                entry: Argument::new("ENTRY_ID ", 4),
                texts: 5..count,
            }),
            _ => Err(command.refused(Failure::Usage(expected(name)))),
        }
    }
}
