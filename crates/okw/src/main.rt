//! okw, a program over segment files for the shop and the bench, thin over the proved calls of log_file and segment_reader:
//!
//!     okw list FILE ID [FILE ID ...]         every entry and chunk of each segment
//!     okw show FILE ID ENTRY                 the bytes of the entries with the id ENTRY
//!     okw new FILE ID SIZE                   a fresh segment of SIZE bytes
//!     okw append FILE ID ENTRY_ID TEXT ...   one entry more, with a chunk for each TEXT
//!
//! The last line says `ok`, or what was refused and why; a refused run leaves every file as it was.
#![tactic(auto)]

ghost use Rattle.std.specs.Prelude.{◌≡◌, length};

mod append;
mod arguments;
mod chunks;
mod dump;
mod entries;
mod files;
mod list;
mod modes;
mod outcome;

use arguments::Command;
use entry::LARGEST_IMAGE;
use outcome::Ended;
use std::fs::File;
use std::io;
use std::io::Write;
use std::rt::{Env, Files};

const USAGE: &str = "\
okw list FILE ID [FILE ID ...]         every entry and chunk of each segment
okw show FILE ID ENTRY                 the bytes of the entries with the id ENTRY
okw new FILE ID SIZE                   a fresh segment of SIZE bytes
okw append FILE ID ENTRY_ID TEXT ...   one entry more, with a chunk for each TEXT
";

/// Room for the largest segment.
// an array, as no crate below has a heap either: a run that could not fail for memory still can't (docs/DESIGN-PASS.md, point 6, has what was tried)
fn room() -> [u8; LARGEST_IMAGE]
    ensures { 1048576 ≡ length result }
{
    [0; LARGEST_IMAGE]
}

fn run(
    rt: &(impl Env + Files<File = File>),
    out: &mut impl Write,
    image: &mut [u8],
) -> Result<(), Ended> {
    match Command::asked(rt) {
        Ok(Command::List { segments }) => list::list(rt, out, image, segments),
        Ok(Command::Show { file, id, entry }) => list::show(rt, out, image, file, id, entry),
        Ok(Command::New { file, id, size }) => Ok(append::new(rt, image, file, id, size)?),
        Ok(
            Command::Append {
                file,
                id,
                entry,
                texts,
            },
        ) => Ok(append::append(rt, image, file, id, entry, texts)?),
        Err(refused) => {
            write!(out, "{USAGE}")?;
            Err(Ended::from(refused))
        }
    }
}

fn main(rt: HostRuntime) -> io::Result<()> {
    let mut image = room();
    let mut out = io::writer(&rt);
    match run(&rt, &mut out, &mut image) {
        Ok(()) => writeln!(out, "ok"),
        Err(Ended::Refused(refused)) => refused.put(&rt, &mut out),
        Err(Ended::Output(error)) => Err(error),
    }
}
