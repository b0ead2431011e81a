//! Segment files: read whole, written whole.
ghost use Rattle.std.specs.Prelude.{◌≤◌, length};

use crate::arguments::Argument;
use crate::outcome::Failure;
use crate::{arguments, modes};
use std::fs::{File, OpenOptions};
use std::io::{ErrorKind, Read, Write};
use std::rt::{Env, Files};
use std::{fs, io, str};

/// What is behind the name of the new file beside another.
const NEW: &str = ".new";

/// The longest name that has room for it.
const LONGEST: usize = 4091;

// ---- reading

/// A file that is to be replaced is opened as one to write, so that its permission counts.
fn open(rt: &impl Files<File = File>, path: &str, to_replace: bool) -> io::Result<File> {
    OpenOptions::new()
        .read(true)
        .write(to_replace)
        .open(rt, path)
}

/// Reads until the image is full, the file ends or a read fails, and answers the number of bytes.
// by hand: `read_to_end` reads onto the heap, where there may be no memory, and goes on after a read that a signal interrupted, which has failed here
fn read_full(file: &mut File, image: &mut [u8]) -> usize
    ensures { result ≤ length image.new }
{
    let mut size = 0;
    while size < image.len() {
        match file.read(&mut image[size..]) {
            Ok(got) if got > 0 => size += got,
            _ => break,
        }
    }
    size
}

/// The bytes of the file that the argument names, to its end, at the start of the image: one more read must find nothing, so a file that is longer, or
/// that cannot be read on, is not taken for a shorter one.
pub(crate) fn load<'a>(
    rt: &(impl Env + Files<File = File>),
    file: Argument,
    image: &'a mut [u8],
    to_replace: bool,
) -> Result<&'a mut [u8], Failure> {
    let mut room = [0; arguments::LONGEST];
    let mut file = open(rt, file.path(rt, &mut room)?, to_replace)?;
    let size = read_full(&mut file, image);
    if file.read(&mut [0])? > 0 {
        return Err(Failure::TooLarge);
    }
    Ok(&mut image[..size])
}

// ---- writing

fn create_new(rt: &impl Files<File = File>, path: &str) -> io::Result<File> {
    OpenOptions::new()
        .write(true)
        .create_new(true)
        .open(rt, path)
}

fn put_whole(file: &mut File, bytes: &[u8]) -> io::Result<()> {
    file.write_all(bytes)?;
    file.sync_all()
}

/// Synchronizes the folder, so that the file's name lasts; a file system that cannot do that is left at it.
fn synchronize_folder(rt: &impl Files<File = File>, path: &str) {
    let folder = match path.rsplit_once('/') {
        Some(("", _)) => "/",
        Some((folder, _)) => folder,
        None => ".",
    };
    if let Ok(folder) = File::open(rt, folder) {
        let _ = folder.sync_all();
    }
}

/// Makes the file that the argument names, with these bytes, synchronized; it is removed where it cannot be written whole.
pub(crate) fn create(
    rt: &(impl Env + Files<File = File>),
    file: Argument,
    bytes: &[u8],
) -> Result<(), Failure> {
    let mut room = [0; arguments::LONGEST];
    let path = file.path(rt, &mut room)?;
    let mut new = create_new(rt, path)?;
    let written = put_whole(&mut new, bytes);
    drop(new);
    if let Err(error) = written {
        let _ = fs::remove_file(rt, path);
        return Err(Failure::from(error));
    }
    synchronize_folder(rt, path);
    Ok(())
}

// ---- replacing

/// The new file beside the one that is to be replaced, open to be written. It is linear: each path must end in `replace` or `remove`.
pub struct NewFile<'a> {
    file: File,
    name: &'a str,
    path: &'a str,
}

/// The path with `.new` behind it, in the room.
// a room of a fixed size, filled to a length: on the heap there may be no memory for it
fn name_beside<'a>(path: &str, room: &'a mut [u8; arguments::LONGEST]) -> Result<&'a str, Failure> {
    if path.len() > LONGEST {
        return Err(Failure::Beside(ErrorKind::InvalidFilename));
    }
    let end = path.len() + NEW.len();
    room[..path.len()].copy_from_slice(path.as_bytes());
    room[path.len()..end].copy_from_slice(NEW.as_bytes());
    str::from_utf8(&room[..end]).map_err(|_| Failure::Beside(ErrorKind::InvalidInput))
}

fn beside(error: io::Error) -> Failure {
    Failure::Beside(error.kind())
}

fn is_link(rt: &impl Files<File = File>, path: &str) -> bool {
    fs::symlink_metadata(rt, path).is_ok_and(|metadata| metadata.is_symlink())
}

/// The mode comes before the bytes, so that these are not written to a file that more people may open than the old one.
fn put_like(
    rt: &impl Files<File = File>,
    path: &str,
    new: &mut File,
    bytes: &[u8],
) -> Result<(), Failure> {
    let old = open(rt, path, false)?;
    modes::keep(&old, new).map_err(beside)?;
    put_whole(new, bytes).map_err(beside)
}

impl<'a> NewFile<'a> {
    /// Makes the new file beside the one at the path. While it is there no other run makes one, so no other run replaces the file.
    pub(crate) fn make(
        rt: &impl Files<File = File>,
        path: &'a str,
        room: &'a mut [u8; arguments::LONGEST],
    ) -> Result<NewFile<'a>, Failure> {
        let name = name_beside(path, room)?;
        if is_link(rt, path) {
            return Err(Failure::Link);
        }
        let file = create_new(rt, name).map_err(beside)?;
        Ok(NewFile { file, name, path })
    }

    pub(crate) fn remove(self, rt: &impl Files<File = File>) {
        let NewFile {
            file,
            name,
            path: _,
        } = self;
        drop(file);
        let _ = fs::remove_file(rt, name);
    }

    /// Writes it whole, synchronizes it, and renames it over the one at the path.
    pub(crate) fn replace(self, rt: &impl Files<File = File>, bytes: &[u8]) -> Result<(), Failure> {
        let NewFile {
            mut file,
            name,
            path,
        } = self;
        let written = put_like(rt, path, &mut file, bytes);
        drop(file);
        let replaced = match written {
            Ok(()) => fs::rename(rt, name, path).map_err(Failure::from),
            Err(failure) => Err(failure),
        };
        if replaced.is_err() {
            let _ = fs::remove_file(rt, name);
        } else {
            synchronize_folder(rt, path);
        }
        replaced
    }
}
