//! Replays a fixed list of calls, recorded from the unchanged Rust, on the public calls of crc32c, entry, log_file and segment_reader. A line of the
//! input is a call and its words, one space apart: numbers in decimal, bytes as pairs of hex digits, `-` for none. For each a line of answers is written.
//!
//! The list is made by the comparison with the Rust (compare/, its `record` command), one line `CALL = ANSWERS` for each call that the Rust took: no line
//! of it was written by this port. The file stdin is the list with everything from ` = ` on cut off each line, the file stdout what stands behind ` = `:
//! one `sed` each (`s/ = .*//` and `s/.* = //`).
#![tactic(auto)]

ghost use Rattle.std.specs.Prelude.{◌≡◌, ◌≤◌, IfOk, length};

mod first;
mod reader;
mod small;
mod words;
mod writer;

use log_file::LogFileWriter;
use segment_reader::SegmentReader;
use std::io;
use std::io::{Read, Write};

/// The writer and the reader that the list speaks of, the size of the reader's image, and the buffers. Both work in the same image: the list turns from
/// one to the other only by opening it.
// Drop alone: what is lent to be changed has no copy.
#[derive(Drop)]
pub struct Desk<'a> {
    writer: LogFileWriter,
    reader: SegmentReader,
    size: usize,
    image: &'a mut [u8],
    staging: &'a mut [u8],
}

/// Answers one line.
fn answer(out: &mut impl Write, desk: &mut Desk<'_>, line: &[u8]) -> io::Result<()> {
    let known = writer::line(out, desk, line)?
        || reader::line(out, desk, line)?
        || first::line(out, desk.image, line)?
        || small::line(out, line)?;
    if !known {
        write!(out, "no such call")?;
    }
    writeln!(out)
}

/// Room for the list.
fn room() -> [u8; 262144]
    ensures { 262144 ≡ length result }
{
    [0; 262144]
}

/// Reads until the list is full or the input ends, and answers how many bytes it put at the list's start.
fn read_full<R: Read>(input: &mut R, list: &mut [u8]) -> io::Result<usize>
    ensures { IfOk result (λ n. n ≤ length list.new) }
{
    // std reads to an input's end onto the heap alone (`read_to_end`), which this program does without, and `read_exact` refuses an input that ends early
    let mut done = 0;
    while done < list.len() {
        let n = input.read(&mut list[done..])?;
        if n == 0 {
            break;
        }
        done += n;
    }
    Ok(done)
}

// All rooms, here and where bytes of a line are stored, are on the stack and of the sizes that they had: nothing is taken from the heap, and what is longer
// is cut there as before. Output and line, a line and the number of a word, are parameters of their own throughout: a struct of two would be taken apart in
// each function.
fn main(rt: HostRuntime) -> io::Result<()> {
    let mut out = io::writer(&rt);
    let mut list = room();
    let mut input = rt.reader();
    let n = read_full(&mut input, &mut list)?;
    let mut image = [0; 256];
    let mut staging = [0; 256];
    let mut desk = Desk {
        writer: LogFileWriter::default(),
        reader: SegmentReader::default(),
        size: 0,
        image: &mut image,
        staging: &mut staging,
    };
    for line in list[..n].split_inclusive(|byte| *byte == b'\n') {
        let line = line.strip_suffix(b"\n").unwrap_or(line);
        answer(&mut out, &mut desk, line)?;
    }
    Ok(())
}
