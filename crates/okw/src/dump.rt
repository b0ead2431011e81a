//! Bytes as people read a dump: the offset in the file, sixteen bytes in hex, the same as text.
use std::io;
use std::io::Write;

const WIDTH: usize = 16;

fn put_row(out: &mut impl Write, row: &[u8], offset: u64) -> io::Result<()> {
    write!(out, "    {offset:>7}  ")?;
    for byte in row {
        write!(out, "{byte:02x} ")?;
    }
    for _ in row.len()..WIDTH {
        write!(out, "   ")?;
    }
    write!(out, " |")?;
    for byte in row {
        // a byte of text, a dot for any other
        let glyph = match byte {
            b' '..=b'~' => *byte,
            _ => b'.',
        };
        out.write_all(&[glyph])?;
    }
    writeln!(out, "|")
}

/// The bytes from the offset on.
pub(crate) fn put(out: &mut impl Write, bytes: &[u8], offset: u64) -> io::Result<()> {
    for (number, row) in bytes.chunks(WIDTH).enumerate() {
        let before = (number as u64).saturating_mul(WIDTH as u64);
        put_row(out, row, offset.saturating_add(before))?;
    }
    Ok(())
}
