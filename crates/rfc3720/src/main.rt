//! Runs RFC 3720's examples of CRC-32C (appendix B.4) and, beside them, the usual check value of nine digits: the sum of the whole, then the sum of
//! the first i bytes continued over the rest, for each i from 0 to the length.
#![tactic(auto)]

use std::io;
use std::io::Write;

fn example(out: &mut impl Write, name: &str, bytes: &[u8]) -> io::Result<()> {
    write!(out, "{name}: {:08x}; cut:", crc32c::append(0, bytes))?;
    for cut in 0..=bytes.len() {
        let (first, rest) = bytes.split_at(cut);
        write!(
            out,
            " {:08x}",
            crc32c::append(crc32c::append(0, first), rest)
        )?;
    }
    writeln!(out)
}

fn main(rt: HostRuntime) -> io::Result<()> {
    let mut out = io::writer(&rt);
    example(&mut out, "32 bytes of zeros", &[0; 32])?;
    example(&mut out, "32 bytes of ones", &[255; 32])?;
    example(
        &mut out,
        "0 to 31",
        b"\x00\x01\x02\x03\x04\x05\x06\x07\x08\x09\x0a\x0b\x0c\x0d\x0e\x0f\x10\x11\x12\x13\x14\x15\x16\x17\x18\x19\x1a\x1b\x1c\x1d\x1e\x1f",
    )?;
    example(
        &mut out,
        "31 to 0",
        b"\x1f\x1e\x1d\x1c\x1b\x1a\x19\x18\x17\x16\x15\x14\x13\x12\x11\x10\x0f\x0e\x0d\x0c\x0b\x0a\x09\x08\x07\x06\x05\x04\x03\x02\x01\x00",
    )?;
    example(
        &mut out,
        "an iSCSI read command",
        b"\x01\xc0\x00\x00\x00\x00\x00\x00\x00\x00\x00\x00\x00\x00\x00\x00\x14\x00\x00\x00\x00\x00\x04\x00\x00\x00\x00\x14\x00\x00\x00\x18\x28\x00\x00\x00\x00\x00\x00\x00\x02\x00\x00\x00\x00\x00\x00\x00",
    )?;
    example(&mut out, "123456789", b"123456789")
}
