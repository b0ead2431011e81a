//! The words of a line, and the words of an answer. A word that is missing is empty.
use entry::Refusal;
use std::io;
use std::io::Write;

/// The k-th word as a number in decimal, 0 where it is none.
pub(crate) fn number(line: &[u8], k: usize) -> u64 {
    text::decimal_or_zero(text::word(line, k))
}

/// The same in 32 bits, at most 2^32 - 1.
pub(crate) fn number32(line: &[u8], k: usize) -> u32 {
    u32::try_from(number(line, k)).unwrap_or(u32::MAX)
}

/// The k-th word as a number that may stand behind a minus: at least -2^63, at most 2^63 - 1.
pub(crate) fn signed(line: &[u8], k: usize) -> i64 {
    match text::word(line, k) {
        [b'-', digits @ ..] => 0i64.saturating_sub_unsigned(text::decimal_or_zero(digits)),
        digits => 0i64.saturating_add_unsigned(text::decimal_or_zero(digits)),
    }
}

/// Stores the bytes that the k-th word's pairs of hex digits stand for, as many as fit, and answers their number.
pub(crate) fn bytes(line: &[u8], k: usize, room: &mut [u8]) -> usize {
    text::unhex(text::word(line, k), room)
}

/// The number of refusal, 0 where there is none.
pub(crate) fn number_of<T: Copy>(answer: Result<T, Refusal>) -> u8 {
    match answer {
        Ok(_) => 0,
        Err(refusal) => refusal.number(),
    }
}

/// The number of refusal and four words: for any answer, since the recorded lines hold them so.
pub(crate) fn put(out: &mut impl Write, answer: Result<[u64; 4], Refusal>) -> io::Result<()> {
    let [a, b, c, d] = answer.unwrap_or([0; 4]);
    write!(out, "{} {a} {b} {c} {d}", number_of(answer))
}

/// The bytes as pairs of hex digits, `-` for none.
pub(crate) fn put_bytes(out: &mut impl Write, bytes: &[u8]) -> io::Result<()> {
    if bytes.is_empty() {
        write!(out, "-")?;
    }
    for byte in bytes {
        write!(out, "{byte:02x}")?;
    }
    Ok(())
}
