//! What programs read words by: the same text, words of a line, numbers in decimal, bytes as pairs of hex digits. Every function answers any bytes.
#![tactic(auto)]

ghost use Rattle.std.specs.Prelude.{◌≡◌, [], ◌∷◌, ◌≤◌, length, drop};
ghost use Rattle.text.specs.Text.{first, same, behind, place, words_from, word_at, decimal, or_zero, hex_digit, UnhexAllows};
ghost use Rattle.text.specs.Digits.{decimal_from};

// `first`, `same` and `decimal_or_zero`, a line of std each, are public: laws and one-answers speak of them (`first-one-answer`, `same_true`,
// `decimal-or-zero-one-answer`).

/// The first n bytes, or as many as there are.
#[tactic(auto, using(crate::proofs::Places::first_of))]
pub fn first(s: &[u8], n: usize) -> &[u8]
    ensures { result.now ≡ first n s.now }
{
    let k = n.min(s.len());
    &s[..k]
}

/// Whether both have the same bytes.
#[tactic(auto, using(crate::proofs::Sames::equal, std::proofs::lemmas::List::take_all))]
pub fn same(a: &[u8], b: &[u8]) -> bool
    ensures { result ≡ same a.now b.now }
{
    a == b
}

// The length where there is none, and no Option: `place` is so defined, of which `place-le` and `find-one-answer` speak.
/// The place of the first `stop` from `from` on; the length where there is none.
pub fn find(s: &[u8], from: usize, stop: u8) -> usize
    ensures { result ≡ place s.now from stop }
{
    let start = from.min(s.len());
    match s[start..].iter().position(|byte| *byte == stop) {
        Some(n) => start + n,
        None => s.len(),
    }
}

/// Where the next word begins: behind the next space, or at the line's end.
#[tactic(auto, using(crate::proofs::Places::behind_stop))]
fn next_word(line: &[u8], at: usize) -> usize
    ensures { (result ≤ length line.now) × (drop result line.now ≡ behind 32 (drop at line.now)) }
{
    let end = find(line, at, b' ');
    if end < line.len() { end + 1 } else { end }
}

/// Where the k-th word begins.
#[tactic(auto, using(crate::proofs::Places::words))]
fn word_start(line: &[u8], k: usize) -> usize
    ensures { (result ≤ length line.now) × (drop result line.now ≡ words_from k line.now) }
{
    let mut at = 0;
    for _ in 0..k {
        at = next_word(line, at);
    }
    at
}

/// The k-th word of a line whose words are one space apart, counted from 0; empty where there is none.
#[tactic(auto, using(crate::proofs::Places::words))]
pub fn word(line: &[u8], k: usize) -> &[u8]
    ensures { result.now ≡ word_at k line.now }
{
    let start = word_start(line, k);
    let end = find(line, start, b' ');
    &line[start..end]
}

/// The number with one digit more, where the byte is a digit and the number stays at most 2^64 - 1.
#[tactic(auto, using(crate::proofs::Numbers::digits))]
fn with_digit(number: u64, byte: u8) -> Option<u64>
    ensures { result ≡ decimal_from number (byte ∷ []) }
{
    match byte {
        b'0'..=b'9' => number.checked_mul(10)?.checked_add(u64::from(byte - b'0')),
        _ => None,
    }
}

// Not std's `parse`: it takes a plus, and the whole text would be walked twice before it. This ends at the first byte that is no digit or one too many.
/// A number in decimal: one digit or more and nothing else, no sign and no space, at most 2^64 - 1. Any bytes get an answer.
#[tactic(auto, using(crate::proofs::Numbers::turns))]
pub fn decimal(text: &[u8]) -> Option<u64>
    ensures { result ≡ decimal text.now }
{
    if text.is_empty() {
        return None;
    }
    let mut number = 0;
    for byte in text {
        number = with_digit(number, *byte)?;
    }
    Some(number)
}

/// The number, 0 where the text is none.
pub fn decimal_or_zero(text: &[u8]) -> u64
    ensures { result ≡ or_zero (decimal text.now) }
{
    decimal(text).unwrap_or(0)
}

/// The value of a hex digit in lower case, 0 of anything else.
#[tactic(auto, unfolding(crate::specs::Text::hex_digit))]
fn nibble(c: u8) -> u8
    ensures { (result ≡ hex_digit c) × (result ≤ 15) }
{
    // not std's `to_digit`: capitals count as 0 here, as `hex_digit` has it
    match c {
        b'0'..=b'9' => c - b'0',
        b'a'..=b'f' => c - b'a' + 10,
        _ => 0,
    }
}

/// Stores the bytes that pairs of hex digits stand for, as many as fit, and answers their number.
#[tactic(auto, using(crate::proofs::Pairs::as_many, crate::proofs::Pairs::goes_on, crate::proofs::Pairs::ends))]
pub fn unhex(s: &[u8], out: &mut [u8]) -> usize
    ensures { UnhexAllows s.now out.old result out.new }
{
    // not `hex`: its decoding refuses an odd digit and other letters, and this function cannot fail
    let n = (s.len() / 2).min(out.len());
    for i in 0..n {
        let high = nibble(s[2 * i]);
        let low = nibble(s[2 * i + 1]);
        out[i] = high * 16 + low;
    }
    n
}
