//! Words that a caller lends: storing them, and an outcome as a number and four words.
ghost use Rattle.std.specs.Prelude.{◌≡◌, ◌≤◌, length};
ghost use Rattle.lists.specs.Lay.{lay};
ghost use Rattle.okaywal_segment.specs.Words.{number_told, words_told};

use entry::Refusal;

/// The words of an answer.
pub(crate) const ANSWER_WORDS: usize = 4;

// Beside `lists::copy_at`, which is for bytes: the promise is `lay`, of lists of numbers, and no clause says it of elements of any type.

/// Stores words from the first on; those behind them stay.
#[tactic(auto, using(crate::proofs::Storing::stores))]
pub(crate) fn put(lent: &mut [u64], words: &[u64])
    requires { length words.now ≤ length lent.old }
    ensures { lent.new ≡ lay lent.old 0 words.now }
{
    lent[..words.len()].copy_from_slice(words);
}

// Numbers for refusals, and four words for any answer, here and in `reply_words` of writer and reader: the C interface (include/okaywal_segment.h).

/// 0, or the number of the refusal.
pub(crate) fn number_of<T: Drop>(told: Result<T, Refusal>) -> u64
    ensures { result ≡ number_told told }
{
    match told {
        Ok(_) => 0,
        Err(refusal) => refusal.number().into(),
    }
}

/// Stores the words that are told, or four zeros beside a refusal. Returns 0, or the number of the refusal.
pub(crate) fn tell(told: Result<[u64; 4], Refusal>, answer: &mut [u64]) -> u64
    requires { 4 ≤ length answer.old }
    ensures number { result ≡ number_told told }
    ensures words { answer.new ≡ lay answer.old 0 (words_told told) }
{
    match told {
        Ok(words) => {
            put(answer, &words);
            0
        }
        Err(refusal) => {
            put(answer, &[0; 4]);
            refusal.number().into()
        }
    }
}
