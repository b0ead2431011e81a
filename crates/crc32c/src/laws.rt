//! What holds of every sum, as contracts: each function is called by nobody and does nothing.
#![tactic(auto, using(crate::proofs::Sums::sums))]

ghost use Rattle.crc32c.specs.Laws.{AppendingContinues, NoBytesSumToZero, AppendHasOneAnswer};

/// The sum of two parts is the first part's sum, continued with the second.
pub fn append_continues()
    ensures { AppendingContinues }
{}

/// The sum of no bytes is 0.
pub fn no_bytes_sum_to_zero()
    ensures { NoBytesSumToZero }
{}

/// Any two answers that `append` may give are equal.
pub fn append_has_one_answer()
    ensures { AppendHasOneAnswer }
{}
