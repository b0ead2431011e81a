//! What holds of every reader, as contracts: each function is called by nobody and does nothing.
ghost use Rattle.segment_reader.specs.Laws.{RangeAndMomentKeepTheReader, OpenedStaysInRange, EndedStaysEnded, ReadsAgree, CutsOfAReadingDoNotShow, PiecesGiveAllThatIsToCome, OneReadEnds, SegmentsAreReadBack, RefusalsHaveTheirNumbers, CallsHaveOneAnswer, SurveyHasOneAnswer, EntriesHaveOneAnswer, ThinReaderHasOneAnswer};

/// A call that is refused with `OutOfRange` or `NotNow` keeps the whole state.
pub fn range_and_moment_keep_the_reader()
    ensures { RangeAndMomentKeepTheReader }
{}

/// A reader that was opened stays one for its image under any calls, and its place is bounded.
pub fn opened_stays_in_range()
    ensures { OpenedStaysInRange }
{}

/// A reader that was opened and has ended stays as it is under any calls, and answers ended.
pub fn ended_stays_ended()
    ensures { EndedStaysEnded }
{}

/// A read's bytes, its numbers and the place behind it agree.
pub fn reads_agree()
    ensures { ReadsAgree }
{}

/// A chunk read to its end in any pieces gives equal bytes, an equal verdict and an equal next place.
pub fn cuts_of_a_reading_do_not_show()
    ensures { CutsOfAReadingDoNotShow }
{}

/// Pieces that read a chunk to its end give all that is owed and present.
pub fn pieces_give_all_that_is_to_come()
    ensures { PiecesGiveAllThatIsToCome }
{}

/// One read that asks for all of it reaches the end.
pub fn one_read_ends()
    ensures { OneReadEnds }
{}

/// A whole reading by the code gives the entries of a segment's bytes back.
pub fn segments_are_read_back()
    ensures { SegmentsAreReadBack }
{}

/// A refusal has the number here that it has for a writer.
pub fn refusals_have_their_numbers()
    ensures { RefusalsHaveTheirNumbers }
{}

/// Any two answers that a call's promise allows are equal, and so are the states.
pub fn calls_have_one_answer()
    ensures { CallsHaveOneAnswer }
{}

/// The same of `read_segment` and its list.
pub fn survey_has_one_answer()
    ensures { SurveyHasOneAnswer }
{}

/// The same of the iterator's items and the readers behind them, whatever the state.
pub fn entries_have_one_answer()
    ensures { EntriesHaveOneAnswer }
{}

/// The same of the thin reader's calls.
pub fn thin_reader_has_one_answer()
    ensures { ThinReaderHasOneAnswer }
{}
