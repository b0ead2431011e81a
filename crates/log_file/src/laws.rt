//! What holds of every writer, as contracts: each function is called by nobody and does nothing.
#![tactic(auto)]

ghost use Rattle.log_file.specs.Laws.{RefusedCallsChangeNothing, ValidStaysValid, BlankIsRefused, CallsHaveOneAnswer, OpeningHasOneAnswer, ReadsHaveOneAnswer, WritersShowTheirHistory};

/// A refused call changes nothing: any state, any buffers.
pub fn refused_calls_change_nothing()
    ensures { RefusedCallsChangeNothing }
{}

/// A valid state stays valid, whatever the call.
pub fn valid_stays_valid()
    ensures { ValidStaysValid }
{}

/// Every call refuses the state that a refused opening leaves.
pub fn blank_is_refused()
    ensures { BlankIsRefused }
{}

/// Any two answers that a call may give are equal, with what it leaves.
pub fn calls_have_one_answer()
    ensures { CallsHaveOneAnswer }
{}

/// Any two answers that an opening may give are equal, with what it leaves.
pub fn opening_has_one_answer()
    ensures { OpeningHasOneAnswer }
{}

/// Any two answers that a plain read may give are equal.
pub fn reads_have_one_answer()
    ensures { ReadsHaveOneAnswer }
{}

/// A writer answers what its history tells, by the format, and shows it: what was opened, and each call since.
pub fn writers_show_their_history()
    ensures { WritersShowTheirHistory }
{}
