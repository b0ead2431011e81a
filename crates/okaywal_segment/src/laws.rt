//! What holds of every call across the boundary, as contracts: each function is called by nobody and does nothing.
ghost use Rattle.okaywal_segment.specs.Laws.{RefusalsChangeNothing, CrossingsHaveOneAnswer, RefusedOpeningsLeaveZeros, TheNextCallSeesTheState};

/// A refused call of a writer changes no state word and no byte of a buffer; one of a reader no state word, unless it is 9 or 10.
pub fn a_refusal_changes_nothing()
    ensures { RefusalsChangeNothing }
{}

/// Any two outcomes that a call's promise allows are equal: the number, and every slice that is lent.
pub fn crossings_have_one_answer()
    ensures { CrossingsHaveOneAnswer }
{}

/// A refused opening leaves zeros; a reader's word 5 is then 3, ended.
pub fn a_refused_opening_leaves_zeros()
    ensures { RefusedOpeningsLeaveZeros }
{}

/// The words that an accepted call leaves are in their ranges, and the next call reads from them the very state that it left.
pub fn the_next_call_sees_the_state()
    ensures { TheNextCallSeesTheState }
{}
