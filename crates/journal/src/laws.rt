//! What holds of every run of a writer, and of what a reader finds of it: each function is called by nobody and does nothing.
ghost use Rattle.journal.specs.Laws.{CutsAndStagingDoNotShow, ProgramsTellOneStory, PiecesTakeWhatIsOwed, OpeningsAnswerAlike, RunsTellOneStory, PositionsAgree, LastIdsAgree, WrongProgramsFall, WrongAnswersAgree, ImagesHoldTheSegment, BackFromBytes, CasesHold};

/// Neither how data is cut into pieces nor how it is staged shows in a program that answers and leaves what the promises of opening and `step` allow: the
/// answers of two runs agree, and each run is the one that the format gives.
pub fn cuts_and_staging_do_not_show()
    ensures { CutsAndStagingDoNotShow }
{}

/// In any program in which they do not show, two runs that differ in nothing else tell one story.
pub fn programs_tell_one_story()
    ensures { ProgramsTellOneStory }
{}

/// Of a single piece so many bytes are taken as are offered and owed.
pub fn pieces_take_what_is_owed()
    ensures { PiecesTakeWhatIsOwed }
{}

/// Two fresh openings on equal terms, over images of one size, answer alike, and as the format has it.
pub fn openings_answer_alike()
    ensures { OpeningsAnswerAlike }
{}

/// Two runs of the code itself that differ in nothing but cuts and staging tell one story, and it is the format's.
pub fn runs_of_the_code_tell_one_story()
    ensures { RunsTellOneStory }
{}

/// After two such runs the logical position is read alike.
pub fn positions_agree()
    ensures { PositionsAgree }
{}

/// After two such runs the last entry's id is read alike.
pub fn last_ids_agree()
    ensures { LastIdsAgree }
{}

/// In each of six wrong programs cuts and staging show.
pub fn wrong_programs_fall()
    ensures { WrongProgramsFall }
{}

/// Of two of them the answers of two runs agree: it is the format that they fall to.
pub fn wrong_answers_agree()
    ensures { WrongAnswersAgree }
{}

/// A writer that was opened fresh, idle and flushed, holds in its image the format's segment of the entries that were committed.
pub fn images_hold_the_segment()
    ensures { ImagesHoldTheSegment }
{}

/// From such an image, cut off at the logical position, `read_segment` gives exactly these entries back.
pub fn back_from_bytes()
    ensures { BackFromBytes }
{}

/// Cases, computed: headers, a whole segment, positions, landings, padding, and two traces that okaywal answers otherwise.
pub fn cases_hold()
    ensures { CasesHold }
{}
