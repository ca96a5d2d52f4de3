//! What the definitions of a history say, as laws.
ghost use Rattle.co_shared.specs.Laws.{AnswersWhatStands, NothingAfter};

/// In a legal history each access answers the word that stands there when those before it have been carried out.
pub fn old_words_stand()
    ensures { AnswersWhatStands }
{}

/// What was joined stands before: a pass that ended when number 0 had made so many accesses did nothing after those
/// that number 0 made later.
pub fn ended_passes_stand_before()
    ensures { NothingAfter }
{}
