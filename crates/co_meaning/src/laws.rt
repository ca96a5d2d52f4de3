ghost use Rattle.co_meaning.specs.Laws.{EndsUndefined, EventsGrow, LeavesOthers, RunsJoin};

/// A run that has met an undefined act makes no more moves.
pub fn ends_undefined()
    ensures { EndsUndefined }
{}

/// A move of one agent leaves all other agents as they are.
pub fn leaves_others()
    ensures { LeavesOthers }
{}

/// What was seen stays seen: a move adds at the end.
pub fn events_grow()
    ensures { EventsGrow }
{}

/// A run may be parted at each move.
pub fn runs_join()
    ensures { RunsJoin }
{}
