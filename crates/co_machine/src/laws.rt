//! Laws of the machine. Each function does nothing: its clause is the law.
ghost use Rattle.co_machine.specs.Laws.{CountsIdles, PrintsGrow, StampsNeverFall, StaysSeen, StaysSteady, StaysStopped, StaysWithin};

/// A worker that has stopped makes no access and stays as it is.
pub fn stays_stopped()
    ensures { StaysStopped }
{}

/// A worker that has seen another's stop makes no access and stays as it is.
pub fn stays_seen()
    ensures { StaysSeen }
{}

/// No count passes that of the instructions, and these stay in the budget.
pub fn stays_steady()
    ensures { StaysSteady }
{}

/// A worker's Idles are counted: one more at each turn that answers Idle.
pub fn counts_idles()
    ensures { CountsIdles }
{}

/// The access of a turn is to one of the words, and never to word 0, whatever the image.
pub fn stays_within()
    ensures { StaysWithin }
{}

/// What was printed stays printed: a turn adds at most one print, at the end.
pub fn prints_grow()
    ensures { PrintsGrow }
{}

/// The stamps of a worker's prints never fall, where the numbers that it draws do not.
pub fn stamps_never_fall()
    ensures { StampsNeverFall }
{}
