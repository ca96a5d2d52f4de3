ghost use Rattle.co_first_meaning.specs.Laws.{EndStays, PrintsGrow, SumsFromTheLeft};

/// What was printed stays printed: a step adds at the end.
pub fn prints_grow()
    ensures { PrintsGrow }
{}

/// A run that has ended, or has met an undefined act, makes no more steps.
pub fn ended_stays()
    ensures { EndStays }
{}

/// A sum is evaluated to its value, its operands taken from the left to the right [expr.add], or is undefined where
/// one of the sums on the way is no value of `long`.
pub fn sum_is_its_value()
    ensures { SumsFromTheLeft }
{}
