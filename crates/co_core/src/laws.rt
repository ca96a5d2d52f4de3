//! Laws of the definitions. Each function does nothing: its clause is the law.

ghost use Rattle.co_core.specs.Laws.{KeepsForAwaitsAlone};
ghost use Rattle.co_core.specs.Valid.{HoldsIsValid};

/// The one test holds exactly where each of the rules does.
pub fn holds_is_valid()
    ensures { HoldsIsValid }
{}

/// An expression in which nothing awaits keeps no value.
pub fn keeps_for_awaits_alone()
    ensures { KeepsForAwaitsAlone }
{}
