ghost use Rattle.co_first_exec.specs.Laws.{StopIsFinal, LimitsHold};

/// A run that has stopped takes no more turns.
pub fn stop_is_final()
    ensures { StopIsFinal }
{}

/// A run makes as many instructions as its budget allows where that ends it, and never more; it has printed 65,536
/// numbers where the limit on prints ends it, and never more.
pub fn limits_hold()
    ensures { LimitsHold }
{}
