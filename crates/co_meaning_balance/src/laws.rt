ghost use Rattle.co_meaning_balance.specs.Laws.{RunsBalance};

/// The births and the deaths of the objects of a run balance.
pub fn runs_balance()
    ensures { RunsBalance }
{}
