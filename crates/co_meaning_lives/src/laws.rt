ghost use Rattle.co_meaning_lives.specs.Laws.{LivesOnce};

/// Each object of a run is born at most once and dies at most once.
pub fn lives_once()
    ensures { LivesOnce }
{}
