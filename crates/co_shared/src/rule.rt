//! The rule that the shared words keep, and what each kind of step does to what a pass knows.
use crate::told::View;
use atomic_table::{Join, Play, Split, TableRule};
use co_words::VecWords;
use std::snapshot::Snapshot;

/// There is one history of all accesses, legal on the opening words.
pub struct OneHistory;

impl TableRule<(), View, Snapshot<VecWords>> for OneHistory {
    ghost use Rattle.co_shared.specs.Passes.{newcomer};
    ghost use Rattle.co_shared.specs.Rule.{Kept};

    ghost holds = { λ key. Kept key.value };

    ghost first = { λ _. newcomer 0 };
}

/// A load joins the pass's list.
pub struct Loads;

impl Play<(), View> for Loads {
    ghost use Rattle.co_shared.specs.Rule.{loads};

    ghost then = { loads };
}

/// A store joins the pass's list.
pub struct Stores;

impl Play<(), View> for Stores {
    ghost use Rattle.co_shared.specs.Rule.{stores};

    ghost then = { stores };
}

/// A swap joins the pass's list.
pub struct Swaps;

impl Play<(), View> for Swaps {
    ghost use Rattle.co_shared.specs.Rule.{swaps};

    ghost then = { swaps };
}

/// An add joins the pass's list.
pub struct Adds;

impl Play<(), View> for Adds {
    ghost use Rattle.co_shared.specs.Rule.{adds};

    ghost then = { adds };
}

/// A compare_exchange joins the pass's list.
pub struct Exchanges;

impl Play<(), View> for Exchanges {
    ghost use Rattle.co_shared.specs.Rule.{exchanges};

    ghost then = { exchanges };
}

/// How a pass splits off a new one, and takes one in.
pub struct Cut;

impl Split<View> for Cut {
    ghost use Rattle.co_shared.specs.Passes.{splitter, newer};

    ghost left = { splitter };

    ghost right = { newer };
}

impl Join<View> for Cut {
    ghost use Rattle.co_shared.specs.Passes.{taker, gone};

    ghost both = { taker };

    ghost spent = { gone };
}
