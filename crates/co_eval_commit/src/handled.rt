ghost use Rattle.std.specs.Prelude.{◌≡◌, ℕ, List, MatchResult};
ghost use Rattle.co_eval_data.specs.Changed as changed;
ghost use Rattle.co_eval_data.specs.declared.changes.Effect.TheVariants as effect;
ghost use Rattle.co_meaning_data.specs.Frames as meaning;
ghost use Rattle.co_meaning_data.specs.Turn.{Local};
ghost use Rattle.co_eval_commit.specs.InPlace.{handling, sees};

use crate::slotted::adds;
use co_base::{NoMemory, Thrown};
use co_eval_data::{Activation, Shared, StoredObject};

/// One more exception is handled, the newest.
pub fn handles(handled: &mut Vec<Thrown>, value: Thrown) -> Result<(), NoMemory>
    ensures { (l : Local) → MatchResult result (λ _. handling handled.new.items l ≡ changed.effected (effect.Handles value) (handling handled.old.items l)) (λ _. handling handled.new.items l ≡ handling handled.old.items l) }
{
    handled.push(value)?;
    Ok(())
}

/// The newest exception that is handled is handled no more, where there is one.
pub fn forget_newest(handled: &mut Vec<Thrown>)
    ensures { (l : Local) → handling handled.new.items l ≡ changed.effected effect.HandlesNoMore (handling handled.old.items l) }
{
    let _ = handled.pop();
}

/// The exception is handled, and a new object, the object of a slot, is the handler's variable [except.handle].
pub fn catches<'u>(
    shared: &mut Shared<'u>,
    handled: &mut Vec<Thrown>,
    top: &mut Activation<'u>,
    value: Thrown,
    slot: u32,
    object: StoredObject<'u>,
) -> Result<(), NoMemory>
    ensures made { (worker : ℕ) (l : Local) (fs : List meaning.Frame) → MatchResult result (λ _. sees worker shared.new handled.new.items top.new fs l ≡ changed.effected (effect.Catches value slot object.entry) (sees worker shared.old handled.old.items top.old fs l)) (λ _. sees worker shared.new handled.new.items top.new fs l ≡ sees worker shared.old handled.old.items top.old fs l) }
    ensures frames { top.new.frames ≡ top.old.frames }
{
    handled.reserve(1)?;
    adds(shared, top, slot, object)?;
    handled.push_reserved(value);
    Ok(())
}
