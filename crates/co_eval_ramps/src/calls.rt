ghost use Rattle.std.specs.Prelude.{◌≡◌, [], ◌∷◌, IfOk};
ghost use Rattle.co_eval_data.specs.Agents.{local_of};
ghost use Rattle.co_eval_data.specs.Seen.{frame_with, frames_of, place_if};
ghost use Rattle.co_eval_data.specs.declared.frames.Node.TheVariants as node;

use co_base::NoMemory;
use co_eval_data::{Frame, Here, Node, Place, Step, with};
use co_eval_parts::copy_place_if;
use sqlite_items::Items;

/// Where the result of the call is made, if it is of a class.
#[tactic(auto, using(co_eval_reads::proofs::Parts::into_seen))]
pub(crate) fn result_place(here: &Here<'_, '_>) -> Result<Option<Place>, NoMemory>
    ensures { IfOk result (λ p. place_if p ≡ (local_of here.now).top.into) }
{
    copy_place_if(here.alloc, &here.top.into)
}

/// The list of these frames, which have no node.
pub(crate) fn two<'u>(
    here: &Here<'_, 'u>,
    first: Step,
    second: Step,
) -> Result<Items<Frame<'u>>, NoMemory>
    ensures { IfOk result (λ fs. frames_of fs ≡ frame_with second node.Nothing ∷ frame_with first node.Nothing ∷ []) }
{
    let one = here.one(first, Node::Nothing)?;
    with(one, second, Node::Nothing)
}
