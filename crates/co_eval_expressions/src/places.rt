ghost use Rattle.std.specs.Prelude.{◌≡◌, IfOk, slice_get};
ghost use Rattle.std.specs.Option.{option_map};
ghost use Rattle.co_eval_data.specs.Agents.{local_of};
ghost use Rattle.co_eval_data.specs.Changed.{after};
ghost use Rattle.co_eval_data.specs.Seen.{frames_of, place_of};
ghost use Rattle.co_eval_expressions.specs.Made as made;
ghost use Rattle.co_meaning.specs.Expressions as spec;
ghost use Rattle.co_meaning_data.specs.Turn as turn;

use co_base::NoMemory;
use co_core_tree::{CoreFunc, FuncRole};
use co_eval_data::{Change, Frame, Given, Here, Node, Place, Step};
use co_eval_reads::object_in;

/// The place of the object that stands in a slot.
pub(crate) fn enter_slot<'u>(here: &Here<'_, 'u>, slot: u32) -> Option<Change<'u>>
    ensures { after result (local_of here.now) ≡ spec.at_object (local_of here.now) (turn.object_in (local_of here.now) slot) }
{
    match object_in(here, slot) {
        Some(object) => {
            let place = Place::whole(here.alloc, object);
            Some(here.gives(Given::At(place)))
        }
        None => None,
    }
}

fn is_constructor(func: &CoreFunc) -> bool
    ensures { result ≡ made.is_constructor func.now }
{
    match &func.role {
        FuncRole::Ctor(..) => true,
        FuncRole::Plain | FuncRole::Dtor(_) => false,
    }
}

fn is_made_by(node: &Node<'_>) -> bool
    ensures { result ≡ made.is_made_by node.now }
{
    match node {
        Node::Func(unit, id) => match unit.funcs.get(id.0 as usize) {
            Some(func) => is_constructor(func),
            None => false,
        },
        _ => false,
    }
}

/// The place of the object that is made by what goes on with a frame.
fn made_in<'a>(frame: &'a Frame<'_>) -> Option<&'a Place>
    ensures { option_map (λ p. place_of p.now) result ≡ made.made_in frame.now }
{
    match &frame.step {
        Step::Building(place, _) => Some(place),
        Step::Constructing(place, _, _, _, _) => {
            if is_made_by(&frame.node) {
                Some(place)
            } else {
                None
            }
        }
        _ => None,
    }
}

/// The place of an object that is made by one of these frames, of which the innermost is the last: so many further ones are
/// made by frames inside it.
#[tactic(auto, using(crate::proofs::Wholes::none_made, crate::proofs::Wholes::made_first, crate::proofs::Wholes::made_later, crate::proofs::Wholes::made_outside))]
fn made_among<'a>(frames: &'a [Frame<'_>], inner: u32) -> Option<&'a Place>
    ensures { option_map (λ p. place_of p.now) result ≡ slice_get (spec.wholes (frames_of frames.now)) inner }
{
    match frames {
        [outer @ .., frame] => match made_in(frame) {
            Some(place) => {
                if inner == 0 {
                    Some(place)
                } else {
                    made_among(outer, inner - 1)
                }
            }
            None => made_among(outer, inner),
        },
        [] => None,
    }
}

/// The place of the object that an enclosing list of members is making, 0 the innermost [expr.prim.this].
#[tactic(auto, using(co_eval_reads::proofs::Parts::frames_seen))]
pub(crate) fn enter_whole<'u>(
    here: &Here<'_, 'u>,
    inner: u32,
) -> Result<Option<Change<'u>>, NoMemory>
    ensures { IfOk result (λ c. after c (local_of here.now) ≡ spec.at_whole (local_of here.now) (slice_get (spec.wholes (local_of here.now).top.frames) inner)) }
{
    match made_among(here.frames, inner) {
        Some(place) => {
            let place = place.copy(here.alloc)?;
            Ok(Some(here.gives(Given::At(place))))
        }
        None => Ok(None),
    }
}
