ghost use Rattle.std.specs.Prelude.{◌≡◌, [], ◌∷◌, drop, true, Some, IfOk};
ghost use Rattle.std.specs.Option.{option_copied};
ghost use Rattle.co_eval_data.specs.Agents.{local_of};
ghost use Rattle.co_eval_data.specs.Changed.{after, turned_by};
ghost use Rattle.co_eval_data.specs.Seen.{body_left, constructing, func_in, inits_in, members_of, place_of};
ghost use Rattle.co_eval_data.specs.declared.frames.Step.TheVariants as frame;
ghost use Rattle.co_meaning.specs.Step as step;
ghost use Rattle.co_meaning_calls.specs.Calls as calls;
ghost use Rattle.co_meaning_data.specs.Store as store;

use crate::lists::number_after;
use co_base::{ClassId, NoMemory};
use co_core_tree::{CoreFunc, FuncRole, Init};
use co_eval_data::{Change, Effect, Here, Node, Outcome, Place, Step, Task, with};
use co_eval_fulls::{Opening, open_init};
use sqlite_items::Items;
use std::alloc::Global;

/// The making of the members of an object: its place and its class, how many of its fields are made, how many initializers are
/// taken, and whether the body is still to be done.
#[derive(Clone, Copy)]
struct Making<'a> {
    place: &'a Place,
    class: ClassId,
    built: u32,
    taken: usize,
    left: bool,
}

/// What is left of the making after so many initializers.
fn making_after(
    alloc: Global,
    making: Making<'_>,
    taken: usize,
    left: bool,
) -> Result<Step, NoMemory>
    ensures { IfOk result (λ s. s ≡ frame.Constructing making.entry.place.now making.entry.class making.entry.built taken left) }
{
    let place = making.place.copy(alloc)?;
    Ok(Step::Constructing(place, making.class, making.built, taken, left))
}

/// The place of the field of this number of an object.
fn field_of(alloc: Global, place: &Place, built: u32) -> Result<Place, NoMemory>
    ensures { IfOk result (λ field. place_of field ≡ store.field_of_place (place_of place.now) built) }
{
    let whole = place.copy(alloc)?;
    let field = whole.field(built)?;
    Ok(field)
}

/// The next member is made by this initializer.
fn member_by<'u>(
    here: &Here<'_, 'u>,
    making: Making<'_>,
    node: Node<'u>,
    func: &CoreFunc,
    members: &Items<Init>,
    init: &'u Init,
    next: usize,
) -> Result<Change<'u>, NoMemory>
    requires func { func_in node ≡ Some func.now }
    requires members { members_of func.now.role ≡ Some members.now }
    requires rest { drop making.taken members.now ≡ init.now ∷ drop next members.now }
    ensures { IfOk result (λ c. Some (turned_by c (local_of here.now)) ≡ calls.next_member (place_of making.entry.place.now) making.entry.class making.entry.built (drop making.entry.taken members.now) (body_left making.entry.left func.now.body) (local_of here.now)) }
{
    let field = field_of(here.alloc, making.place, making.built)?;
    let step = making_after(here.alloc, making, next, making.left)?;
    let outer = here.one(step, node)?;
    let inner = here.one(Step::FieldMade, Node::Nothing)?;
    open_init(
        here,
        init,
        Opening {
            effect: Effect::Nothing,
            outer,
            inner,
            task: Task::Initialize(init, Some(field)),
        },
    )
}

/// The members are made, and the body is done.
fn body_next<'u>(
    here: &Here<'_, 'u>,
    making: Making<'_>,
    node: Node<'u>,
    func: &'u CoreFunc,
    members: &Items<Init>,
) -> Result<Change<'u>, NoMemory>
    requires func { func_in node ≡ Some func.now }
    requires members { members_of func.now.role ≡ Some members.now }
    requires made { drop making.taken members.now ≡ [] }
    requires left { making.left ≡ true }
    ensures { IfOk result (λ c. Some (turned_by c (local_of here.now)) ≡ calls.next_member (place_of making.entry.place.now) making.entry.class making.entry.built (drop making.entry.taken members.now) (body_left making.entry.left func.now.body) (local_of here.now)) }
{
    let step = making_after(here.alloc, making, making.taken, false)?;
    here.under(step, node, Task::Execute(&func.body))
}

/// The members are made, and the body is done, where it still is to be.
#[tactic(auto, using(crate::proofs::Constructed::nothing_left))]
fn members_made<'u>(
    here: &Here<'_, 'u>,
    making: Making<'_>,
    node: Node<'u>,
    func: &'u CoreFunc,
    members: &Items<Init>,
) -> Result<Change<'u>, NoMemory>
    requires func { func_in node ≡ Some func.now }
    requires members { members_of func.now.role ≡ Some members.now }
    requires made { drop making.taken members.now ≡ [] }
    ensures { IfOk result (λ c. Some (turned_by c (local_of here.now)) ≡ calls.next_member (place_of making.entry.place.now) making.entry.class making.entry.built (drop making.entry.taken members.now) (body_left making.entry.left func.now.body) (local_of here.now)) }
{
    if making.left {
        body_next(here, making, node, func, members)
    } else {
        Ok(here.passes())
    }
}

#[tactic(auto, using(crate::proofs::Left::first_left, crate::proofs::Left::none_left))]
fn next_of<'u>(
    here: &Here<'_, 'u>,
    making: Making<'_>,
    node: Node<'u>,
    func: &'u CoreFunc,
    members: &'u Items<Init>,
) -> Result<Change<'u>, NoMemory>
    requires func { func_in node ≡ Some func.now }
    requires members { members_of func.now.role ≡ Some members.now }
    ensures { IfOk result (λ c. Some (turned_by c (local_of here.now)) ≡ calls.next_member (place_of making.entry.place.now) making.entry.class making.entry.built (drop making.entry.taken members.now) (body_left making.entry.left func.now.body) (local_of here.now)) }
{
    match members.get(making.taken) {
        Some(init) => {
            let next = number_after(making.taken)?;
            member_by(here, making, node, func, members, init, next)
        }
        None => members_made(here, making, node, func, members),
    }
}

#[tactic(auto, using(crate::proofs::Constructed::members_there, crate::proofs::Constructed::passed, crate::proofs::Constructed::plain_passed, crate::proofs::Constructed::destructor_passed))]
fn next_in<'u>(
    here: &Here<'_, 'u>,
    making: Making<'_>,
    node: Node<'u>,
    func: &'u CoreFunc,
) -> Result<Option<Change<'u>>, NoMemory>
    requires { func_in node ≡ Some func.now }
    ensures { IfOk result (λ c. after c (local_of here.now) ≡ step.pass (constructing (place_of making.entry.place.now) making.entry.class making.entry.built making.entry.taken making.entry.left (func_in node.entry)) (local_of here.now)) }
{
    match &func.role {
        FuncRole::Ctor(_, members) => {
            let change = next_of(here, making, node, func, members)?;
            Ok(Some(change))
        }
        FuncRole::Plain => Ok(None),
        FuncRole::Dtor(_) => Ok(None),
    }
}

fn func_of_node(node: Node<'_>) -> Option<&CoreFunc>
    ensures { option_copied result ≡ func_in node.entry }
{
    match node {
        Node::Func(unit, id) => unit.funcs.get(id.0 as usize),
        _ => None,
    }
}

/// What the frame `Constructing` of these parts does once what stands above it is done: the next member of the object is made, in
/// a full-expression of its own, and after the last one the body is done [class.base.init].
#[tactic(auto, using(crate::proofs::Constructed::none_passed))]
pub fn next_member<'u>(
    here: &Here<'_, 'u>,
    place: &Place,
    class: ClassId,
    built: u32,
    taken: usize,
    left: bool,
    node: Node<'u>,
) -> Result<Option<Change<'u>>, NoMemory>
    ensures { IfOk result (λ c. after c (local_of here.now) ≡ step.pass (constructing (place_of place.now) class built taken left (func_in node.entry)) (local_of here.now)) }
{
    let making = Making {
        place,
        class,
        built,
        taken,
        left,
    };
    match func_of_node(node) {
        Some(func) => next_in(here, making, node, func),
        None => Ok(None),
    }
}

/// The next field is made by this initializer, after which those of the node are left.
fn element_by<'u>(
    here: &Here<'_, 'u>,
    place: &Place,
    built: u32,
    init: &'u Init,
    rest: Node<'u>,
) -> Result<Change<'u>, NoMemory>
    ensures { IfOk result (λ c. Some (turned_by c (local_of here.now)) ≡ calls.next_element (place_of place.now) built (init.now ∷ inits_in rest.entry) (local_of here.now)) }
{
    let field = field_of(here.alloc, place, built)?;
    let around = place.copy(here.alloc)?;
    let one = here.one(Step::Building(around, built), rest)?;
    let frames = with(one, Step::FieldMade, Node::Nothing)?;
    Ok(here.above(frames, Task::Initialize(init, Some(field))))
}

#[tactic(auto, using(crate::proofs::Constructed::elements_left, crate::proofs::Constructed::no_element))]
fn next_of_list<'u>(
    here: &Here<'_, 'u>,
    place: &Place,
    built: u32,
    node: Node<'u>,
    list: &'u Items<Init>,
    from: usize,
) -> Result<Change<'u>, NoMemory>
    requires { inits_in node ≡ drop from list.now }
    ensures { IfOk result (λ c. Some (turned_by c (local_of here.now)) ≡ calls.next_element (place_of place.now) built (inits_in node.entry) (local_of here.now)) }
{
    match list.get(from) {
        Some(init) => {
            let next = number_after(from)?;
            let change = element_by(here, place, built, init, Node::Inits(list, next))?;
            Ok(change)
        }
        None => Ok(here.passes()),
    }
}

/// The next field of an aggregate is made. They are made one after the other, as parts of one full-expression [dcl.init.aggr].
pub fn next_element<'u>(
    here: &Here<'_, 'u>,
    place: &Place,
    built: u32,
    node: Node<'u>,
) -> Result<Change<'u>, NoMemory>
    ensures { IfOk result (λ c. Some (turned_by c (local_of here.now)) ≡ calls.next_element (place_of place.now) built (inits_in node.entry) (local_of here.now)) }
{
    match node {
        Node::Inits(list, from) => next_of_list(here, place, built, node, list, from),
        _ => Ok(here.passes()),
    }
}

/// One more field of an object is made, before the temporaries of its initializer die.
pub fn field_made<'u>(here: &Here<'_, 'u>) -> Change<'u>
    ensures { Some (turned_by result (local_of here.now)) ≡ calls.field_made (local_of here.now) }
{
    here.makes(
        Effect::FieldMade,
        Items::new(here.alloc),
        Task::Comes(Outcome::Passes),
    )
}
