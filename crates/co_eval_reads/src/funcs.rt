ghost use Rattle.std.specs.Prelude.{◌≡◌, ◌≤◌, if◌then◌else◌, is_some, slice_get};
ghost use Rattle.std.specs.Option.{option_copied};
ghost use Rattle.co_core_tree.specs.Sizes as sizes;
ghost use Rattle.co_core_tree.specs.Slots as slots;
ghost use Rattle.co_eval_data.specs.Agents.{local_of};
ghost use Rattle.co_meaning_calls.specs.Coroutines as coroutines;
ghost use Rattle.co_meaning_calls.specs.Objects as objects;
ghost use Rattle.co_meaning_data.specs.Turn as turn;
ghost use Rattle.co_types.specs.Classes as classes;

use co_base::{ClassId, FuncId, Span};
use co_core_tree::{CoreFunc, PromisePlan, SlotKind};
use co_eval_data::Here;
use co_types::{ClassInfo, ClassTable, CoType, FuncInfo, Head};

/// The function of this number.
#[tactic(auto, unfolding(co_eval_data::specs::Agents::local_of))]
pub fn func_at<'u>(here: &Here<'_, 'u>, id: FuncId) -> Option<&'u CoreFunc>
    ensures { option_copied result ≡ slice_get (turn.funcs (local_of here.now)) id.0 }
{
    let unit = here.program.unit;
    unit.funcs.get(id.0 as usize)
}

/// The function of the activation.
#[tactic(auto, unfolding(co_eval_data::specs::Agents::local_of))]
pub fn func<'u>(here: &Here<'_, 'u>) -> Option<&'u CoreFunc>
    ensures { option_copied result ≡ turn.func_of (local_of here.now) }
{
    func_at(here, here.top.func)
}

/// What stands around the body of the function, where it is a coroutine.
#[tactic(auto, unfolding(co_eval_data::specs::Agents::local_of))]
pub fn plan<'u>(here: &Here<'_, 'u>) -> Option<&'u PromisePlan>
    ensures { option_copied result ≡ coroutines.plan_of (local_of here.now) }
{
    match func(here) {
        Some(func) => func.plan.as_ref(),
        None => None,
    }
}

/// The place of the function in the text.
#[tactic(auto, unfolding(co_eval_data::specs::Agents::local_of))]
pub fn func_span(here: &Here<'_, '_>) -> Span
    ensures { result ≡ coroutines.func_span (local_of here.now) }
{
    match func(here) {
        Some(func) => func.span,
        None => Span { line: 0, col: 0 },
    }
}

/// Whether no exception may leave the function [except.spec].
#[tactic(auto, unfolding(co_eval_data::specs::Agents::local_of))]
pub fn is_noexcept(here: &Here<'_, '_>) -> bool
    ensures { result ≡ coroutines.is_noexcept_in (turn.func_of (local_of here.now)) }
{
    match func(here) {
        Some(func) => func.noexcept,
        None => false,
    }
}

/// The object that stands in a slot.
#[tactic(auto, unfolding(co_eval_data::specs::Agents::local_of))]
pub fn object_in(here: &Here<'_, '_>, slot: u32) -> Option<u64>
    ensures { result ≡ turn.object_in (local_of here.now) slot }
{
    match here.top.slots.get(slot as usize) {
        Some(object) => *object,
        None => None,
    }
}

/// The type of a slot of the function.
#[tactic(auto, unfolding(co_eval_data::specs::Agents::local_of))]
pub fn type_of_slot<'u>(here: &Here<'_, 'u>, slot: u32) -> Option<&'u CoType>
    ensures { option_copied result ≡ objects.type_of_slot (local_of here.now) slot }
{
    match func(here) {
        Some(func) => type_in(func, slot),
        None => None,
    }
}

fn type_in(func: &CoreFunc, slot: u32) -> Option<&CoType>
    ensures { option_copied result ≡ objects.slot_type_in (slice_get func.now.slots slot) }
{
    match func.slots.get(slot as usize) {
        Some(info) => Some(&info.of),
        None => None,
    }
}

/// Whether objects of this type have members: it is a class of the file.
pub fn is_class(of: &CoType) -> bool
    ensures { result ≡ slots.is_class of.now }
{
    match of.head() {
        Head::Class(_) => true,
        _ => false,
    }
}

/// The coroutine in which the births and the deaths of the objects of a slot of this type are seen.
#[tactic(auto, unfolding(co_eval_data::specs::Agents::local_of))]
pub fn counted_in(here: &Here<'_, '_>, of: &CoType) -> Option<u64>
    ensures { result ≡ objects.counted_in (local_of here.now) of.now }
{
    if is_class(of) {
        here.top.coroutine
    } else {
        None
    }
}

/// One if the function is a coroutine.
fn one_if_coroutine(func: &CoreFunc) -> usize
    ensures count { result ≡ (if is_some func.now.plan then 1 else 0) }
    ensures bound { result ≤ 1 }
{
    if func.plan.is_some() { 1 } else { 0 }
}

/// How many of the first `count` functions are coroutines.
#[tactic(auto, using(crate::proofs::Counting::before_none, crate::proofs::Counting::before_next, crate::proofs::Counting::before_past))]
fn coroutines_before(funcs: &[CoreFunc], count: u32) -> usize
    ensures { result ≡ turn.coroutines_before count funcs.now }
{
    let mut before = 0;
    let mut left = count;
    let mut rest = funcs;
    while let [func, next @ ..] = rest {
        if left == 0 {
            return before;
        }
        before += one_if_coroutine(func);
        left -= 1;
        rest = next;
    }
    before
}

/// The bytes of the frame of the coroutine that is called or runs.
#[tactic(auto, unfolding(co_eval_data::specs::Agents::local_of))]
pub fn frame_bytes(here: &Here<'_, '_>) -> u64
    ensures { result ≡ turn.frame_bytes (local_of here.now) }
{
    let at = coroutines_before(here.program.unit.funcs.as_slice(), here.top.func.0);
    match here.program.sizes.get(at) {
        Some(bytes) => *bytes,
        None => 0,
    }
}

/// Whether a slot of the function is that of an awaiter that is no temporary.
#[tactic(auto, unfolding(co_eval_data::specs::Agents::local_of))]
pub fn holds_awaiter(here: &Here<'_, '_>, slot: u32) -> bool
    ensures { result ≡ coroutines.holder_in (turn.func_of (local_of here.now)) slot }
{
    match func(here) {
        Some(func) => is_held_in(func, slot),
        None => false,
    }
}

fn is_held_in(func: &CoreFunc, slot: u32) -> bool
    ensures { result ≡ slots.is_held (slice_get func.now.slots slot) }
{
    match func.slots.get(slot as usize) {
        Some(info) => matches!(info.kind, SlotKind::Held),
        None => false,
    }
}

fn is_destructor_name(class: &[u8], name: &[u8]) -> bool
    ensures { result ≡ classes.is_destructor_name class.now name.now }
{
    match name {
        [b'~', rest @ ..] => rest == class,
        _ => false,
    }
}

/// The function among these that is the destructor of the class of this name.
fn destructor_among<'a>(class: &[u8], funcs: &'a [FuncInfo]) -> Option<&'a FuncInfo>
    ensures { option_copied result ≡ sizes.destructor_among class.now funcs.now }
{
    let mut rest = funcs;
    while let [func, next @ ..] = rest {
        if is_destructor_name(class, func.name.as_slice()) {
            return Some(func);
        }
        rest = next;
    }
    None
}

/// The class of this number.
pub(crate) fn class_info(classes: &ClassTable, class: ClassId) -> Option<&ClassInfo>
    ensures { option_copied result ≡ slice_get classes.now class.0 }
{
    if class.0 < classes.len() {
        Some(classes.info(class))
    } else {
        None
    }
}

/// The destructor of a class [class.dtor].
fn destructor_of(classes: &ClassTable, class: ClassId) -> Option<FuncId>
    ensures { result ≡ objects.id_of (sizes.dtor_of classes.now class) }
{
    let info = class_info(classes, class)?;
    let dtor = destructor_among(info.name.as_slice(), info.funcs.as_slice())?;
    Some(dtor.id)
}

/// The destructor of the objects of a type, where they have one [class.dtor].
#[tactic(auto, unfolding(co_eval_data::specs::Agents::local_of))]
pub fn dtor_of_type(here: &Here<'_, '_>, of: Option<&CoType>) -> Option<FuncId>
    ensures { result ≡ objects.dtor_of_type (local_of here.now) (option_copied of.entry) }
{
    match of {
        Some(of) => dtor_of_head(here, of.head()),
        None => None,
    }
}

#[tactic(auto, unfolding(co_eval_data::specs::Agents::local_of))]
fn dtor_of_head(here: &Here<'_, '_>, head: Head) -> Option<FuncId>
    ensures { result ≡ objects.dtor_of_head (local_of here.now) head }
{
    match head {
        Head::Class(class) => destructor_of(&here.program.unit.classes, class),
        _ => None,
    }
}
