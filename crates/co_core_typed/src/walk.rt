ghost use Rattle.std.specs.Prelude.{◌≡◌, ◌&&◌, false, map};
ghost use Rattle.std.specs.Option.{option_copied};
ghost use Rattle.std.specs.List.{list_all};
ghost use Rattle.co_types.specs.Types.{head_of};
ghost use Rattle.co_core_typing.specs.Forms as form;
ghost use Rattle.co_core_typing.specs.Gives as give;
ghost use Rattle.co_core_types.specs.Seen.{known_type, seen};
ghost use Rattle.co_core_typing.specs.Rules.{await_typed, gives, typed, init_typed, arguments_typed, members_typed, has_members, inside, fields_of_head};
ghost use Rattle.co_core_typed.specs.Seen.{wholes_of};
ghost use Rattle.co_core_typing.specs.Tables as table;

use crate::checked::{
    Checked, address, arith, awaited, chosen, convert, delete, deref, exchange, field, given,
    is_argument, load, logical, makes_temp, named, one, pick, results, rethrow, same, store, test,
    throw, update, value,
};
use crate::tables::{
    call_gives, class_info, constructs, func_at, global_place, is_plain, slot_of, slot_place,
    slot_type,
};
use crate::wholes::{Wholes, whole_place};
use co_base::SlotId;
use co_core_tree::{
    AtomicOp, AwaitPlan, CoreExpr, CoreFunc, HandleOp, Init, LibOp, NewPlan, UnitParts,
};
use co_core_types::{
    Known, View, atomic_alone, atomic_with, atomic_with_two, handle_alone, handle_with, is_object,
    is_raw, lib_alone, lib_with, lib_with_two, number, plain_kind, pointer_kind,
};
use co_types::{FieldInfo, Head};

/// The unit and the function in which an expression stands.
#[derive(Clone, Copy)]
pub struct Scene<'a> {
    pub unit: &'a UnitParts,
    pub func: &'a CoreFunc,
}

/// Whether each part of an expression has the type that its form needs, and what it gives. It takes no memory.
#[cycle(typing)]
#[tactic(auto, using(crate::proofs::Forms::opened))]
pub fn check<'a>(scene: Scene<'a>, e: &'a CoreExpr, wholes: &Wholes<'_>) -> Checked<'a>
    ensures fits { result.fits ≡ typed scene.entry.unit.now scene.entry.func.now (wholes_of wholes.now) e.now }
    ensures view { seen result.view ≡ gives scene.entry.unit.now scene.entry.func.now (wholes_of wholes.now) e.now }
{
    match e {
        CoreExpr::Const(num, _, _) => given(number(*num)),
        CoreExpr::Null(_) => given(View::Value(plain_kind(Head::NullPtr))),
        CoreExpr::Slot(slot, _) => named(slot_place(scene.func, *slot)),
        CoreExpr::Global(global, _) => named(global_place(scene.unit.globals.as_slice(), *global)),
        CoreExpr::Field(object, number, _) => field(
            &scene.unit.classes,
            check(scene, object.get(), wholes),
            *number,
        ),
        CoreExpr::Deref(pointer, _) => deref(check(scene, pointer.get(), wholes)),
        CoreExpr::Address(place, _) => address(check(scene, place.get(), wholes)),
        CoreExpr::Whole(at, _) => named(whole_place(wholes, *at)),
        CoreExpr::Load(place, _) => load(check(scene, place.get(), wholes)),
        CoreExpr::Store(place, value, _) => store(
            check(scene, place.get(), wholes),
            check(scene, value.get(), wholes),
        ),
        CoreExpr::Exchange(place, value, _) => exchange(
            check(scene, place.get(), wholes),
            check(scene, value.get(), wholes),
        ),
        CoreExpr::Update(op, num, place, value, old, _) => update(
            *op,
            *num,
            check(scene, place.get(), wholes),
            check(scene, value.get(), wholes),
            *old,
        ),
        CoreExpr::Arith(op, num, left, right, _) => arith(
            *op,
            *num,
            check(scene, left.get(), wholes),
            check(scene, right.get(), wholes),
        ),
        CoreExpr::Convert(num, part, _) => convert(*num, check(scene, part.get(), wholes)),
        CoreExpr::Test(part, _) => test(check(scene, part.get(), wholes)),
        CoreExpr::Same(left, right, _) => same(
            check(scene, left.get(), wholes),
            check(scene, right.get(), wholes),
        ),
        CoreExpr::Both(left, right, _) => logical(
            check(scene, left.get(), wholes),
            check(scene, right.get(), wholes),
        ),
        CoreExpr::Either(left, right, _) => logical(
            check(scene, left.get(), wholes),
            check(scene, right.get(), wholes),
        ),
        CoreExpr::Pick(condition, x, y, _) => pick(
            check(scene, condition.get(), wholes),
            check(scene, x.get(), wholes),
            check(scene, y.get(), wholes),
        ),
        CoreExpr::Call(func, args, _) => call(
            scene,
            args.as_slice(),
            func_at(scene.unit.funcs.as_slice(), *func),
            wholes,
        ),
        CoreExpr::Temp(slot, init, _) => Checked {
            fits: init_fits(
                scene,
                init.get(),
                slot_type(scene.func, *slot),
                false,
                wholes,
            ),
            view: slot_place(scene.func, *slot),
        },
        CoreExpr::Throw(of, part, _) => throw(
            &scene.unit.classes,
            of,
            check(scene, part.get(), wholes),
        ),
        CoreExpr::Rethrow(_) => given(View::Throws),
        CoreExpr::Terminate(_) => given(View::Nothing),
        CoreExpr::Current(_) => given(View::Value(plain_kind(Head::ExceptionPtr))),
        CoreExpr::RethrowPtr(part, _) => rethrow(check(scene, part.get(), wholes)),
        CoreExpr::Await(plan) => check_await(scene, plan.get(), wholes),
        CoreExpr::Handle(op, operands, _) => handle(scene, operands.as_slice(), *op, wholes),
        CoreExpr::Atomic(op, operands, _) => atomic(scene, operands.as_slice(), *op, wholes),
        CoreExpr::Lib(op, operands, _) => lib(scene, operands.as_slice(), *op, wholes),
        CoreExpr::New(plan) => check_new(scene, plan.get(), wholes),
        CoreExpr::Delete(plan) => delete(&plan.get().of, check(scene, &plan.get().pointer, wholes)),
    }
}

/// Whether the parts of an await fit, and what it gives [expr.await].
#[cycle(typing)]
pub fn check_await<'a>(scene: Scene<'a>, plan: &'a AwaitPlan, wholes: &Wholes<'_>) -> Checked<'a>
    ensures fits { result.fits ≡ await_typed scene.entry.unit.now scene.entry.func.now (wholes_of wholes.now) plan.now }
    ensures view { seen result.view ≡ gives scene.entry.unit.now scene.entry.func.now (wholes_of wholes.now) plan.now.resume }
{
    let operand = check(scene, &plan.operand, wholes);
    let ready = check(scene, &plan.ready, wholes);
    let suspend = check(scene, &plan.suspend, wholes);
    let resume = check(scene, &plan.resume, wholes);
    let temp = makes_temp(plan.holder, &plan.operand);
    awaited(
        slot_of(scene.func, plan.holder),
        temp,
        plan.answer,
        operand,
        ready,
        suspend,
        resume,
    )
}

#[cycle(typing)]
fn check_new<'a>(scene: Scene<'a>, plan: &'a NewPlan, wholes: &Wholes<'_>) -> Checked<'a>
    ensures fits { result.fits ≡ (form.is_object (head_of plan.now.of) && init_typed scene.entry.unit.now scene.entry.func.now (wholes_of wholes.now) false plan.now.of plan.now.init) }
    ensures view { seen result.view ≡ give.Value (give.pointer_shape plan.now.of) }
{
    let of = Known::Of(&plan.of);
    Checked {
        fits: is_object(of.head()) && init_fits(scene, &plan.init, of, false, wholes),
        view: View::Value(pointer_kind(of)),
    }
}

#[cycle(typing)]
fn call<'a>(
    scene: Scene<'a>,
    args: &'a [Init],
    callee: Option<&'a CoreFunc>,
    wholes: &Wholes<'_>,
) -> Checked<'a>
    ensures fits { result.fits ≡ (table.is_plain (option_copied callee.entry) && arguments_typed scene.entry.unit.now scene.entry.func.now (wholes_of wholes.now) (table.param_types_of (option_copied callee.entry)) args.now) }
    ensures view { seen result.view ≡ table.call_gives (option_copied callee.entry) }
{
    Checked {
        fits: is_plain(callee) && call_fits(scene, args, callee, wholes),
        view: call_gives(callee),
    }
}

#[cycle(typing)]
fn call_fits(
    scene: Scene<'_>,
    args: &[Init],
    callee: Option<&CoreFunc>,
    wholes: &Wholes<'_>,
) -> bool
    ensures { result ≡ arguments_typed scene.entry.unit.now scene.entry.func.now (wholes_of wholes.now) (table.param_types_of (option_copied callee.entry)) args.now }
{
    match callee {
        Some(func) => arguments_fit(scene, args, func, func.params.as_slice(), wholes),
        None => args.is_empty(),
    }
}

/// Whether an initializer makes an object of the type; the flag tells whether that is the object of a parameter.
#[cycle(typing)]
#[tactic(auto, using(crate::proofs::Forms::opened))]
pub fn init_fits(
    scene: Scene<'_>,
    init: &Init,
    to: Known<'_>,
    object: bool,
    wholes: &Wholes<'_>,
) -> bool
    ensures { result ≡ init_typed scene.entry.unit.now scene.entry.func.now (wholes_of wholes.now) object (known_type to.entry) init.now }
{
    match init {
        Init::Ctor(func, args) => constructor_fits(
            scene,
            args.as_slice(),
            to.head(),
            func_at(scene.unit.funcs.as_slice(), *func),
            wholes,
        ),
        Init::Members(members) => members_fit(scene, members.as_slice(), to.head(), wholes),
        Init::Value(e) => value(check(scene, e, wholes), is_argument(object, e), to),
        Init::Result(e) => results(to.head(), check(scene, e, wholes)),
        Init::Raw => is_raw(to.head()),
        Init::Choose(e, x, y) => chosen(
            to.head(),
            check(scene, e, wholes),
            init_fits(scene, x.get(), to, false, wholes),
            init_fits(scene, y.get(), to, false, wholes),
        ),
    }
}

#[cycle(typing)]
fn constructor_fits(
    scene: Scene<'_>,
    args: &[Init],
    head: Head,
    callee: Option<&CoreFunc>,
    wholes: &Wholes<'_>,
) -> bool
    ensures { result ≡ (table.constructs (option_copied callee.entry) head && arguments_typed scene.entry.unit.now scene.entry.func.now (wholes_of wholes.now) (table.after_first (table.param_types_of (option_copied callee.entry))) args.now) }
{
    match callee {
        Some(func) => constructs(callee, head) && after_this(scene, args, func, wholes),
        None => false,
    }
}

/// Whether the arguments fit the parameters but for the first, which refers to the object that is constructed.
#[cycle(typing)]
pub fn after_this(scene: Scene<'_>, args: &[Init], callee: &CoreFunc, wholes: &Wholes<'_>) -> bool
    ensures { result ≡ arguments_typed scene.entry.unit.now scene.entry.func.now (wholes_of wholes.now) (table.after_first (table.param_types callee.now)) args.now }
{
    match callee.params.as_slice() {
        [] => args.is_empty(),
        [_, rest @ ..] => arguments_fit(scene, args, callee, rest, wholes),
    }
}

/// Whether each argument makes what its parameter holds.
#[cycle(typing)]
fn arguments_fit(
    scene: Scene<'_>,
    args: &[Init],
    callee: &CoreFunc,
    params: &[SlotId],
    wholes: &Wholes<'_>,
) -> bool
    ensures { result ≡ arguments_typed scene.entry.unit.now scene.entry.func.now (wholes_of wholes.now) (table.types_of callee.now params.now) args.now }
{
    let mut rest = params;
    for arg in args {
        let [param, next @ ..] = rest else {
            return false;
        };
        if !init_fits(scene, arg, slot_type(callee, *param), true, wholes) {
            return false;
        }
        rest = next;
    }
    rest.is_empty()
}

#[cycle(typing)]
fn members_fit(scene: Scene<'_>, members: &[Init], to: Head, wholes: &Wholes<'_>) -> bool
    ensures { result ≡ (has_members scene.entry.unit.now.classes to && members_typed scene.entry.unit.now scene.entry.func.now (inside to (wholes_of wholes.now)) (fields_of_head scene.entry.unit.now.classes to) members.now) }
{
    match to {
        Head::Class(class) => match class_info(&scene.unit.classes, class) {
            Some(info) => fields_fit(
                scene,
                members,
                info.fields.as_slice(),
                &Wholes::Inside(class, &*wholes),
            ),
            None => false,
        },
        Head::SuspendAlways | Head::SuspendNever => members.is_empty(),
        _ => false,
    }
}

/// Whether each initializer makes an object of its field.
#[cycle(typing)]
pub fn fields_fit(
    scene: Scene<'_>,
    members: &[Init],
    fields: &[FieldInfo],
    wholes: &Wholes<'_>,
) -> bool
    ensures { result ≡ members_typed scene.entry.unit.now scene.entry.func.now (wholes_of wholes.now) fields.now members.now }
{
    let mut rest = fields;
    for member in members {
        let [field, next @ ..] = rest else {
            return false;
        };
        if !init_fits(scene, member, Known::Of(&field.of), false, wholes) {
            return false;
        }
        rest = next;
    }
    rest.is_empty()
}

#[cycle(typing)]
fn handle<'a>(
    scene: Scene<'a>,
    operands: &'a [CoreExpr],
    op: HandleOp,
    wholes: &Wholes<'_>,
) -> Checked<'a>
    ensures fits { result.fits ≡ (list_all (typed scene.entry.unit.now scene.entry.func.now (wholes_of wholes.now)) operands.now && give.is_right (form.handle_gives op (map (gives scene.entry.unit.now scene.entry.func.now (wholes_of wholes.now)) operands.now))) }
    ensures view { seen result.view ≡ form.handle_gives op (map (gives scene.entry.unit.now scene.entry.func.now (wholes_of wholes.now)) operands.now) }
{
    match operands {
        [] => named(handle_alone(op)),
        [e] => {
            let part = check(scene, e, wholes);
            one(part.fits, handle_with(op, part.view))
        }
        _ => named(View::Wrong),
    }
}

#[cycle(typing)]
fn atomic<'a>(
    scene: Scene<'a>,
    operands: &'a [CoreExpr],
    op: AtomicOp,
    wholes: &Wholes<'_>,
) -> Checked<'a>
    ensures fits { result.fits ≡ (list_all (typed scene.entry.unit.now scene.entry.func.now (wholes_of wholes.now)) operands.now && give.is_right (form.atomic_gives op (map (gives scene.entry.unit.now scene.entry.func.now (wholes_of wholes.now)) operands.now))) }
    ensures view { seen result.view ≡ form.atomic_gives op (map (gives scene.entry.unit.now scene.entry.func.now (wholes_of wholes.now)) operands.now) }
{
    match operands {
        [place] => {
            let place = check(scene, place, wholes);
            one(place.fits, atomic_alone(op, place.view))
        }
        [place, value] => {
            let place = check(scene, place, wholes);
            let value = check(scene, value, wholes);
            one(
                place.fits && value.fits,
                atomic_with(op, place.view, value.view),
            )
        }
        [place, expected, value] => {
            let place = check(scene, place, wholes);
            let expected = check(scene, expected, wholes);
            let value = check(scene, value, wholes);
            one(
                place.fits && (expected.fits && value.fits),
                atomic_with_two(op, place.view, expected.view, value.view),
            )
        }
        _ => named(View::Wrong),
    }
}

#[cycle(typing)]
fn lib<'a>(
    scene: Scene<'a>,
    operands: &'a [CoreExpr],
    op: LibOp,
    wholes: &Wholes<'_>,
) -> Checked<'a>
    ensures fits { result.fits ≡ (list_all (typed scene.entry.unit.now scene.entry.func.now (wholes_of wholes.now)) operands.now && give.is_right (form.lib_gives op (map (gives scene.entry.unit.now scene.entry.func.now (wholes_of wholes.now)) operands.now))) }
    ensures view { seen result.view ≡ form.lib_gives op (map (gives scene.entry.unit.now scene.entry.func.now (wholes_of wholes.now)) operands.now) }
{
    match operands {
        [] => named(lib_alone(op)),
        [e] => {
            let part = check(scene, e, wholes);
            one(part.fits, lib_with(op, part.view))
        }
        [first, second] => {
            let first = check(scene, first, wholes);
            let second = check(scene, second, wholes);
            one(
                first.fits && second.fits,
                lib_with_two(op, first.view, second.view),
            )
        }
        _ => named(View::Wrong),
    }
}
