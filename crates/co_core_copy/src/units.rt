ghost use Rattle.std.specs.Prelude.{◌≡◌, IfOk};
ghost use Rattle.std.specs.Option.{option_copied};

use crate::exprs::{copy_await, copy_init, copy_inits};
use crate::stmts::copy_stmt;
use co_base::{NoMemory, SlotId, Text};
use co_core_tree::{CopyPlan, CoreFunc, FuncRole, GlobalInfo, PromisePlan, SlotInfo, UnitParts};
use sqlite_items::Items;
use std::alloc::Global;

fn copy_global(alloc: Global, global: &GlobalInfo) -> Result<GlobalInfo, NoMemory>
    ensures { IfOk result (λ copied. copied ≡ global.now) }
{
    let of = global.of.copy(alloc)?;
    Ok(GlobalInfo {
        of,
        value: global.value,
    })
}

fn copy_globals(alloc: Global, globals: &[GlobalInfo]) -> Result<Items<GlobalInfo>, NoMemory>
    ensures { IfOk result (λ copied. copied ≡ globals.now) }
{
    let mut copied = Items::new(alloc);
    for item in globals {
        copied.push(copy_global(alloc, item)?)?;
    }
    Ok(copied)
}

fn copy_slot(alloc: Global, slot: &SlotInfo) -> Result<SlotInfo, NoMemory>
    ensures { IfOk result (λ copied. copied ≡ slot.now) }
{
    let of = slot.of.copy(alloc)?;
    Ok(SlotInfo {
        of,
        kind: slot.kind,
    })
}

fn copy_slots(alloc: Global, slots: &[SlotInfo]) -> Result<Items<SlotInfo>, NoMemory>
    ensures { IfOk result (λ copied. copied ≡ slots.now) }
{
    let mut copied = Items::new(alloc);
    for item in slots {
        copied.push(copy_slot(alloc, item)?)?;
    }
    Ok(copied)
}

fn copy_params(alloc: Global, params: &[SlotId]) -> Result<Items<SlotId>, NoMemory>
    ensures { IfOk result (λ copied. copied ≡ params.now) }
{
    let mut copied = Items::new(alloc);
    for item in params {
        copied.push(*item)?;
    }
    Ok(copied)
}

fn copy_texts(alloc: Global, texts: &[Text]) -> Result<Items<Text>, NoMemory>
    ensures { IfOk result (λ copied. copied ≡ texts.now) }
{
    let mut copied = Items::new(alloc);
    for item in texts {
        copied.push(item.copy()?)?;
    }
    Ok(copied)
}

fn copy_role(alloc: Global, role: &FuncRole) -> Result<FuncRole, NoMemory>
    ensures { IfOk result (λ copied. copied ≡ role.now) }
{
    match role {
        FuncRole::Plain => Ok(FuncRole::Plain),
        FuncRole::Ctor(class, members) => {
            let members = copy_inits(alloc, members.as_slice())?;
            Ok(FuncRole::Ctor(*class, members))
        }
        FuncRole::Dtor(class) => Ok(FuncRole::Dtor(*class)),
    }
}

fn copy_copy_plan(alloc: Global, plan: &CopyPlan) -> Result<CopyPlan, NoMemory>
    ensures { IfOk result (λ copied. copied ≡ plan.now) }
{
    let init = copy_init(alloc, &plan.init)?;
    Ok(CopyPlan {
        from: plan.from,
        to: plan.to,
        init,
    })
}

fn copy_copies(alloc: Global, copies: &[CopyPlan]) -> Result<Items<CopyPlan>, NoMemory>
    ensures { IfOk result (λ copied. copied ≡ copies.now) }
{
    let mut copied = Items::new(alloc);
    for item in copies {
        copied.push(copy_copy_plan(alloc, item)?)?;
    }
    Ok(copied)
}

fn copy_promise(alloc: Global, plan: &PromisePlan) -> Result<PromisePlan, NoMemory>
    ensures { IfOk result (λ copied. copied ≡ plan.now) }
{
    let ctor_args = copy_inits(alloc, plan.ctor_args.as_slice())?;
    let copies = copy_copies(alloc, plan.copies.as_slice())?;
    let take_args = copy_inits(alloc, plan.take_args.as_slice())?;
    let initial = copy_await(alloc, &plan.initial)?;
    let last = copy_await(alloc, &plan.last)?;
    Ok(PromisePlan {
        promise: plan.promise,
        ctor: plan.ctor,
        with_params: plan.with_params,
        ctor_args,
        copies,
        take: plan.take,
        take_args,
        on_null: plan.on_null,
        give: plan.give,
        result: plan.result,
        initial,
        last,
        returns: plan.returns,
        unhandled: plan.unhandled,
    })
}

fn copy_plan(alloc: Global, plan: Option<&PromisePlan>) -> Result<Option<PromisePlan>, NoMemory>
    ensures { IfOk result (λ copied. copied ≡ option_copied plan.entry) }
{
    match plan {
        Some(plan) => {
            let plan = copy_promise(alloc, plan)?;
            Ok(Some(plan))
        }
        None => Ok(None),
    }
}

fn copy_func(alloc: Global, func: &CoreFunc) -> Result<CoreFunc, NoMemory>
    ensures { IfOk result (λ copied. copied ≡ func.now) }
{
    let name = func.name.copy()?;
    let params = copy_params(alloc, func.params.as_slice())?;
    let result = func.result.copy(alloc)?;
    let slots = copy_slots(alloc, func.slots.as_slice())?;
    let body = copy_stmt(alloc, &func.body)?;
    let plan = copy_plan(alloc, func.plan.as_ref())?;
    let role = copy_role(alloc, &func.role)?;
    Ok(CoreFunc {
        name,
        params,
        result,
        slots,
        body,
        noexcept: func.noexcept,
        plan,
        role,
        span: func.span,
    })
}

fn copy_funcs(alloc: Global, funcs: &[CoreFunc]) -> Result<Items<CoreFunc>, NoMemory>
    ensures { IfOk result (λ copied. copied ≡ funcs.now) }
{
    let mut copied = Items::new(alloc);
    for item in funcs {
        copied.push(copy_func(alloc, item)?)?;
    }
    Ok(copied)
}

/// The parts of a unit that are equal to these.
pub fn copy(alloc: Global, unit: &UnitParts) -> Result<UnitParts, NoMemory>
    ensures { IfOk result (λ copied. copied ≡ unit.now) }
{
    let classes = unit.classes.copy(alloc)?;
    let globals = copy_globals(alloc, unit.globals.as_slice())?;
    let funcs = copy_funcs(alloc, unit.funcs.as_slice())?;
    let texts = copy_texts(alloc, unit.texts.as_slice())?;
    Ok(UnitParts {
        classes,
        globals,
        funcs,
        texts,
        main: unit.main,
    })
}
