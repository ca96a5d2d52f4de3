ghost use Rattle.std.specs.Prelude.{◌≡◌};
ghost use Rattle.co_core_acts.specs.Visits.{back};
ghost use Rattle.co_core_tree.specs.Slots.{class_params};
ghost use Rattle.co_eval_fulls.specs.FullActs.{acts_of_part};
ghost use Rattle.co_meaning_calls.specs.Calls.{arguments_acts, without};

use crate::params::takes_class;
use co_base::FuncId;
use co_core_acts::{Visitor, visit_await, visit_expr, visit_init};
use co_core_tree::{AwaitPlan, CoreExpr, CoreFunc, Init};

/// A part of the program that is a full-expression.
#[derive(Clone, Copy)]
pub(crate) enum Part<'a> {
    Expr(&'a CoreExpr),
    Init(&'a Init),
    /// The arguments of a call of a function, after those that are there, so many.
    Call(FuncId, usize, &'a [Init]),
    Await(&'a AwaitPlan),
}

/// Visits the acts of arguments, of which the first is for the parameter of the number `given`.
fn visit_arguments<V: Visitor>(
    visitor: &mut V,
    funcs: &[CoreFunc],
    func: FuncId,
    given: usize,
    args: &[Init],
)
    ensures { visitor.new ≡ back V.after visitor.old (arguments_acts funcs.now (without given (class_params funcs.now func)) args.now) }
{
    let mut at = args.len();
    while at > 0 {
        at -= 1;
        let object = takes_class(funcs, func, given, at);
        visit_init(visitor, funcs, false, object, &args[at]);
    }
}

/// Visits the acts of a full-expression, from the last to the first.
pub(crate) fn visit_part<V: Visitor>(visitor: &mut V, funcs: &[CoreFunc], part: Part<'_>)
    ensures { visitor.new ≡ back V.after visitor.old (acts_of_part funcs.now part.entry) }
{
    match part {
        Part::Expr(e) => {
            visit_expr(visitor, funcs, false, false, e);
        }
        Part::Init(init) => {
            visit_init(visitor, funcs, false, false, init);
        }
        Part::Call(func, given, rest) => visit_arguments(visitor, funcs, func, given, rest),
        Part::Await(plan) => {
            visit_await(visitor, funcs, plan);
        }
    }
}
