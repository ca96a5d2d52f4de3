ghost use Rattle.std.specs.Prelude.{◌≡◌, length};
ghost use Rattle.co_core_tree.specs.Acts as acts;
ghost use Rattle.co_core_tree.specs.Slots.{points};
ghost use Rattle.co_core.specs.Bodies.{func_acts};
ghost use Rattle.co_core.specs.Counts as spec;
ghost use Rattle.co_core_counts.specs.Left.{less};

use co_core_acts::{Order, Visitor, visit_func};
use co_core_tree::{CoreExpr, CoreFunc, Init};

/// How many suspension points there may still be, and none where there were more.
#[derive(Drop)]
pub(crate) struct Points {
    pub left: Option<u32>,
}

/// What is left after one more.
#[tactic(auto, using(crate::proofs::Left::less_one))]
fn spend(left: Option<u32>) -> Option<u32>
    ensures { result ≡ less left 1 }
{
    match left {
        Some(left) => { if left == 0 { None } else { Some(left - 1) } }
        None => None,
    }
}

fn is_await(e: &CoreExpr) -> bool
    ensures { result ≡ acts.is_await e.now }
{
    match e {
        CoreExpr::Await(_) => true,
        _ => false,
    }
}

impl Visitor for Points {
    ghost use Rattle.co_core_counts.specs.Spent.{points_after};

    ghost after = { points_after };

    fn does(&mut self, _conditional: bool, e: &CoreExpr) {
        if is_await(e) {
            self.left = spend(self.left);
        }
    }

    fn passes(&mut self, _e: &CoreExpr) {}

    fn starts(&mut self, _init: &Init) {}

    fn keeps_expr(&mut self, _e: &CoreExpr) {}

    fn keeps_init(&mut self, _init: &Init) {}
}

/// What is left after the suspension points of a coroutine, of which there is one more than awaits.
fn after_coroutine(funcs: &[CoreFunc], func: &CoreFunc, left: Option<u32>) -> Option<u32>
    ensures { result ≡ less (less (less (less left 1) 1) 1) (length (points (func_acts funcs.now func.now))) }
{
    let mut points = Points {
        left: spend(spend(spend(left))),
    };
    visit_func(&mut points, funcs, Order::Text, func);
    points.left
}

fn after_func(funcs: &[CoreFunc], func: &CoreFunc, left: Option<u32>) -> Option<u32>
    ensures { result ≡ less left (spec.point_count funcs.now func.now func.now.plan) }
{
    match &func.plan {
        Some(_) => after_coroutine(funcs, func, left),
        None => left,
    }
}

/// What is left after the suspension points of all functions.
pub(crate) fn after_funcs(funcs: &[CoreFunc], left: Option<u32>) -> Option<u32>
    ensures { result ≡ less left (spec.sum_points funcs.now funcs.now) }
{
    let mut now = left;
    for func in funcs {
        now = after_func(funcs, func, now);
    }
    now
}
