ghost use Rattle.std.specs.Prelude.{◌≡◌, [], ◌∷◌, List, fold, refl};
ghost use Rattle.std.specs.List.{list_all};
ghost use Rattle.co_core_tree.specs.declared.units.CoreFunc.{CoreFunc as Func};
ghost use Rattle.co_core_tree.specs.Slots as slots;
ghost use Rattle.co_core.specs.Jumps as spec;
ghost use Rattle.co_core_scopes.specs.Points.{Clear, begun, noted};

use co_base::SuspendId;
use co_core_tree::{CoreExpr, CoreFunc, Init, PromisePlan, UnitParts};
use co_core_walks::{Visitor, walk_func};

/// The suspension points that are marked, and whether each that was noted had no mark yet, was not 2 and is below 65,535.
/// Where `marks` is set a point that is noted is marked, and else its mark is taken away.
#[derive(Drop)]
struct Points {
    seen: [bool; 65_535],
    marks: bool,
    differ: bool,
}

impl Points {
    fn note(&mut self, point: SuspendId)
        ensures { self.new ≡ noted self.old point }
    {
        let at = point.0 as usize;
        if at < 65_535 {
            self.differ = self.differ && at != 2 && !self.seen[at];
            self.seen[at] = self.marks;
        } else {
            self.differ = false;
        }
    }

    fn note_plan(&mut self, plan: &Option<PromisePlan>)
        ensures { self.new ≡ fold noted self.old (spec.plan_points plan.now) }
    {
        match plan {
            Some(plan) => {
                self.note(plan.initial.point);
                self.note(plan.last.point);
            }
            None => {}
        }
    }

    fn note_func(&mut self, marks: bool, func: &CoreFunc)
        ensures { (funcs : List Func) → self.new ≡ fold noted (begun self.old marks) (spec.func_points funcs func.now) }
    {
        self.marks = marks;
        self.differ = true;
        self.note_plan(&func.plan);
        walk_func(self, func);
    }
}

/// No point is marked yet.
fn none_marked() -> Points
    ensures { Clear result }
{
    Points {
        seen: [false; 65_535],
        marks: true,
        differ: true,
    }
}

impl Visitor for Points {
    ghost after = { λ s act. fold noted s (slots.points (act ∷ [])) };

    fn visit_expr(&mut self, e: &CoreExpr) {
        match e {
            CoreExpr::Await(plan) => self.note(plan.get().point),
            _ => {}
        }
    }

    fn visit_init(&mut self, _i: &Init) {}

    ghost keeps = { λ s part. refl };

    ghost passes = { λ s slot i at c. refl };
}

/// Whether the points of a function's awaits are different, below 65,535 and not 2. The marks are taken away again.
fn func_points_differ(points: &mut Points, func: &CoreFunc) -> bool
    requires { Clear points.old }
    ensures clear { Clear points.new }
    ensures differ { (funcs : List Func) → result ≡ spec.func_points_differ funcs func.now }
{
    points.note_func(true, func);
    let differ = points.differ;
    points.note_func(false, func);
    differ
}

fn each_differs(points: &mut Points, unit: &UnitParts, funcs: &[CoreFunc]) -> bool
    requires { Clear points.old }
    ensures { result ≡ list_all (spec.func_points_differ unit.now.funcs) funcs.now }
{
    for func in funcs {
        let differ = func_points_differ(points, func);
        if !differ {
            return false;
        }
    }
    true
}

/// Whether the points of each function's awaits are different, below 65,535 and not 2 [dcl.fct.def.coroutine]. It takes no
/// memory.
pub fn points_differ(unit: &UnitParts) -> bool
    ensures { result ≡ spec.points_differ unit.now }
{
    let mut points = none_marked();
    each_differs(&mut points, unit, unit.funcs.as_slice())
}
