ghost use Rattle.std.specs.Prelude.{◌≡◌, Bool, true, ◌&&◌};
ghost use Rattle.std.specs.List.{list_all};
ghost use Rattle.std.proofs.Common.{ap};
ghost use Rattle.co_base.specs.declared.ids.SlotId.{SlotId};
ghost use Rattle.co_base.specs.declared.span.Span.{Span};
ghost use Rattle.co_core_tree.specs.declared.exprs.CoreExpr.TheVariants as expr;
ghost use Rattle.co_core_tree.specs.declared.exprs.Init.{Init as Initializer};
ghost use Rattle.co_core_tree.specs.Acts.{Act, Part, Does, Passes, Starts, Keeps};
ghost use Rattle.co_core.specs.Bodies.{Placed, body_of, func_acts, joined_acts, own_fulls};
ghost use Rattle.co_core_walks.specs.Seen.{stands_of};

use crate::bodies::{Standing, StmtVisitor, walk_body};
use crate::fulls::{walk_func, walk_own};
use crate::scene::Scene;
use crate::visitor::Visitor;
use co_core_tree::{CoreExpr, CoreFunc, CoreStmt, Init};

/// A test on each act of an evaluation, of which only expressions and initializers are tested.
pub trait Rule {
    ghost test: { Self → Act → Bool };

    fn expr_holds(&self, e: &CoreExpr) -> bool
        ensures { (conditional : Bool) → result ≡ test self.now (Does conditional e.now) };

    fn init_holds(&self, i: &Init) -> bool
        ensures { result ≡ test self.now (Starts i.now) };

    ghost keeps: { (r : Self) (part : Part) → test r (Keeps part) ≡ true };

    ghost passes: { (r : Self) (slot : SlotId) (i : Initializer) (at : Span) (c : Bool) → test r (Passes (expr.Temp slot i at)) ≡ test r (Does c (expr.Temp slot i at)) };
}

/// A rule, and whether it has held at each act so far.
#[derive(Drop)]
struct Tested<'a, T> {
    rule: &'a T,
    holds: bool,
}

impl<T: Rule> Visitor for Tested<'_, T> {
    ghost after = { λ s act. record { rule = s.rule; holds = T.test s.rule.now act && s.holds } };

    fn visit_expr(&mut self, e: &CoreExpr) {
        self.holds = self.rule.expr_holds(e) && self.holds;
    }

    fn visit_init(&mut self, i: &Init) {
        self.holds = self.rule.init_holds(i) && self.holds;
    }

    ghost keeps = { λ s part. ap (λ b. record { rule = s.rule; holds = b && s.holds }) (T.keeps s.rule.now part) };

    ghost passes = { λ s slot i at c. ap (λ b. record { rule = s.rule; holds = b && s.holds }) (T.passes s.rule.now slot i at c) };
}

/// Whether a rule holds at all acts of the full-expressions of a statement that are no part of a statement in it.
pub fn own_holds<T: Rule>(rule: &T, scene: Scene<'_>, s: &CoreStmt) -> bool
    ensures { result ≡ list_all (T.test rule.now) (joined_acts scene.entry.unit.now.funcs (own_fulls scene.entry.unit.now.funcs s.now)) }
{
    let mut tested = Tested { rule, holds: true };
    walk_own(&mut tested, s);
    tested.holds
}

/// Whether a rule holds at all acts of a function.
pub fn func_holds<T: Rule>(rule: &T, scene: Scene<'_>) -> bool
    ensures { result ≡ list_all (T.test rule.now) (func_acts scene.entry.unit.now.funcs scene.entry.func.now) }
{
    let mut tested = Tested { rule, holds: true };
    walk_func(&mut tested, scene.func);
    tested.holds
}

/// A test on each statement.
pub trait StmtRule {
    ghost stmt_test: { Self → Placed → Bool };

    fn stmt_holds(&self, stands: Standing, s: &CoreStmt) -> bool
        ensures { result ≡ stmt_test self.now (record { stands = stands_of stands; stmt = s.now }) };
}

/// A rule, and whether it has held at each statement so far.
#[derive(Drop)]
struct TestedStmts<'a, T> {
    rule: &'a T,
    holds: bool,
}

impl<T: StmtRule> StmtVisitor for TestedStmts<'_, T> {
    ghost after_stmt = { λ s p. record { rule = s.rule; holds = T.stmt_test s.rule.now p && s.holds } };

    fn visit_stmt(&mut self, stands: Standing, s: &CoreStmt) {
        self.holds = self.rule.stmt_holds(stands, s) && self.holds;
    }
}

/// Whether a rule holds at all statements of a function.
pub fn body_holds<T: StmtRule>(rule: &T, func: &CoreFunc) -> bool
    ensures { result ≡ list_all (T.stmt_test rule.now) (body_of func.now) }
{
    let mut tested = TestedStmts { rule, holds: true };
    walk_body(&mut tested, func);
    tested.holds
}
