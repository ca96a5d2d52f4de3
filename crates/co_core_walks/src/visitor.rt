ghost use Rattle.std.specs.Prelude.{◌≡◌, Bool};
ghost use Rattle.co_base.specs.declared.ids.SlotId.{SlotId};
ghost use Rattle.co_base.specs.declared.span.Span.{Span};
ghost use Rattle.co_core_tree.specs.declared.exprs.CoreExpr.TheVariants as expr;
ghost use Rattle.co_core_tree.specs.declared.exprs.Init.{Init};
ghost use Rattle.co_core_tree.specs.Acts.{Act, Part, Does, Passes, Starts, Keeps};

use co_core_tree::{CoreExpr, Init};

/// What a walk does at each act of an evaluation: `after` is the visitor after an act. It takes no notice of the values
/// that are kept, nor of whether an act is conditional, nor of whether a `Temp` makes the object of a parameter.
pub trait Visitor {
    ghost after: { Self → Act → Self };

    /// Visits the act of an expression whose parts have been visited.
    fn visit_expr(&mut self, e: &CoreExpr)
        ensures { (conditional : Bool) → self.new ≡ after self.old (Does conditional e.now) };

    /// Visits the act of an initializer whose parts have been visited.
    fn visit_init(&mut self, i: &Init)
        ensures { self.new ≡ after self.old (Starts i.now) };

    ghost keeps: { (s : Self) (part : Part) → after s (Keeps part) ≡ s };

    ghost passes: { (s : Self) (slot : SlotId) (i : Init) (at : Span) (c : Bool) → after s (Passes (expr.Temp slot i at)) ≡ after s (Does c (expr.Temp slot i at)) };
}
