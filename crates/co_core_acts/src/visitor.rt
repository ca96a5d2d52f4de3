ghost use Rattle.std.specs.Prelude.{◌≡◌, ◌||◌, cond, false};
ghost use Rattle.co_core_tree.specs.Acts.{Act, Does, Passes, Starts, Keeps, OfExpr, OfInit, temp_act};
ghost use Rattle.co_core_acts.specs.Visits as spec;

use co_core_tree::{CoreExpr, Init};

/// What comes to each act of an evaluation, from the last act to the first.
pub trait Visitor {
    /// What it is after an act.
    ghost after: { Self → Act → Self };

    /// An expression does its own act, which may be conditional.
    fn does(&mut self, conditional: bool, e: &CoreExpr)
        ensures { self.new ≡ after self.old (Does conditional e.now) };

    /// A `Temp` makes the object of a class parameter.
    fn passes(&mut self, e: &CoreExpr)
        ensures { self.new ≡ after self.old (Passes e.now) };

    /// An initializer does its own act.
    fn starts(&mut self, init: &Init)
        ensures { self.new ≡ after self.old (Starts init.now) };

    /// The value of an expression is kept over an await.
    fn keeps_expr(&mut self, e: &CoreExpr)
        ensures { self.new ≡ after self.old (Keeps (OfExpr e.now)) };

    /// The value of an argument is kept over an await.
    fn keeps_init(&mut self, init: &Init)
        ensures { self.new ≡ after self.old (Keeps (OfInit init.now)) };
}

/// Whether an await is among acts, and whether one is in the initializer of a `New` among them.
#[derive(Clone, Copy, Debug)]
pub struct Awaits {
    pub any: bool,
    pub in_new: bool,
}

impl Awaits {
    pub(crate) fn none() -> Awaits
        ensures any { result.any ≡ false }
        ensures in_new { result.in_new ≡ false }
    {
        Awaits {
            any: false,
            in_new: false,
        }
    }

    /// These are the awaits in the initializer of a `New`.
    pub(crate) fn within_new(self) -> Awaits
        ensures any { result.any ≡ self.any }
        ensures in_new { result.in_new ≡ (self.in_new || self.any) }
    {
        Awaits {
            any: self.any,
            in_new: self.in_new || self.any,
        }
    }

    pub(crate) fn and(self, more: Awaits) -> Awaits
        ensures { result ≡ spec.joined self more }
    {
        Awaits {
            any: self.any || more.any,
            in_new: self.in_new || more.in_new,
        }
    }
}

/// The object of a class parameter is made by a `Temp`.
pub(crate) fn temp<V: Visitor>(visitor: &mut V, conditional: bool, object: bool, e: &CoreExpr)
    ensures { visitor.new ≡ V.after visitor.old (temp_act conditional object e.now) }
{
    if object {
        visitor.passes(e);
    } else {
        visitor.does(conditional, e);
    }
}

pub(crate) fn keep_expr<V: Visitor>(visitor: &mut V, e: &CoreExpr, suspends: bool)
    ensures { visitor.new ≡ cond suspends (V.after visitor.old (Keeps (OfExpr e.now))) visitor.old }
{
    if suspends {
        visitor.keeps_expr(e);
    }
}

/// The object of a class parameter stays in its slot, and is not kept.
pub(crate) fn keep_argument<V: Visitor>(visitor: &mut V, init: &Init, object: bool, suspends: bool)
    ensures { visitor.new ≡ cond object visitor.old (cond suspends (V.after visitor.old (Keeps (OfInit init.now))) visitor.old) }
{
    if !object {
        if suspends {
            visitor.keeps_init(init);
        }
    }
}

pub(crate) fn either(a: bool, b: bool) -> bool
    ensures { result ≡ (a || b) }
{
    a || b
}
