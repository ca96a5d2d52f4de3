ghost use Rattle.std.specs.Prelude.{◌≡◌, List, Option, drop, length, IfSome, IfNone};
ghost use Rattle.std.specs.Option.{option_copied};
ghost use Rattle.co_core_tree.specs.declared.exprs.CoreExpr.TheVariants as expr;
ghost use Rattle.co_core_tree.specs.declared.exprs.DeletePlan.{DeletePlan as Delete};
ghost use Rattle.co_core_tree.specs.declared.exprs.NewPlan.{NewPlan as New};
ghost use Rattle.co_eval_data.specs.Seen as seen;
ghost use Rattle.co_eval_data.specs.Seen.{await_in, dead, expr_in, init_in};
ghost use Rattle.co_eval_nodes.specs.Operations.{operation_of};
ghost use Rattle.co_meaning_data.specs.Frames as frames;
ghost use Rattle.co_meaning_data.specs.Store as stored;

use co_base::{Num, Op, Span};
use co_core_tree::{AtomicOp, AwaitPlan, CoreExpr, DeletePlan, HandleOp, Init, LibOp, NewPlan};
use co_eval_data::Node;
use co_types::CoType;
use sqlite_items::Items;

/// An expression that a frame goes on with, and its place in the text.
#[derive(Clone, Copy)]
pub struct Part<'u> {
    pub part: &'u CoreExpr,
    pub at: Span,
}

/// The place of a store that a frame goes on with.
#[tactic(auto, using(co_eval_data::proofs::Opening::store_value))]
pub fn stored_to<'u>(node: &Node<'u>) -> Option<Part<'u>>
    ensures some { IfSome result (λ x. seen.store_value (expr_in node.now) ≡ frames.StoreValue x.part.now x.at) }
    ensures none { IfNone result (seen.store_value (expr_in node.now) ≡ dead) }
{
    let Node::Expr(e) = *node else {
        return None;
    };
    match e {
        CoreExpr::Store(place, _, at) => Some(Part {
            part: place.get(),
            at: *at,
        }),
        _ => None,
    }
}

/// The new value of an exchange that a frame goes on with.
#[tactic(auto, using(co_eval_data::proofs::Opening::exchange_place))]
pub fn exchanged_for<'u>(node: &Node<'u>) -> Option<Part<'u>>
    ensures some { IfSome result (λ x. seen.exchange_place (expr_in node.now) ≡ frames.ExchangePlace x.part.now x.at) }
    ensures none { IfNone result (seen.exchange_place (expr_in node.now) ≡ dead) }
{
    let Node::Expr(e) = *node else {
        return None;
    };
    match e {
        CoreExpr::Exchange(_, value, at) => Some(Part {
            part: value.get(),
            at: *at,
        }),
        _ => None,
    }
}

/// An update that a frame goes on with: `op=`, `++` or `--`.
#[derive(Clone, Copy)]
pub struct Update<'u> {
    pub op: Op,
    pub num: Num,
    pub place: &'u CoreExpr,
    pub old: bool,
    pub at: Span,
}

/// The update that a frame goes on with.
#[tactic(auto, using(co_eval_data::proofs::Opening::update_value, co_eval_data::proofs::Opening::update_at, co_eval_data::proofs::Opening::update_from))]
pub fn update_in<'u>(node: &Node<'u>) -> Option<Update<'u>>
    ensures value { IfSome result (λ x. seen.update_value (expr_in node.now) ≡ frames.UpdateValue x.op x.num x.place.now x.old x.at) }
    ensures place { IfSome result (λ x. (g : frames.Given) → seen.update_at g (expr_in node.now) ≡ frames.UpdateAt x.op x.num g x.old x.at) }
    ensures from { IfSome result (λ x. (g : frames.Given) (p : stored.Place) → seen.update_from g p (expr_in node.now) ≡ frames.UpdateFrom x.op x.num g p x.old x.at) }
    ensures no_value { IfNone result (seen.update_value (expr_in node.now) ≡ dead) }
    ensures no_place { IfNone result ((g : frames.Given) → seen.update_at g (expr_in node.now) ≡ dead) }
    ensures no_from { IfNone result ((g : frames.Given) (p : stored.Place) → seen.update_from g p (expr_in node.now) ≡ dead) }
{
    let Node::Expr(e) = *node else {
        return None;
    };
    match e {
        CoreExpr::Update(op, num, place, _, old, at) => Some(Update {
            op: *op,
            num: *num,
            place: place.get(),
            old: *old,
            at: *at,
        }),
        _ => None,
    }
}

/// An arithmetic operation that a frame goes on with: its right operand.
#[derive(Clone, Copy)]
pub struct Arithmetic<'u> {
    pub op: Op,
    pub num: Num,
    pub right: &'u CoreExpr,
    pub at: Span,
}

/// The arithmetic operation that a frame goes on with.
#[tactic(auto, using(co_eval_data::proofs::Opening::arith_right, co_eval_data::proofs::Opening::arith_with))]
pub fn arithmetic_in<'u>(node: &Node<'u>) -> Option<Arithmetic<'u>>
    ensures right { IfSome result (λ x. seen.arith_right (expr_in node.now) ≡ frames.ArithRight x.op x.num x.right.now x.at) }
    ensures with_left { IfSome result (λ x. (g : frames.Given) → seen.arith_with g (expr_in node.now) ≡ frames.ArithWith x.op x.num g x.at) }
    ensures no_right { IfNone result (seen.arith_right (expr_in node.now) ≡ dead) }
    ensures no_left { IfNone result ((g : frames.Given) → seen.arith_with g (expr_in node.now) ≡ dead) }
{
    let Node::Expr(e) = *node else {
        return None;
    };
    match e {
        CoreExpr::Arith(op, num, _, right, at) => Some(Arithmetic {
            op: *op,
            num: *num,
            right: right.get(),
            at: *at,
        }),
        _ => None,
    }
}

/// The right operand of a comparison for sameness that a frame goes on with.
#[tactic(auto, using(co_eval_data::proofs::Opening::same_right))]
pub fn compared_to<'u>(node: &Node<'u>) -> Option<Part<'u>>
    ensures some { IfSome result (λ x. seen.same_right (expr_in node.now) ≡ frames.SameRight x.part.now x.at) }
    ensures none { IfNone result (seen.same_right (expr_in node.now) ≡ dead) }
{
    let Node::Expr(e) = *node else {
        return None;
    };
    match e {
        CoreExpr::Same(_, right, at) => Some(Part {
            part: right.get(),
            at: *at,
        }),
        _ => None,
    }
}

/// The right operand of `&&` that a frame goes on with.
#[tactic(auto, using(co_eval_data::proofs::Opening::both_right))]
pub fn right_of_both<'u>(node: &Node<'u>) -> Option<&'u CoreExpr>
    ensures some { IfSome result (λ x. seen.both_right (expr_in node.now) ≡ frames.BothRight x.now) }
    ensures none { IfNone result (seen.both_right (expr_in node.now) ≡ dead) }
{
    let Node::Expr(e) = *node else {
        return None;
    };
    match e {
        CoreExpr::Both(_, right, _) => Some(right.get()),
        _ => None,
    }
}

/// The right operand of `||` that a frame goes on with.
#[tactic(auto, using(co_eval_data::proofs::Opening::either_right))]
pub fn right_of_either<'u>(node: &Node<'u>) -> Option<&'u CoreExpr>
    ensures some { IfSome result (λ x. seen.either_right (expr_in node.now) ≡ frames.EitherRight x.now) }
    ensures none { IfNone result (seen.either_right (expr_in node.now) ≡ dead) }
{
    let Node::Expr(e) = *node else {
        return None;
    };
    match e {
        CoreExpr::Either(_, right, _) => Some(right.get()),
        _ => None,
    }
}

/// The second and the third operand of a `?:`.
#[derive(Clone, Copy)]
pub struct Branches<'u> {
    pub second: &'u CoreExpr,
    pub third: &'u CoreExpr,
}

/// The `?:` that a frame goes on with.
#[tactic(auto, using(co_eval_data::proofs::Opening::pick_one))]
pub fn branches_in<'u>(node: &Node<'u>) -> Option<Branches<'u>>
    ensures some { IfSome result (λ x. seen.pick_one (expr_in node.now) ≡ frames.PickOne x.second.now x.third.now) }
    ensures none { IfNone result (seen.pick_one (expr_in node.now) ≡ dead) }
{
    let Node::Expr(e) = *node else {
        return None;
    };
    match e {
        CoreExpr::Pick(_, second, third, _) => Some(Branches {
            second: second.get(),
            third: third.get(),
        }),
        _ => None,
    }
}

/// The type of what is thrown, and where.
#[derive(Clone, Copy)]
pub struct Throw<'u> {
    pub of: &'u CoType,
    pub at: Span,
}

/// The `throw` that a frame goes on with.
#[tactic(auto, using(co_eval_data::proofs::Opening::throw_of))]
pub fn throw_in<'u>(node: &Node<'u>) -> Option<Throw<'u>>
    ensures some { IfSome result (λ x. seen.throw_of (expr_in node.now) ≡ frames.ThrowOf x.of.now x.at) }
    ensures none { IfNone result (seen.throw_of (expr_in node.now) ≡ dead) }
{
    let Node::Expr(e) = *node else {
        return None;
    };
    match e {
        CoreExpr::Throw(of, _, at) => Some(Throw { of, at: *at }),
        _ => None,
    }
}

/// A `new` that a frame goes on with.
#[derive(Clone, Copy)]
pub struct NewIn<'u> {
    pub e: &'u CoreExpr,
    pub plan: &'u NewPlan,
}

/// The `new` that a frame goes on with.
#[tactic(auto, using(co_eval_data::proofs::Opening::with_new))]
pub fn new_in<'u>(node: &Node<'u>) -> Option<NewIn<'u>>
    ensures whole { IfSome result (λ x. x.e.now ≡ expr.New x.plan.now) }
    ensures some { IfSome result (λ x. (f : New → frames.Frame) → seen.with_new f (expr_in node.now) ≡ f x.plan.now) }
    ensures none { IfNone result ((f : New → frames.Frame) → seen.with_new f (expr_in node.now) ≡ dead) }
{
    let Node::Expr(e) = *node else {
        return None;
    };
    match e {
        CoreExpr::New(plan) => Some(NewIn {
            e,
            plan: plan.get(),
        }),
        _ => None,
    }
}

/// A `delete` that a frame goes on with.
#[derive(Clone, Copy)]
pub struct DeleteIn<'u> {
    pub e: &'u CoreExpr,
    pub plan: &'u DeletePlan,
}

/// The `delete` that a frame goes on with.
#[tactic(auto, using(co_eval_data::proofs::Opening::with_delete))]
pub fn delete_in<'u>(node: &Node<'u>) -> Option<DeleteIn<'u>>
    ensures whole { IfSome result (λ x. x.e.now ≡ expr.Delete x.plan.now) }
    ensures some { IfSome result (λ x. (f : Delete → frames.Frame) → seen.with_delete f (expr_in node.now) ≡ f x.plan.now) }
    ensures none { IfNone result ((f : Delete → frames.Frame) → seen.with_delete f (expr_in node.now) ≡ dead) }
{
    let Node::Expr(e) = *node else {
        return None;
    };
    match e {
        CoreExpr::Delete(plan) => Some(DeleteIn {
            e,
            plan: plan.get(),
        }),
        _ => None,
    }
}

/// The initializers of a `?:` of which one is chosen.
#[derive(Clone, Copy)]
pub struct Choice<'u> {
    pub second: &'u Init,
    pub third: &'u Init,
}

/// The choice of an initializer that a frame goes on with.
#[tactic(auto, using(co_eval_data::proofs::Opening::choose_one))]
pub fn choice_in<'u>(node: &Node<'u>) -> Option<Choice<'u>>
    ensures some { IfSome result (λ x. (p : Option stored.Place) → seen.choose_one p (init_in node.now) ≡ frames.ChooseOne x.second.now x.third.now p) }
    ensures none { IfNone result ((p : Option stored.Place) → seen.choose_one p (init_in node.now) ≡ dead) }
{
    let Node::Init(init) = *node else {
        return None;
    };
    match init {
        Init::Choose(_, second, third) => Some(Choice {
            second: second.get(),
            third: third.get(),
        }),
        _ => None,
    }
}

/// An await that a frame goes on with.
pub fn await_of<'u>(node: &Node<'u>) -> Option<&'u AwaitPlan>
    ensures { option_copied result ≡ await_in node.now }
{
    match *node {
        Node::Await(plan) => Some(plan),
        _ => None,
    }
}

/// An act of the library whose operands are evaluated first.
#[derive(Clone, Copy)]
pub enum Operation {
    OnHandle(HandleOp),
    OnAtomic(AtomicOp),
    OfLibrary(LibOp),
}

/// An act of the library that a frame goes on with.
#[derive(Clone, Copy)]
pub struct Act<'u> {
    pub act: Operation,
    pub operands: &'u Items<CoreExpr>,
    pub at: Span,
}

/// The act of the library that a frame goes on with.
#[tactic(auto, using(co_eval_data::proofs::Opening::handle_operands, co_eval_data::proofs::Opening::atomic_operands, co_eval_data::proofs::Opening::library_operands))]
pub fn act_in<'u>(node: &Node<'u>) -> Option<Act<'u>>
    ensures some { IfSome result (λ x. (gs : List frames.Given) → seen.operands gs (expr_in node.now) ≡ frames.Operands (operation_of x.act) gs (drop (length gs) x.operands.now) x.at) }
    ensures none { IfNone result ((gs : List frames.Given) → seen.operands gs (expr_in node.now) ≡ dead) }
{
    let Node::Expr(e) = *node else {
        return None;
    };
    match e {
        CoreExpr::Handle(op, operands, at) => Some(Act {
            act: Operation::OnHandle(*op),
            operands,
            at: *at,
        }),
        CoreExpr::Atomic(op, operands, at) => Some(Act {
            act: Operation::OnAtomic(*op),
            operands,
            at: *at,
        }),
        CoreExpr::Lib(op, operands, at) => Some(Act {
            act: Operation::OfLibrary(*op),
            operands,
            at: *at,
        }),
        _ => None,
    }
}
