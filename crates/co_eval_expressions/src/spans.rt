ghost use Rattle.std.specs.Prelude.{◌≡◌};
ghost use Rattle.co_meaning.specs.Expressions as spec;

use co_base::Span;
use co_core_tree::CoreExpr;

/// Where an expression stands in the text.
#[tactic(auto, using(crate::proofs::Located::planned))]
pub(crate) fn span_of(e: &CoreExpr) -> Span
    ensures { result ≡ spec.span_of e.now }
{
    match e {
        CoreExpr::Const(_, _, at) => *at,
        CoreExpr::Null(at) => *at,
        CoreExpr::Slot(_, at) => *at,
        CoreExpr::Global(_, at) => *at,
        CoreExpr::Field(_, _, at) => *at,
        CoreExpr::Deref(_, at) => *at,
        CoreExpr::Address(_, at) => *at,
        CoreExpr::Whole(_, at) => *at,
        CoreExpr::Load(_, at) => *at,
        CoreExpr::Store(_, _, at) => *at,
        CoreExpr::Exchange(_, _, at) => *at,
        CoreExpr::Update(_, _, _, _, _, at) => *at,
        CoreExpr::Arith(_, _, _, _, at) => *at,
        CoreExpr::Convert(_, _, at) => *at,
        CoreExpr::Test(_, at) => *at,
        CoreExpr::Same(_, _, at) => *at,
        CoreExpr::Both(_, _, at) => *at,
        CoreExpr::Either(_, _, at) => *at,
        CoreExpr::Pick(_, _, _, at) => *at,
        CoreExpr::Call(_, _, at) => *at,
        CoreExpr::Temp(_, _, at) => *at,
        CoreExpr::Throw(_, _, at) => *at,
        CoreExpr::Rethrow(at) => *at,
        CoreExpr::Terminate(at) => *at,
        CoreExpr::Current(at) => *at,
        CoreExpr::RethrowPtr(_, at) => *at,
        CoreExpr::Await(plan) => plan.get().span,
        CoreExpr::Handle(_, _, at) => *at,
        CoreExpr::Atomic(_, _, at) => *at,
        CoreExpr::Lib(_, _, at) => *at,
        CoreExpr::New(plan) => plan.get().span,
        CoreExpr::Delete(plan) => plan.get().span,
    }
}
