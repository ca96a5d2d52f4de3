use crate::kinds::{Answer, AtomicOp, GivePlan, HandleOp, LibOp, TakePlan};
use co_base::{FuncId, Num, Op, SlotId, Span, SuspendId};
use co_types::CoType;
use sqlite_items::{Boxed, Items};

/// An expression [expr]. It gives the place of an object, or a value, or nothing. Each form ends with its span; an await, a
/// `new` and a `delete` have that of their plan.
#[cycle(expr)]
#[derive(Drop)]
pub enum CoreExpr {
    /// A value of a type of integers [expr.prim.literal].
    Const(Num, i64, Span),
    /// The null value of a pointer, a handle or a `std::exception_ptr` [conv.ptr].
    Null(Span),
    /// The place of a slot's own object: of a variable of reference type the place of the reference.
    Slot(SlotId, Span),
    /// The place of a global variable.
    Global(u32, Span),
    /// The place of the field of this number of the object at a place [expr.ref].
    Field(Boxed<CoreExpr>, u32, Span),
    /// The place that a pointer points to or a reference refers to [expr.unary.op].
    Deref(Boxed<CoreExpr>, Span),
    /// A pointer to the object at a place [expr.unary.op].
    Address(Boxed<CoreExpr>, Span),
    /// The place of the object that an enclosing list of members is making, 0 the innermost [expr.prim.this].
    Whole(u32, Span),
    /// The value of the scalar at a place [conv.lval].
    Load(Boxed<CoreExpr>, Span),
    /// Makes the scalar at a place a value, which is evaluated first: the place [expr.ass].
    Store(Boxed<CoreExpr>, Boxed<CoreExpr>, Span),
    /// Makes the scalar at a place, which is evaluated first, a value: the value before [utility.exchange].
    Exchange(Boxed<CoreExpr>, Boxed<CoreExpr>, Span),
    /// `op=`, `++` and `--` in a type of integers. The value is evaluated first, then the place, once. Where the flag is set
    /// it gives the value before, else the place [expr.ass] [expr.post.incr].
    Update(Op, Num, Boxed<CoreExpr>, Boxed<CoreExpr>, bool, Span),
    /// An operation in a type of integers [expr].
    Arith(Op, Num, Boxed<CoreExpr>, Boxed<CoreExpr>, Span),
    /// An integer in another type of integers [conv.integral] [conv.bool].
    Convert(Num, Boxed<CoreExpr>, Span),
    /// Whether a pointer, a handle or a `std::exception_ptr` is not null [conv.bool].
    Test(Boxed<CoreExpr>, Span),
    /// Whether two pointers, handles or values of `std::exception_ptr` are the same [expr.eq].
    Same(Boxed<CoreExpr>, Boxed<CoreExpr>, Span),
    /// `&&` [expr.log.and]
    Both(Boxed<CoreExpr>, Boxed<CoreExpr>, Span),
    /// `||` [expr.log.or]
    Either(Boxed<CoreExpr>, Boxed<CoreExpr>, Span),
    /// `?:` [expr.cond]
    Pick(Boxed<CoreExpr>, Boxed<CoreExpr>, Boxed<CoreExpr>, Span),
    /// A call. The argument for a class parameter is the value of a `Temp`, an object in the caller's slots, which dies when
    /// the call has returned [expr.call].
    Call(FuncId, Items<Init>, Span),
    /// Makes a temporary object of the full-expression: its place [class.temporary].
    Temp(SlotId, Boxed<Init>, Span),
    /// `throw` of a value of a type [except.throw].
    Throw(CoType, Boxed<CoreExpr>, Span),
    /// `throw` of the newest handled exception [except.throw].
    Rethrow(Span),
    /// `std::terminate()` [except.terminate]
    Terminate(Span),
    /// `std::current_exception()` [propagation]
    Current(Span),
    /// `std::rethrow_exception` of a `std::exception_ptr` [propagation].
    RethrowPtr(Boxed<CoreExpr>, Span),
    /// An await [expr.await].
    Await(Boxed<AwaitPlan>),
    Handle(HandleOp, Items<CoreExpr>, Span),
    Atomic(AtomicOp, Items<CoreExpr>, Span),
    Lib(LibOp, Items<CoreExpr>, Span),
    /// A `new` expression [expr.new].
    New(Boxed<NewPlan>),
    /// A `delete` expression [expr.delete].
    Delete(Boxed<DeletePlan>),
}

/// How an object is initialized [dcl.init].
#[cycle(expr)]
#[derive(Drop)]
pub enum Init {
    /// By a constructor, whose object is not among the arguments [class.init].
    Ctor(FuncId, Items<Init>),
    /// Member by member, as an aggregate [dcl.init.aggr].
    Members(Items<Init>),
    /// A scalar by a value, a reference by a place, a class parameter by the place of its `Temp`.
    Value(CoreExpr),
    /// By the class result of a call or an await, which is made at the object's own place [class.copy.elision].
    Result(CoreExpr),
    /// A scalar that stays indeterminate [dcl.init].
    Raw,
    /// By the branch of a `?:` that is chosen [expr.cond].
    Choose(CoreExpr, Boxed<Init>, Boxed<Init>),
}

/// The parts of an await [expr.await]: the operand makes the awaiter, the slot holds it or refers to it, and the other
/// expressions are the calls of its functions.
#[cycle(expr)]
#[derive(Drop)]
pub struct AwaitPlan {
    pub operand: CoreExpr,
    pub holder: SlotId,
    pub ready: CoreExpr,
    pub suspend: CoreExpr,
    pub answer: Answer,
    pub resume: CoreExpr,
    pub point: SuspendId,
    pub span: Span,
}

/// The parts of a `new` expression [expr.new]: the storage for an object of the type is taken, which may be null where the
/// flag is set, the object is initialized there, and the storage is given back where an exception leaves its initialization.
#[cycle(expr)]
#[derive(Drop)]
pub struct NewPlan {
    pub of: CoType,
    pub take: TakePlan,
    pub may_be_null: bool,
    pub init: Init,
    pub give: GivePlan,
    pub span: Span,
}

/// The parts of a `delete` expression [expr.delete]: the object of the type that the pointer points to is ended by a
/// destructor, if any, and its storage is given back.
#[cycle(expr)]
#[derive(Drop)]
pub struct DeletePlan {
    pub of: CoType,
    pub pointer: CoreExpr,
    pub destroy: Option<FuncId>,
    pub give: GivePlan,
    pub span: Span,
}
