use crate::outcomes::{Given, Outcome};
use crate::values::Place;
use co_base::{ClassId, FuncId, Num, Span};
use co_core_tree::{Answer, AwaitPlan, CopyPlan, CoreExpr, CoreStmt, Handler, Init, UnitParts};
use sqlite_items::Items;

/// An object that is alive, or is to be, and the coroutine, if there is one, in which its birth and its death are seen.
#[derive(Clone, Copy)]
pub struct Alive {
    pub object: u64,
    pub coroutine: Option<u64>,
}

/// Where an object stands while it is alive: in its block, in its full-expression, or with the promise.
#[derive(Clone, Copy)]
pub enum Spot {
    InScope,
    InFull(u32),
    InHold,
}

/// A temporary of a full-expression: its slot, whether it has a mark, whether it is live, to which its mark is set, and its
/// object, once its birth was seen.
#[derive(Clone, Copy)]
pub struct Temporal {
    pub slot: u32,
    pub marked: bool,
    pub live: bool,
    pub object: Option<Alive>,
}

/// What is to end: a whole object, a part of one, or where a mark is set the object of a temporary.
#[derive(Drop)]
pub enum Ending {
    EndsObject(Alive),
    EndsPart(Place),
    PassesMark(Option<Alive>),
}

/// A call whose arguments are evaluated: those that are there, the newest first, the objects among them that were made for
/// class parameters, the newest first, where the result is made, if it is of a class, and the place in the text. The
/// initializers left are the node of its frame.
#[derive(Drop)]
pub struct Call {
    pub func: FuncId,
    pub given: Items<Given>,
    pub objects: Items<u64>,
    pub into: Option<Place>,
    pub at: Span,
}

/// What stands around the frames of a coroutine's body: its number, the block of its frame, and its parameter copies and
/// promise that are alive, newest first.
#[derive(Drop)]
pub struct Hold {
    pub coroutine: u64,
    pub block: u64,
    pub alive: Items<Alive>,
}

/// The part of the program that a frame goes on with. A list is meant from the item of the number on.
#[derive(Clone, Copy)]
pub enum Node<'u> {
    Nothing,
    Expr(&'u CoreExpr),
    Init(&'u Init),
    Await(&'u AwaitPlan),
    Stmt(&'u CoreStmt),
    Inits(&'u Items<Init>, usize),
    Stmts(&'u Items<CoreStmt>, usize),
    Copies(&'u Items<CopyPlan>, usize),
    /// The body of the handler of that number alone.
    Handler(&'u Items<Handler>, usize),
    /// The function of that number.
    Func(&'u UnitParts, FuncId),
}

/// What a frame does when it goes on, beside the part of the program that it does it with.
#[derive(Drop)]
pub enum Step {
    // expressions [expr]
    FieldOf(u32),
    Referent(Span),
    AddressOf,
    LoadFrom(Span),
    StoreValue,
    StoreInto(Given, Span),
    ExchangePlace,
    ExchangeWith(Place, Span),
    ExchangeFrom(Place, Given, Span),
    UpdateValue,
    UpdateAt(Given),
    UpdateFrom(Given, Place),
    ArithRight,
    ArithWith(Given),
    ConvertTo(Num),
    TestOf,
    SameRight,
    SameWith(Given, Span),
    BothRight,
    EitherRight,
    PickOne,
    /// The end of a branch.
    Joined,
    TempMade(u32, Alive),
    ThrowOf,
    /// Awaits the members of a thrown object.
    ThrowRead(ClassId),
    RethrowOf(Span),
    /// The operands that are there, the last first.
    Operands(Items<Given>),
    /// Awaits the expected value.
    CompareAt(Place, Place, Given, Span),
    // calls [expr.call]
    Calling(Call),
    ArgumentMade(u64),
    /// Awaits the return, after which the objects of the class parameters die.
    Called(Items<u64>),
    // storage [expr.new] [expr.delete]
    NewTaken,
    NewMade(u64, u64),
    DeleteOf,
    DeleteEnded(u64, u64),
    // awaits [expr.await]
    AwaitOperand(Option<Place>),
    AwaitReady(Option<Place>),
    /// With the temporaries of the agent's own.
    AwaitSuspend(Option<Place>, Items<u64>),
    AwaitResume(Option<Place>),
    /// Awaits what `await_suspend` gives.
    Answers(u64, u64, Answer, Items<u64>, Span),
    // initialization [dcl.init]
    ValueInto(Place, Span),
    ResultInto,
    ChooseOne(Option<Place>),
    /// Awaits the initialization of a field of the object of the next frame.
    FieldMade,
    /// The fields below the number are made.
    Building(Place, u32),
    /// The fields below the first number are made, the initializers below the second are taken, and the body is still to be
    /// done where the flag is set.
    Constructing(Place, ClassId, u32, usize, bool),
    // the ends of objects [class.dtor]
    /// The fields end after the body of a destructor.
    FieldsEnd(Place, ClassId),
    Ends(Items<Ending>, Outcome),
    ObjectEnds(Alive),
    PartEnds(Place),
    // statements [stmt]
    Drops,
    /// A full-expression, its last temporary first.
    Full(Items<Temporal>),
    Scope(Items<Alive>),
    Declares(Alive),
    BranchOn,
    LoopTest,
    LoopBody,
    LoopStep,
    Returns,
    // exceptions [except]
    Tries,
    Handled,
    /// A function that no exception may leave.
    Border,
    // functions [dcl.fct.def]
    /// The parameters that are its own, the last first.
    Function(Items<u64>),
    // coroutines [dcl.fct.def.coroutine]
    RampTake,
    RampTaken,
    RampCopies,
    /// A parameter copy or the promise is being made.
    RampMade(Alive),
    /// The result follows the promise.
    RampResult,
    /// Awaits the call that makes the result.
    RampBody,
    /// Awaits the return of the body.
    RampDone,
    /// Awaits what the call gives where there is no storage.
    NullDone,
    Holds(Hold),
    Closes(u64, u64, Outcome),
    /// The body follows the initial await.
    Started,
    /// The handler around the body, and whether the initial `await_resume` was reached.
    Guards(bool),
    Unhandled,
}

/// One thing that is left to be done. A list of frames ends with the innermost.
#[derive(Drop)]
pub struct Frame<'u> {
    pub step: Step,
    pub node: Node<'u>,
}
