use co_base::{AtomicKind, ClassId, Num, Op};

/// One of the four registers of a worker.
#[derive(Clone, Copy)]
pub enum Register {
    A,
    B,
    C,
    D,
}

/// The type of a thrown value.
#[derive(Clone, Copy)]
pub enum ThrownKind {
    Int,
    Long,
    Bool,
    Class(ClassId),
}

/// One instruction. `docs/MACHINE.md` says what each does.
///
/// a, b, c and d are registers, fp is the place of the current slots, sp the first free word of the worker's stack.
/// Each makes at most one access to the words of the run; one that names none here is private.
/// A place in the code is counted from 0.
#[derive(Clone, Copy)]
pub enum Instr {
    /// a = the number.
    Const(i64),
    /// The first register = the second.
    Move(Register, Register),
    /// a = a, converted to the type [conv.integral].
    Convert(Num),
    /// a = b op a, each operand converted to the type first, but for the count of a shift [expr].
    Arith(Op, Num),
    /// a = fp + the number.
    Slot(u32),
    /// a = the word of the global of that number.
    Global(u32),
    /// a = a + the number.
    Field(u32),
    /// Null in a is undefined.
    Check,
    /// Null in a is no storage for a new object.
    CheckNew,
    /// Loads the word at a into a, converted to the type.
    Load(Num),
    /// Stores a at b.
    Store(Num),
    /// Stores a on the stack.
    Push,
    /// Loads the register from the stack.
    Pop(Register),
    /// sp falls by the number.
    Drop(u32),
    /// To the place.
    Jump(u32),
    /// To the place if a is 0.
    JumpZ(u32),
    /// Calls the function of that number: a control entry more.
    Call(u32),
    /// Returns: the control entry goes.
    Ret,
    /// Returns from `main`: stores 1 in word 5.
    MainRet,
    /// The end of a function that had to return a value.
    Off,
    /// Throws a value of the type from a, b, c [expr.throw].
    Throw(ThrownKind),
    /// Throws the newest handled exception again.
    Rethrow,
    /// Goes on with the next row.
    Unwind,
    /// Enters a handler.
    Catch,
    /// Leaves a handler.
    Uncatch,
    /// a, b, c, d = the newest handled exception, or null.
    Current,
    /// Throws the exception of a, b, c, d.
    RePtr,
    /// Terminates with the newest handled exception, or none.
    Terminate,
    /// Takes a block of a words.
    Take,
    /// Gives the block at a back.
    Give,
    /// Adds 1 to word 4: a = the number of a coroutine.
    Number,
    /// A frame more was made.
    Made,
    /// A frame more has ended.
    Ended,
    /// An object more was born.
    Born,
    /// An object more has died.
    Died,
    /// Stores the state word of the point: the coroutine is suspended and its entry parked.
    Suspend(u32),
    /// The await answered nothing: the parked entry goes.
    AwaitVoid,
    /// The await answered a: if 0, takes the suspension back by a compare_exchange; else as `AwaitVoid`.
    AwaitBool,
    /// Takes the suspension back, as an exception came.
    Unpark,
    /// The await answered the handle a: its coroutine takes the parked entry's place, by a swap of its state word.
    AwaitHandle,
    /// Resumes the coroutine of the handle a, by a swap of its state word.
    Resume,
    /// Destroys the coroutine of the handle a, by a swap of its state word.
    Destroy,
    /// Loads the state word of the handle a: a = 1 at the final suspend point, else 0.
    Done,
    /// a = the promise of the frame at a.
    Promise,
    /// a = the frame of the promise at a.
    FromPromise,
    /// Tries to put the handle a into one cell of the board, by a compare_exchange.
    Post,
    /// Loads the atomic at a into a.
    ALoad(AtomicKind),
    /// Stores a in the atomic at b.
    AStore(AtomicKind),
    /// Swaps a with the atomic at b.
    ASwap(AtomicKind),
    /// Adds a to the atomic at b: a = what it was.
    AAdd(AtomicKind),
    /// A compare_exchange of the atomic at b: c is expected, a desired; a = 1 or 0, c = what was found.
    ACas(AtomicKind),
    /// Prints a: adds 1 to word 1.
    Print,
    /// Prints the text literal of that number: adds 1 to word 1.
    Lit(u32),
    /// a = the a-th input, or 0.
    Input,
    /// a = the number of inputs.
    Inputs,
    /// b = fp + the number.
    AtSlot(u32),
    /// a = sp - the number.
    Top(u32),
    /// sp rises by the number.
    Raise(u32),
    /// a = the place of the result of the newest control entry.
    ResultAt,
    /// Leaves the open rows for the place.
    Exit(u32),
    /// A control entry more, for the frame at a, to the place.
    Begin(u32),
}
