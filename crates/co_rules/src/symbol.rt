use co_lex::{Mark, Word};

/// The names that the grammar spells, and any other.
#[derive(Clone, Copy, Debug, PartialEq, Eq)]
pub enum Known {
    Other,
    SizeT,
    ExceptionPtr,
    SuspendAlways,
    SuspendNever,
    CoroutineHandle,
    Atomic,
    Move,
    Exchange,
    NoopCoroutine,
    Terminate,
    CurrentException,
    RethrowException,
    Text,
    Print,
    Post,
    Input,
    Inputs,
    FromAddress,
    FromPromise,
    Std,
    Corun,
}

/// A token as the grammar sees it.
#[derive(Clone, Copy, Debug)]
pub enum Terminal {
    Word(Word),
    Mark(Mark),
    /// An integer literal.
    Number,
    /// A text literal.
    Text,
    /// A name: whether it is of a class, and which one of those that the grammar spells.
    Name(bool, Known),
    End,
}

/// What a rule asks of a token: the set of the terminals that may stand there.
#[derive(Clone, Copy, Debug)]
pub enum Pattern {
    Keyword(Word),
    Punctuator(Mark),
    /// This name, whether a class is called so or not.
    Spelled(Known),
    /// `+ - ! ~ * & ++ -- co_await` before an operand [expr.unary].
    UnaryOperator,
    /// `|| && | ^ & == != < <= > >= << >> + - * / %` between operands.
    BinaryOperator,
    /// `= += -= *= /= %= &= |= ^= <<= >>=` [expr.ass].
    Assignment,
    /// `++` or `--` after an operand [expr.post.incr].
    Increment,
    /// `.` or `->` [expr.ref].
    Access,
    /// `&` or `&&` after a type [dcl.ref].
    ReferenceMark,
    /// An integer literal, `true`, `false`, `nullptr` or `this` [expr.prim].
    Literal,
    /// `void bool int long` [dcl.type.simple].
    BuiltinType,
    /// `public private protected` [class.access].
    AccessSpecifier,
    /// `struct` or `class` [class.pre].
    ClassKey,
    /// `static` or `inline`.
    FunctionSpecifier,
    /// `size_t exception_ptr suspend_always suspend_never`, after `std ::`.
    LibraryObject,
    /// `move exchange noop_coroutine terminate current_exception rethrow_exception`, after `std ::`.
    LibraryFunction,
    /// `from_address` or `from_promise`, after a handle type and `::`.
    HandleFunction,
    /// `print post input inputs`, after `corun ::`.
    RunFunction,
    /// A name other than `std` and `corun`.
    Name,
    /// A name of a class.
    ClassName,
    /// A name other than `std` and `corun` that is of no class.
    OtherName,
    /// `new` or `delete`, after `:: operator`.
    Allocation,
    /// `co_await new delete`, after `operator`.
    OperatorName,
    /// `* & && ( {`, which right after the type of a `new` are no binary operators.
    NewMark,
    /// A text literal.
    Text,
    /// The end of the file.
    End,
}

/// The nonterminals. The table of rules says what each of them derives.
#[derive(Clone, Copy, Debug, PartialEq, Eq)]
pub enum Nonterminal {
    Item,
    Specifier,
    ClassRest,
    ResultType,
    GlobalName,
    FunctionName,
    GlobalRest,
    FunctionRest,
    FunctionBody,
    Noexcept,
    Const,
    Member,
    MemberOfClass,
    MemberOfOther,
    MethodName,
    FieldName,
    MethodRest,
    FieldRest,
    ConstructorRest,
    ConstructorBody,
    Defaulted,
    Initializer,
    NextInitializer,
    NoParameters,
    DestructorBody,
    Parameters,
    NextParameter,
    ParameterName,
    TypeId,
    Base,
    InnerClass,
    ClassPath,
    LibraryType,
    AtomicArgument,
    AtomicPointer,
    TypeRest,
    Pointers,
    Block,
    Statement,
    Else,
    Condition,
    ForHead,
    ForInit,
    Catch,
    CatchHead,
    CatchParameter,
    AfterBuiltin,
    AfterClass,
    AfterHandle,
    LibraryStatement,
    StatementPath,
    AfterOther,
    LocalRest,
    Value,
    Expression,
    Arguments,
    NextArgument,
    FirstArgument,
    FirstScope,
    FirstPath,
    Unary,
    GlobalScope,
    GivenArguments,
    NewRest,
    RunName,
    TextArgument,
    Built,
    LibraryOperand,
    HandleOperand,
    ClassOperand,
    Scope,
    Path,
    Postfix,
    Operators,
    ExpressionRest,
    Reference,
}

/// A symbol of a rule's body.
#[derive(Clone, Copy, Debug)]
pub enum Symbol {
    Token(Pattern),
    One(Nonterminal),
    /// The nonterminal or nothing.
    Maybe(Nonterminal),
    /// The nonterminal any number of times.
    Many(Nonterminal),
    /// The nonterminal, or nothing where the next token is none of the pattern.
    Greedy(Nonterminal, Pattern),
    /// The end of a nesting level, which derives nothing.
    Close,
}
