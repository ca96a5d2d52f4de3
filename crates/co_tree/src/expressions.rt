use crate::types::{Path, SimpleType, TypeId};
use co_base::{Num, Span, Text};
use sqlite_items::{Boxed, Items};

/// `= += -= *= /= %= &= |= ^= <<= >>=` [expr.ass]
#[derive(Clone, Copy)]
pub enum AssignmentOperator {
    Assign,
    Add,
    Sub,
    Mul,
    Div,
    Rem,
    And,
    Or,
    Xor,
    Shl,
    Shr,
}

/// The operators between two operands, from the loosest to the tightest [expr.log.or] to [expr.mul].
#[derive(Clone, Copy)]
pub enum BinaryOperator {
    LogicalOr,
    LogicalAnd,
    Or,
    Xor,
    And,
    Equal,
    NotEqual,
    Less,
    LessEqual,
    Greater,
    GreaterEqual,
    Shl,
    Shr,
    Add,
    Sub,
    Mul,
    Div,
    Rem,
}

/// `+ - ! ~ * & ++ -- co_await` before an operand [expr.unary].
#[derive(Clone, Copy)]
pub enum UnaryOperator {
    Plus,
    Minus,
    Not,
    Complement,
    Dereference,
    AddressOf,
    Increment,
    Decrement,
    Await,
}

/// `++` or `--` after an operand [expr.post.incr].
#[derive(Clone, Copy)]
pub enum StepOperator {
    Increment,
    Decrement,
}

/// `.` or `->` [expr.ref].
#[derive(Clone, Copy)]
pub enum MemberOperator {
    Dot,
    Arrow,
}

/// `( )` or `{ }` round the arguments of an initializer [dcl.init].
#[derive(Clone, Copy)]
pub enum Brackets {
    Parentheses,
    Braces,
}

/// A static function of `std::coroutine_handle` [coroutine.handle].
#[derive(Clone, Copy)]
pub enum HandleFunction {
    FromAddress,
    FromPromise,
}

/// A function of the standard library by its name after `std::`.
#[derive(Clone, Copy)]
pub enum StandardFunction {
    Move,
    Exchange,
    NoopCoroutine,
    Terminate,
    CurrentException,
    RethrowException,
}

/// A function of the header `corun.h` by its name after `corun::`.
#[derive(Clone, Copy)]
pub enum CorunFunction {
    Print,
    Post,
    Input,
    Inputs,
}

/// An expression [expr]. What may be an operand of what is not in the shape: `a + b * c` and `(a + b) * c` differ in a node
/// for the parentheses. The span is that of the first token; a path and a construction have it in their first field.
#[derive(Drop)]
pub enum Expression {
    /// `co_yield e` [expr.yield]
    Yield(Boxed<Expression>, Span),
    /// `throw` alone [expr.throw]
    Rethrow(Span),
    /// `throw e` [expr.throw]
    Throw(Boxed<Expression>, Span),
    Assignment(Boxed<Expression>, AssignmentOperator, Boxed<Expression>, Span),
    /// `a ? b : c` [expr.cond]
    Conditional(Boxed<Expression>, Boxed<Expression>, Boxed<Expression>, Span),
    Binary(Boxed<Expression>, BinaryOperator, Boxed<Expression>, Span),
    Unary(UnaryOperator, Boxed<Expression>, Span),
    /// A `new` with no initializer [expr.new]: whether `::` stands before it, the type and the number of its `*`.
    New(bool, SimpleType, u32, Span),
    /// A `new` with an initializer.
    NewWith(bool, SimpleType, u32, Brackets, Items<Expression>, Span),
    /// A `delete` [expr.delete]: whether `::` stands before it, and the operand.
    Delete(bool, Boxed<Expression>, Span),
    Member(Boxed<Expression>, MemberOperator, Text, Span),
    Call(Boxed<Expression>, Items<Expression>, Span),
    /// `e++` or `e--`
    Step(Boxed<Expression>, StepOperator, Span),
    /// An integer literal: its type and its value [lex.icon].
    Number(Num, i64, Span),
    Bool(bool, Span),
    Nullptr(Span),
    This(Span),
    /// A variable or a function by its path, which names no class.
    Name(Path),
    Parenthesized(Boxed<Expression>, Span),
    /// A type with its arguments, `T(..)` or `T{..}` [expr.type.conv].
    Construction(SimpleType, Brackets, Items<Expression>),
    /// `corun::text("..")`: the bytes that the literal stands for.
    Text(Text, Span),
    /// `static_cast<T>(e)` [expr.static.cast]
    StaticCast(TypeId, Boxed<Expression>, Span),
    /// `::operator new(..)`
    OperatorNew(Items<Expression>, Span),
    /// `::operator delete(..)`
    OperatorDelete(Items<Expression>, Span),
    /// `std::coroutine_handle<P>::from_address` and the like; the span is that of `std`.
    HandleFunction(Option<Path>, HandleFunction, Span),
    StandardFunction(StandardFunction, Span),
    CorunFunction(CorunFunction, Span),
}
