ghost use Rattle.std.specs.Prelude.{◌≡◌, ◌≤◌};
ghost use Rattle.co_reader.specs.Leads as spec;
ghost use Rattle.co_tree.specs.Formed.{strength};

use crate::lead::Lead;
use co_base::Span;
use co_lex::{Mark, Word};
use co_tree::{
    AssignmentOperator, BinaryOperator, Brackets, CorunFunction, Expression, HandleFunction,
    MemberOperator, SimpleTypeKind, StandardFunction, StepOperator, UnaryOperator,
};

/// `void bool int long` [dcl.type.simple].
pub fn builtin(lead: Lead) -> Option<SimpleTypeKind>
    ensures { result ≡ spec.builtin lead }
{
    match lead {
        Lead::Word(Word::Void) => Some(SimpleTypeKind::Void),
        Lead::Word(Word::Bool) => Some(SimpleTypeKind::Bool),
        Lead::Word(Word::Int) => Some(SimpleTypeKind::Int),
        Lead::Word(Word::Long) => Some(SimpleTypeKind::Long),
        _ => None,
    }
}

/// `+ - ! ~ * & ++ -- co_await` [expr.unary].
pub fn unary_operator(lead: Lead) -> Option<UnaryOperator>
    ensures { result ≡ spec.unary_operator lead }
{
    match lead {
        Lead::Mark(Mark::Plus) => Some(UnaryOperator::Plus),
        Lead::Mark(Mark::Minus) => Some(UnaryOperator::Minus),
        Lead::Mark(Mark::Not) => Some(UnaryOperator::Not),
        Lead::Mark(Mark::Tilde) => Some(UnaryOperator::Complement),
        Lead::Mark(Mark::Star) => Some(UnaryOperator::Dereference),
        Lead::Mark(Mark::And) => Some(UnaryOperator::AddressOf),
        Lead::Mark(Mark::Increment) => Some(UnaryOperator::Increment),
        Lead::Mark(Mark::Decrement) => Some(UnaryOperator::Decrement),
        Lead::Word(Word::CoAwait) => Some(UnaryOperator::Await),
        _ => None,
    }
}

/// The operators between two operands [expr.log.or] to [expr.mul].
pub fn binary_operator(lead: Lead) -> Option<BinaryOperator>
    ensures { result ≡ spec.binary_operator lead }
{
    match lead {
        Lead::Mark(Mark::OrOr) => Some(BinaryOperator::LogicalOr),
        Lead::Mark(Mark::AndAnd) => Some(BinaryOperator::LogicalAnd),
        Lead::Mark(Mark::Or) => Some(BinaryOperator::Or),
        Lead::Mark(Mark::Xor) => Some(BinaryOperator::Xor),
        Lead::Mark(Mark::And) => Some(BinaryOperator::And),
        Lead::Mark(Mark::Equal) => Some(BinaryOperator::Equal),
        Lead::Mark(Mark::NotEqual) => Some(BinaryOperator::NotEqual),
        Lead::Mark(Mark::Less) => Some(BinaryOperator::Less),
        Lead::Mark(Mark::LessEqual) => Some(BinaryOperator::LessEqual),
        Lead::Mark(Mark::Greater) => Some(BinaryOperator::Greater),
        Lead::Mark(Mark::GreaterEqual) => Some(BinaryOperator::GreaterEqual),
        Lead::Mark(Mark::Shl) => Some(BinaryOperator::Shl),
        Lead::Mark(Mark::Shr) => Some(BinaryOperator::Shr),
        Lead::Mark(Mark::Plus) => Some(BinaryOperator::Add),
        Lead::Mark(Mark::Minus) => Some(BinaryOperator::Sub),
        Lead::Mark(Mark::Star) => Some(BinaryOperator::Mul),
        Lead::Mark(Mark::Slash) => Some(BinaryOperator::Div),
        Lead::Mark(Mark::Percent) => Some(BinaryOperator::Rem),
        _ => None,
    }
}

/// `= += -= *= /= %= &= |= ^= <<= >>=` [expr.ass].
pub fn assignment_operator(lead: Lead) -> Option<AssignmentOperator>
    ensures { result ≡ spec.assignment_operator lead }
{
    match lead {
        Lead::Mark(Mark::Assign) => Some(AssignmentOperator::Assign),
        Lead::Mark(Mark::AddAssign) => Some(AssignmentOperator::Add),
        Lead::Mark(Mark::SubAssign) => Some(AssignmentOperator::Sub),
        Lead::Mark(Mark::MulAssign) => Some(AssignmentOperator::Mul),
        Lead::Mark(Mark::DivAssign) => Some(AssignmentOperator::Div),
        Lead::Mark(Mark::RemAssign) => Some(AssignmentOperator::Rem),
        Lead::Mark(Mark::AndAssign) => Some(AssignmentOperator::And),
        Lead::Mark(Mark::OrAssign) => Some(AssignmentOperator::Or),
        Lead::Mark(Mark::XorAssign) => Some(AssignmentOperator::Xor),
        Lead::Mark(Mark::ShlAssign) => Some(AssignmentOperator::Shl),
        Lead::Mark(Mark::ShrAssign) => Some(AssignmentOperator::Shr),
        _ => None,
    }
}

/// `++` or `--` [expr.post.incr].
pub fn step_operator(lead: Lead) -> Option<StepOperator>
    ensures { result ≡ spec.step_operator lead }
{
    match lead {
        Lead::Mark(Mark::Increment) => Some(StepOperator::Increment),
        Lead::Mark(Mark::Decrement) => Some(StepOperator::Decrement),
        _ => None,
    }
}

/// `.` or `->` [expr.ref].
pub fn member_operator(lead: Lead) -> Option<MemberOperator>
    ensures { result ≡ spec.member_operator lead }
{
    match lead {
        Lead::Mark(Mark::Dot) => Some(MemberOperator::Dot),
        Lead::Mark(Mark::Arrow) => Some(MemberOperator::Arrow),
        _ => None,
    }
}

/// `(` or `{` round the arguments of an initializer [dcl.init].
pub fn opening(lead: Lead) -> Option<Brackets>
    ensures { result ≡ spec.opening lead }
{
    match lead {
        Lead::Mark(Mark::OpenParen) => Some(Brackets::Parentheses),
        Lead::Mark(Mark::OpenBrace) => Some(Brackets::Braces),
        _ => None,
    }
}

/// An integer literal, `true`, `false`, `nullptr` or `this` [expr.prim].
pub fn literal(lead: Lead, at: Span) -> Option<Expression>
    ensures { result ≡ spec.literal lead at }
{
    match lead {
        Lead::Int(num, value) => Some(Expression::Number(num, value, at)),
        Lead::Word(Word::True) => Some(Expression::Bool(true, at)),
        Lead::Word(Word::False) => Some(Expression::Bool(false, at)),
        Lead::Word(Word::Nullptr) => Some(Expression::Nullptr(at)),
        Lead::Word(Word::This) => Some(Expression::This(at)),
        _ => None,
    }
}

/// The bracket that ends what this one begins.
pub fn closing(how: Brackets) -> Mark
    ensures { result ≡ spec.closing how }
{
    match how {
        Brackets::Parentheses => Mark::CloseParen,
        Brackets::Braces => Mark::CloseBrace,
    }
}

/// How tightly the operator binds, from 1 to 10.
pub fn strength_of(op: BinaryOperator) -> u8
    ensures value { result ≡ strength op }
    ensures small { result ≤ 10 }
{
    match op {
        BinaryOperator::LogicalOr => 1,
        BinaryOperator::LogicalAnd => 2,
        BinaryOperator::Or => 3,
        BinaryOperator::Xor => 4,
        BinaryOperator::And => 5,
        BinaryOperator::Equal | BinaryOperator::NotEqual => 6,
        BinaryOperator::Less
        | BinaryOperator::LessEqual
        | BinaryOperator::Greater
        | BinaryOperator::GreaterEqual => 7,
        BinaryOperator::Shl | BinaryOperator::Shr => 8,
        BinaryOperator::Add | BinaryOperator::Sub => 9,
        BinaryOperator::Mul | BinaryOperator::Div | BinaryOperator::Rem => 10,
    }
}

/// Whether an expression begins so [expr].
pub fn begins_expression(lead: Lead) -> bool
    ensures { result ≡ spec.begins_expression lead }
{
    match lead {
        Lead::Name => true,
        Lead::Int(_, _) => true,
        Lead::Word(Word::CoAwait) => true,
        Lead::Word(Word::CoYield) => true,
        Lead::Word(Word::Throw) => true,
        Lead::Word(Word::New) => true,
        Lead::Word(Word::Delete) => true,
        Lead::Word(Word::StaticCast) => true,
        Lead::Word(Word::True) => true,
        Lead::Word(Word::False) => true,
        Lead::Word(Word::Nullptr) => true,
        Lead::Word(Word::This) => true,
        Lead::Word(Word::Void) => true,
        Lead::Word(Word::Bool) => true,
        Lead::Word(Word::Int) => true,
        Lead::Word(Word::Long) => true,
        Lead::Mark(Mark::Plus) => true,
        Lead::Mark(Mark::Minus) => true,
        Lead::Mark(Mark::Not) => true,
        Lead::Mark(Mark::Tilde) => true,
        Lead::Mark(Mark::Star) => true,
        Lead::Mark(Mark::And) => true,
        Lead::Mark(Mark::Increment) => true,
        Lead::Mark(Mark::Decrement) => true,
        Lead::Mark(Mark::Scope) => true,
        Lead::Mark(Mark::OpenParen) => true,
        _ => false,
    }
}

/// Whether a type that is followed so is that of a variable [stmt.dcl].
pub fn goes_on_as_type(lead: Lead) -> bool
    ensures { result ≡ spec.goes_on_as_type lead }
{
    match lead {
        Lead::Name => true,
        Lead::Word(Word::Const) => true,
        Lead::Mark(Mark::Star) => true,
        Lead::Mark(Mark::And) => true,
        Lead::Mark(Mark::AndAnd) => true,
        _ => false,
    }
}

/// `&` or `&&`.
pub fn is_reference(lead: Lead) -> bool
    ensures { result ≡ spec.is_reference lead }
{
    match lead {
        Lead::Mark(Mark::And) => true,
        Lead::Mark(Mark::AndAnd) => true,
        _ => false,
    }
}

/// A type after `std ::` that has no argument.
pub fn library_object(text: &[u8]) -> Option<SimpleTypeKind>
    ensures { result ≡ spec.library_object text.now }
{
    if text == b"size_t".as_slice() {
        return Some(SimpleTypeKind::Size);
    }
    if text == b"exception_ptr".as_slice() {
        return Some(SimpleTypeKind::ExceptionPtr);
    }
    if text == b"suspend_always".as_slice() {
        return Some(SimpleTypeKind::SuspendAlways);
    }
    if text == b"suspend_never".as_slice() {
        return Some(SimpleTypeKind::SuspendNever);
    }
    None
}

/// A function after `std ::`.
pub fn library_function(text: &[u8]) -> Option<StandardFunction>
    ensures { result ≡ spec.library_function text.now }
{
    if text == b"move".as_slice() {
        return Some(StandardFunction::Move);
    }
    if text == b"exchange".as_slice() {
        return Some(StandardFunction::Exchange);
    }
    if text == b"noop_coroutine".as_slice() {
        return Some(StandardFunction::NoopCoroutine);
    }
    if text == b"terminate".as_slice() {
        return Some(StandardFunction::Terminate);
    }
    if text == b"current_exception".as_slice() {
        return Some(StandardFunction::CurrentException);
    }
    if text == b"rethrow_exception".as_slice() {
        return Some(StandardFunction::RethrowException);
    }
    None
}

/// A static function of `std::coroutine_handle` [coroutine.handle].
pub fn handle_function(text: &[u8]) -> Option<HandleFunction>
    ensures { result ≡ spec.handle_function text.now }
{
    if text == b"from_address".as_slice() {
        return Some(HandleFunction::FromAddress);
    }
    if text == b"from_promise".as_slice() {
        return Some(HandleFunction::FromPromise);
    }
    None
}

/// A function after `corun ::`.
pub fn run_function(text: &[u8]) -> Option<CorunFunction>
    ensures { result ≡ spec.run_function text.now }
{
    if text == b"print".as_slice() {
        return Some(CorunFunction::Print);
    }
    if text == b"post".as_slice() {
        return Some(CorunFunction::Post);
    }
    if text == b"input".as_slice() {
        return Some(CorunFunction::Input);
    }
    if text == b"inputs".as_slice() {
        return Some(CorunFunction::Inputs);
    }
    None
}
