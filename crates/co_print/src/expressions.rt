ghost use Rattle.std.specs.Prelude.{◌≡◌, OnOk};
ghost use Rattle.co_tree.specs.Piece.{in_parentheses, in_braces};
ghost use Rattle.co_tree.specs.Sentence as spec;
ghost use Rattle.co_print.specs.Printed.{put, put_all};

use crate::printer::Printer;
use crate::types::{print_handle, print_path, print_simple_type, print_stars, print_type};
use co_base::NoMemory;
use co_lex::{Mark, Word};
use co_tree::{
    AssignmentOperator, BinaryOperator, Brackets, CorunFunction, Expression, HandleFunction,
    MemberOperator, StandardFunction, StepOperator, UnaryOperator,
};

fn assignment_mark(op: AssignmentOperator) -> Mark
    ensures { result ≡ spec.assignment_mark op }
{
    match op {
        AssignmentOperator::Assign => Mark::Assign,
        AssignmentOperator::Add => Mark::AddAssign,
        AssignmentOperator::Sub => Mark::SubAssign,
        AssignmentOperator::Mul => Mark::MulAssign,
        AssignmentOperator::Div => Mark::DivAssign,
        AssignmentOperator::Rem => Mark::RemAssign,
        AssignmentOperator::And => Mark::AndAssign,
        AssignmentOperator::Or => Mark::OrAssign,
        AssignmentOperator::Xor => Mark::XorAssign,
        AssignmentOperator::Shl => Mark::ShlAssign,
        AssignmentOperator::Shr => Mark::ShrAssign,
    }
}

fn binary_mark(op: BinaryOperator) -> Mark
    ensures { result ≡ spec.binary_mark op }
{
    match op {
        BinaryOperator::LogicalOr => Mark::OrOr,
        BinaryOperator::LogicalAnd => Mark::AndAnd,
        BinaryOperator::Or => Mark::Or,
        BinaryOperator::Xor => Mark::Xor,
        BinaryOperator::And => Mark::And,
        BinaryOperator::Equal => Mark::Equal,
        BinaryOperator::NotEqual => Mark::NotEqual,
        BinaryOperator::Less => Mark::Less,
        BinaryOperator::LessEqual => Mark::LessEqual,
        BinaryOperator::Greater => Mark::Greater,
        BinaryOperator::GreaterEqual => Mark::GreaterEqual,
        BinaryOperator::Shl => Mark::Shl,
        BinaryOperator::Shr => Mark::Shr,
        BinaryOperator::Add => Mark::Plus,
        BinaryOperator::Sub => Mark::Minus,
        BinaryOperator::Mul => Mark::Star,
        BinaryOperator::Div => Mark::Slash,
        BinaryOperator::Rem => Mark::Percent,
    }
}

fn step_mark(op: StepOperator) -> Mark
    ensures { result ≡ spec.step_mark op }
{
    match op {
        StepOperator::Increment => Mark::Increment,
        StepOperator::Decrement => Mark::Decrement,
    }
}

fn member_mark(op: MemberOperator) -> Mark
    ensures { result ≡ spec.member_mark op }
{
    match op {
        MemberOperator::Dot => Mark::Dot,
        MemberOperator::Arrow => Mark::Arrow,
    }
}

fn print_unary(out: &mut Printer, op: UnaryOperator) -> Result<(), NoMemory>
    ensures { OnOk result (out.new ≡ put out.old (spec.unary_token op)) }
{
    match op {
        UnaryOperator::Plus => out.mark(Mark::Plus),
        UnaryOperator::Minus => out.mark(Mark::Minus),
        UnaryOperator::Not => out.mark(Mark::Not),
        UnaryOperator::Complement => out.mark(Mark::Tilde),
        UnaryOperator::Dereference => out.mark(Mark::Star),
        UnaryOperator::AddressOf => out.mark(Mark::And),
        UnaryOperator::Increment => out.mark(Mark::Increment),
        UnaryOperator::Decrement => out.mark(Mark::Decrement),
        UnaryOperator::Await => out.word(Word::CoAwait),
    }
}

fn print_truth(out: &mut Printer, value: bool) -> Result<(), NoMemory>
    ensures { OnOk result (out.new ≡ put out.old (spec.truth value)) }
{
    if value {
        out.word(Word::True)
    } else {
        out.word(Word::False)
    }
}

fn print_handle_function(out: &mut Printer, function: HandleFunction) -> Result<(), NoMemory>
    ensures { OnOk result (out.new ≡ put out.old (spec.handle_function function)) }
{
    match function {
        HandleFunction::FromAddress => out.name(b"from_address"),
        HandleFunction::FromPromise => out.name(b"from_promise"),
    }
}

fn standard_name(function: StandardFunction) -> &'static [u8]
    ensures { result.now ≡ spec.standard_name function }
{
    match function {
        StandardFunction::Move => b"move",
        StandardFunction::Exchange => b"exchange",
        StandardFunction::NoopCoroutine => b"noop_coroutine",
        StandardFunction::Terminate => b"terminate",
        StandardFunction::CurrentException => b"current_exception",
        StandardFunction::RethrowException => b"rethrow_exception",
    }
}

fn corun_name(function: CorunFunction) -> &'static [u8]
    ensures { result.now ≡ spec.corun_name function }
{
    match function {
        CorunFunction::Print => b"print",
        CorunFunction::Post => b"post",
        CorunFunction::Input => b"input",
        CorunFunction::Inputs => b"inputs",
    }
}

#[cycle(expressions)]
#[tactic(auto, using(crate::proofs::Puts::puts))]
pub fn print_in_parentheses(out: &mut Printer, args: &[Expression]) -> Result<(), NoMemory>
    ensures { OnOk result (out.new ≡ put_all out.old (in_parentheses (spec.arguments args.now))) }
{
    out.mark(Mark::OpenParen)?;
    print_arguments(out, args)?;
    out.mark(Mark::CloseParen)?;
    Ok(())
}

#[cycle(expressions)]
#[tactic(auto, using(crate::proofs::Puts::puts))]
pub fn print_in_braces(out: &mut Printer, args: &[Expression]) -> Result<(), NoMemory>
    ensures { OnOk result (out.new ≡ put_all out.old (in_braces (spec.arguments args.now))) }
{
    out.mark(Mark::OpenBrace)?;
    print_arguments(out, args)?;
    out.mark(Mark::CloseBrace)?;
    Ok(())
}

/// The arguments between their brackets.
#[cycle(expressions)]
pub fn print_in_brackets(
    out: &mut Printer,
    brackets: Brackets,
    args: &[Expression],
) -> Result<(), NoMemory>
    ensures { OnOk result (out.new ≡ put_all out.old (spec.in_brackets brackets (spec.arguments args.now))) }
{
    match brackets {
        Brackets::Parentheses => print_in_parentheses(out, args),
        Brackets::Braces => print_in_braces(out, args),
    }
}

#[cycle(expressions)]
pub fn print_arguments(out: &mut Printer, args: &[Expression]) -> Result<(), NoMemory>
    ensures { OnOk result (out.new ≡ put_all out.old (spec.arguments args.now)) }
{
    let mut is_first = true;
    for arg in args {
        out.mark_if(!is_first, Mark::Comma)?;
        print_expression(out, arg)?;
        is_first = false;
    }
    Ok(())
}

#[cycle(expressions)]
#[tactic(auto, using(crate::proofs::Puts::puts))]
pub fn print_expression(out: &mut Printer, e: &Expression) -> Result<(), NoMemory>
    ensures { OnOk result (out.new ≡ put_all out.old (spec.expression e.now)) }
{
    match e {
        Expression::Yield(e, _) => {
            out.word(Word::CoYield)?;
            print_expression(out, e.get())?;
            Ok(())
        }
        Expression::Rethrow(_) => out.word(Word::Throw),
        Expression::Throw(e, _) => {
            out.word(Word::Throw)?;
            print_expression(out, e.get())?;
            Ok(())
        }
        Expression::Assignment(a, op, b, _) => {
            print_expression(out, a.get())?;
            out.mark(assignment_mark(*op))?;
            print_expression(out, b.get())?;
            Ok(())
        }
        Expression::Conditional(a, b, c, _) => {
            print_expression(out, a.get())?;
            out.mark(Mark::Question)?;
            print_expression(out, b.get())?;
            out.mark(Mark::Colon)?;
            print_expression(out, c.get())?;
            Ok(())
        }
        Expression::Binary(a, op, b, _) => {
            print_expression(out, a.get())?;
            out.mark(binary_mark(*op))?;
            print_expression(out, b.get())?;
            Ok(())
        }
        Expression::Unary(op, e, _) => {
            print_unary(out, *op)?;
            print_expression(out, e.get())?;
            Ok(())
        }
        Expression::New(is_global, base, pointers, _) => {
            out.mark_if(*is_global, Mark::Scope)?;
            out.word(Word::New)?;
            print_simple_type(out, base)?;
            print_stars(out, *pointers)?;
            Ok(())
        }
        Expression::NewWith(is_global, base, pointers, brackets, args, _) => {
            out.mark_if(*is_global, Mark::Scope)?;
            out.word(Word::New)?;
            print_simple_type(out, base)?;
            print_stars(out, *pointers)?;
            print_in_brackets(out, *brackets, args.as_slice())?;
            Ok(())
        }
        Expression::Delete(is_global, e, _) => {
            out.mark_if(*is_global, Mark::Scope)?;
            out.word(Word::Delete)?;
            print_expression(out, e.get())?;
            Ok(())
        }
        Expression::Member(e, op, name, _) => {
            print_expression(out, e.get())?;
            out.mark(member_mark(*op))?;
            out.name(name.as_slice())?;
            Ok(())
        }
        Expression::Call(e, args, _) => {
            print_expression(out, e.get())?;
            out.mark(Mark::OpenParen)?;
            print_arguments(out, args.as_slice())?;
            out.mark(Mark::CloseParen)?;
            Ok(())
        }
        Expression::Step(e, op, _) => {
            print_expression(out, e.get())?;
            out.mark(step_mark(*op))?;
            Ok(())
        }
        Expression::Number(num, value, _) => out.number(*num, *value),
        Expression::Bool(value, _) => print_truth(out, *value),
        Expression::Nullptr(_) => out.word(Word::Nullptr),
        Expression::This(_) => out.word(Word::This),
        Expression::Name(path) => print_path(out, path),
        Expression::Parenthesized(e, _) => {
            out.mark(Mark::OpenParen)?;
            print_expression(out, e.get())?;
            out.mark(Mark::CloseParen)?;
            Ok(())
        }
        Expression::Construction(base, brackets, args) => {
            print_simple_type(out, base)?;
            print_in_brackets(out, *brackets, args.as_slice())?;
            Ok(())
        }
        Expression::Text(text, _) => {
            out.of_corun(b"text")?;
            out.mark(Mark::OpenParen)?;
            out.literal(text.as_slice())?;
            out.mark(Mark::CloseParen)?;
            Ok(())
        }
        Expression::StaticCast(of, e, _) => {
            out.word(Word::StaticCast)?;
            out.mark(Mark::Less)?;
            print_type(out, of)?;
            out.mark(Mark::Greater)?;
            out.mark(Mark::OpenParen)?;
            print_expression(out, e.get())?;
            out.mark(Mark::CloseParen)?;
            Ok(())
        }
        Expression::OperatorNew(args, _) => {
            out.mark(Mark::Scope)?;
            out.word(Word::Operator)?;
            out.word(Word::New)?;
            print_in_parentheses(out, args.as_slice())?;
            Ok(())
        }
        Expression::OperatorDelete(args, _) => {
            out.mark(Mark::Scope)?;
            out.word(Word::Operator)?;
            out.word(Word::Delete)?;
            print_in_parentheses(out, args.as_slice())?;
            Ok(())
        }
        Expression::HandleFunction(promise, function, _) => {
            print_handle(out, promise)?;
            out.mark(Mark::Scope)?;
            print_handle_function(out, *function)?;
            Ok(())
        }
        Expression::StandardFunction(function, _) => out.standard(standard_name(*function)),
        Expression::CorunFunction(function, _) => out.of_corun(corun_name(*function)),
    }
}
