use super::builders::{AT, base, boxed, main_of, number, path, plain, text, two, x};
use crate::print_tree;
use co_base::{AtomicKind, NoMemory, Num};
use co_tree::{
    AssignmentOperator, BinaryOperator, Brackets, CorunFunction, Expression, HandleFunction,
    MemberOperator, SimpleTypeKind, StandardFunction, Statement, StepOperator, UnaryOperator,
};
use sqlite_items::Items;
use std::alloc::Global;
use std::test::Fail;

fn add(all: &mut Items<Statement>, e: Expression) -> Result<(), NoMemory> {
    all.push(Statement::Expression(e, AT))?;
    Ok(())
}

fn add_loose(alloc: Global, all: &mut Items<Statement>) -> Result<(), NoMemory> {
    add(all, Expression::Yield(boxed(alloc, x(alloc)?)?, AT))?;
    add(all, Expression::Rethrow(AT))?;
    add(all, Expression::Throw(boxed(alloc, x(alloc)?)?, AT))
}

fn add_assignment(alloc: Global, all: &mut Items<Statement>) -> Result<(), NoMemory> {
    let a = boxed(alloc, x(alloc)?)?;
    let b = boxed(alloc, number(1))?;
    add(
        all,
        Expression::Assignment(a, AssignmentOperator::Shr, b, AT),
    )
}

fn add_conditional(alloc: Global, all: &mut Items<Statement>) -> Result<(), NoMemory> {
    let a = boxed(alloc, x(alloc)?)?;
    let b = boxed(alloc, number(1))?;
    let c = boxed(alloc, number(2))?;
    add(all, Expression::Conditional(a, b, c, AT))
}

fn add_product(alloc: Global, all: &mut Items<Statement>) -> Result<(), NoMemory> {
    let a = boxed(alloc, x(alloc)?)?;
    let b = boxed(alloc, number(1))?;
    let sum = boxed(alloc, Expression::Binary(a, BinaryOperator::Add, b, AT))?;
    let sum = boxed(alloc, Expression::Parenthesized(sum, AT))?;
    let c = boxed(alloc, x(alloc)?)?;
    add(all, Expression::Binary(sum, BinaryOperator::Mul, c, AT))
}

fn add_unary(alloc: Global, all: &mut Items<Statement>) -> Result<(), NoMemory> {
    let awaited = boxed(alloc, x(alloc)?)?;
    add(all, Expression::Unary(UnaryOperator::Await, awaited, AT))?;
    let class = base(SimpleTypeKind::Class(path(alloc, b"T")?));
    add(all, Expression::New(true, class, 2, AT))?;
    let size = base(SimpleTypeKind::Size);
    let made = Expression::NewWith(false, size, 0, Brackets::Braces, two(alloc)?, AT);
    add(all, made)?;
    add(all, Expression::Delete(false, boxed(alloc, x(alloc)?)?, AT))
}

fn add_postfix(alloc: Global, all: &mut Items<Statement>) -> Result<(), NoMemory> {
    let a = boxed(alloc, x(alloc)?)?;
    let member = Expression::Member(a, MemberOperator::Arrow, text(alloc, b"y")?, AT);
    add(all, member)?;
    let function = boxed(alloc, x(alloc)?)?;
    add(all, Expression::Call(function, two(alloc)?, AT))?;
    let b = boxed(alloc, x(alloc)?)?;
    add(all, Expression::Step(b, StepOperator::Decrement, AT))
}

fn add_literals(all: &mut Items<Statement>) -> Result<(), NoMemory> {
    add(all, Expression::Number(Num::Long, 2147483648, AT))?;
    add(all, Expression::Number(Num::Size, 0, AT))?;
    add(all, Expression::Bool(true, AT))?;
    add(all, Expression::Nullptr(AT))?;
    add(all, Expression::This(AT))
}

fn add_typed(alloc: Global, all: &mut Items<Statement>) -> Result<(), NoMemory> {
    let atomic = base(SimpleTypeKind::Atomic(AtomicKind::VoidPointer));
    let none = Items::new(alloc);
    add(
        all,
        Expression::Construction(atomic, Brackets::Parentheses, none),
    )?;
    add(all, Expression::Text(text(alloc, b"a\"\\")?, AT))?;
    let e = boxed(alloc, x(alloc)?)?;
    add(
        all,
        Expression::StaticCast(plain(SimpleTypeKind::Long), e, AT),
    )
}

fn add_functions(alloc: Global, all: &mut Items<Statement>) -> Result<(), NoMemory> {
    add(all, Expression::OperatorNew(two(alloc)?, AT))?;
    add(all, Expression::OperatorDelete(two(alloc)?, AT))?;
    let promise = Some(path(alloc, b"P")?);
    add(
        all,
        Expression::HandleFunction(promise, HandleFunction::FromPromise, AT),
    )?;
    add(
        all,
        Expression::StandardFunction(StandardFunction::Move, AT),
    )?;
    add(all, Expression::CorunFunction(CorunFunction::Print, AT))
}

fn with_operators(alloc: Global) -> Result<Items<Statement>, NoMemory> {
    let mut all = Items::new(alloc);
    add_loose(alloc, &mut all)?;
    add_assignment(alloc, &mut all)?;
    add_conditional(alloc, &mut all)?;
    add_product(alloc, &mut all)?;
    add_unary(alloc, &mut all)?;
    add_postfix(alloc, &mut all)?;
    Ok(all)
}

fn without_operators(alloc: Global) -> Result<Items<Statement>, NoMemory> {
    let mut all = Items::new(alloc);
    add_literals(&mut all)?;
    add_typed(alloc, &mut all)?;
    add_functions(alloc, &mut all)?;
    Ok(all)
}

#[test]
fn operators_stand_between_their_operands(rt: HostRuntime) -> Result<(), Fail> {
    let alloc = rt.alloc();
    let tree = main_of(alloc, with_operators(alloc)?)?;
    let printed = print_tree(alloc, &tree)?;
    let wanted =
        b"int main ( ) {\nco_yield x ;\nthrow ;\nthrow x ;\nx >>= 1 ;\nx ? 1 : 2 ;\n( x + 1 ) * x ;\nco_await x ;\n:: new T * * ;\nnew std :: size_t { x , 2 } ;\ndelete x ;\nx -> y ;\nx ( x , 2 ) ;\nx -- ; }\n";
    assert!(rt; printed.as_slice() == wanted.as_slice());
    Ok(())
}

#[test]
fn primary_expressions_are_spelled(rt: HostRuntime) -> Result<(), Fail> {
    let alloc = rt.alloc();
    let tree = main_of(alloc, without_operators(alloc)?)?;
    let printed = print_tree(alloc, &tree)?;
    let wanted =
        b"int main ( ) {\n2147483648L ;\n0UL ;\ntrue ;\nnullptr ;\nthis ;\nstd :: atomic < void * > ( ) ;\ncorun :: text ( \"a\\\"\\\\\" ) ;\nstatic_cast < long > ( x ) ;\n:: operator new ( x , 2 ) ;\n:: operator delete ( x , 2 ) ;\nstd :: coroutine_handle < P > :: from_promise ;\nstd :: move ;\ncorun :: print ; }\n";
    assert!(rt; printed.as_slice() == wanted.as_slice());
    Ok(())
}
