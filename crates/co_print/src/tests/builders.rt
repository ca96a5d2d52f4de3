use co_base::{NoMemory, Num, Span, Text};
use co_tree::{
    Block, Declaration, Expression, Function, FunctionName, Path, Reference, SimpleType,
    SimpleTypeKind, Statement, Tree, TypeId,
};
use sqlite_items::{Boxed, Items};
use std::alloc::Global;

pub const AT: Span = Span { line: 1, col: 1 };

pub fn text(alloc: Global, bytes: &[u8]) -> Result<Text, NoMemory> {
    Text::from_slice(alloc, bytes)
}

pub fn path(alloc: Global, name: &[u8]) -> Result<Path, NoMemory> {
    let mut names = Items::new(alloc);
    names.push(text(alloc, name)?)?;
    Ok(Path { names, span: AT })
}

pub fn base(kind: SimpleTypeKind) -> SimpleType {
    SimpleType { kind, span: AT }
}

pub fn plain(kind: SimpleTypeKind) -> TypeId {
    TypeId {
        is_const: false,
        base: base(kind),
        is_const_after: false,
        pointers: 0,
        reference: Reference::None,
        span: AT,
    }
}

/// A variable as an expression.
pub fn x(alloc: Global) -> Result<Expression, NoMemory> {
    Ok(Expression::Name(path(alloc, b"x")?))
}

pub fn number(value: i64) -> Expression {
    Expression::Number(Num::Int, value, AT)
}

pub fn boxed(alloc: Global, e: Expression) -> Result<Boxed<Expression>, NoMemory> {
    Ok(Boxed::new(alloc, e)?)
}

/// `x` and a number, as arguments.
pub fn two(alloc: Global) -> Result<Items<Expression>, NoMemory> {
    let mut items = Items::new(alloc);
    items.push(x(alloc)?)?;
    items.push(number(2))?;
    Ok(items)
}

pub fn block(statements: Items<Statement>) -> Block {
    Block {
        statements,
        span: AT,
    }
}

/// `int main() {..}`
pub fn main_of(alloc: Global, statements: Items<Statement>) -> Result<Tree, NoMemory> {
    let mut declarations = Items::new(alloc);
    declarations.push(Declaration::Function(Function {
        specifiers: Items::new(alloc),
        result: plain(SimpleTypeKind::Int),
        name: FunctionName::Name(text(alloc, b"main")?),
        parameters: Items::new(alloc),
        is_const: false,
        is_noexcept: false,
        body: Some(block(statements)),
        span: AT,
    }))?;
    Ok(Tree { declarations })
}
