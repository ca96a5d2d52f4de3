use super::builders::{AT, block, main_of, number, plain, text, two, x};
use crate::print_tree;
use co_base::NoMemory;
use co_tree::{
    Caught, ForInit, Handler, Initializer, Parameter, Returned, SimpleTypeKind, Statement, Variable,
};
use sqlite_items::{Boxed, Items};
use std::alloc::Global;
use std::test::Fail;

fn boxed(alloc: Global, statement: Statement) -> Result<Boxed<Statement>, NoMemory> {
    Ok(Boxed::new(alloc, statement)?)
}

fn local(alloc: Global, initializer: Initializer) -> Result<Variable, NoMemory> {
    Ok(Variable {
        of: plain(SimpleTypeKind::Auto),
        name: text(alloc, b"i")?,
        initializer,
        span: AT,
    })
}

fn handlers(alloc: Global) -> Result<Items<Handler>, NoMemory> {
    let mut handlers = Items::new(alloc);
    handlers.push(Handler {
        caught: Caught::One(Parameter {
            of: plain(SimpleTypeKind::ExceptionPtr),
            name: Some(text(alloc, b"e")?),
            span: AT,
        }),
        body: block(Items::new(alloc)),
        span: AT,
    })?;
    handlers.push(Handler {
        caught: Caught::All,
        body: block(Items::new(alloc)),
        span: AT,
    })?;
    Ok(handlers)
}

fn branches(alloc: Global) -> Result<Items<Statement>, NoMemory> {
    let mut all = Items::new(alloc);
    let then = boxed(alloc, Statement::Break(AT))?;
    let other = boxed(alloc, Statement::Continue(AT))?;
    all.push(Statement::If(x(alloc)?, boxed(alloc, Statement::Empty(AT))?, AT))?;
    all.push(Statement::IfElse(x(alloc)?, then, other, AT))?;
    all.push(Statement::While(
        x(alloc)?,
        boxed(alloc, Statement::Block(block(Items::new(alloc))))?,
        AT,
    ))?;
    all.push(Statement::For(
        ForInit::Local(local(alloc, Initializer::Equals(number(0)))?),
        Some(x(alloc)?),
        None,
        boxed(alloc, Statement::Return(Returned::Braces(two(alloc)?), AT))?,
        AT,
    ))?;
    all.push(Statement::Try(block(Items::new(alloc)), handlers(alloc)?, AT))?;
    Ok(all)
}

fn locals(alloc: Global) -> Result<Items<Statement>, NoMemory> {
    let mut all = Items::new(alloc);
    all.push(Statement::Local(local(alloc, Initializer::None)?))?;
    all.push(Statement::Local(local(alloc, Initializer::EqualsBraces(two(alloc)?))?))?;
    all.push(Statement::Local(local(alloc, Initializer::Parentheses(two(alloc)?))?))?;
    all.push(Statement::Local(local(alloc, Initializer::Braces(Items::new(alloc)))?))?;
    all.push(Statement::Return(Returned::None, AT))?;
    all.push(Statement::Return(Returned::Value(x(alloc)?), AT))?;
    all.push(Statement::CoReturn(None, AT))?;
    Ok(all)
}

#[test]
fn branches_stand_on_lines(rt: HostRuntime) -> Result<(), Fail> {
    let alloc = rt.alloc();
    let tree = main_of(alloc, branches(alloc)?)?;
    let printed = print_tree(alloc, &tree)?;
    let wanted =
        b"int main ( ) {\nif ( x )\n;\nif ( x )\nbreak ; else\ncontinue ;\nwhile ( x )\n{ }\nfor ( auto i = 0 ; x ; )\nreturn { x , 2 } ;\ntry { } catch ( std :: exception_ptr e ) { } catch ( ... ) { } }\n";
    assert!(rt; printed.as_slice() == wanted.as_slice());
    Ok(())
}

#[test]
fn locals_are_initialized(rt: HostRuntime) -> Result<(), Fail> {
    let alloc = rt.alloc();
    let tree = main_of(alloc, locals(alloc)?)?;
    let printed = print_tree(alloc, &tree)?;
    let wanted =
        b"int main ( ) {\nauto i ;\nauto i = { x , 2 } ;\nauto i ( x , 2 ) ;\nauto i { } ;\nreturn ;\nreturn x ;\nco_return ; }\n";
    assert!(rt; printed.as_slice() == wanted.as_slice());
    Ok(())
}
