ghost use Rattle.std.specs.Prelude.{◌≡◌, OnOk};
ghost use Rattle.co_tree.specs.Statements as spec;
ghost use Rattle.co_print.specs.Printed.{put_all};

use crate::expressions::{print_expression, print_in_braces, print_in_parentheses};
use crate::printer::Printer;
use crate::types::print_type;
use co_base::{NoMemory, Text};
use co_lex::{Mark, Word};
use co_tree::{
    Block, Caught, Expression, ForInit, Handler, Initializer, Parameter, Returned, Statement,
    Variable,
};

#[tactic(auto, using(crate::proofs::Puts::puts))]
fn print_expression_if(out: &mut Printer, e: &Option<Expression>) -> Result<(), NoMemory>
    ensures { OnOk result (out.new ≡ put_all out.old (spec.full_if e.now)) }
{
    match e {
        None => Ok(()),
        Some(e) => print_expression(out, e),
    }
}

#[tactic(auto, using(crate::proofs::Puts::puts))]
fn print_initializer(out: &mut Printer, initializer: &Initializer) -> Result<(), NoMemory>
    ensures { OnOk result (out.new ≡ put_all out.old (spec.initializer initializer.now)) }
{
    match initializer {
        Initializer::None => Ok(()),
        Initializer::Equals(e) => {
            out.mark(Mark::Assign)?;
            print_expression(out, e)?;
            Ok(())
        }
        Initializer::EqualsBraces(args) => {
            out.mark(Mark::Assign)?;
            print_in_braces(out, args.as_slice())?;
            Ok(())
        }
        Initializer::Parentheses(args) => print_in_parentheses(out, args.as_slice()),
        Initializer::Braces(args) => print_in_braces(out, args.as_slice()),
    }
}

#[tactic(auto, using(crate::proofs::Puts::puts))]
pub fn print_variable(out: &mut Printer, variable: &Variable) -> Result<(), NoMemory>
    ensures { OnOk result (out.new ≡ put_all out.old (spec.variable variable.now)) }
{
    print_type(out, &variable.of)?;
    out.name(variable.name.as_slice())?;
    print_initializer(out, &variable.initializer)?;
    out.mark(Mark::Semicolon)?;
    Ok(())
}

fn print_name_if(out: &mut Printer, name: &Option<Text>) -> Result<(), NoMemory>
    ensures { OnOk result (out.new ≡ put_all out.old (spec.name_if name.now)) }
{
    match name {
        None => Ok(()),
        Some(name) => out.name(name.as_slice()),
    }
}

#[tactic(auto, using(crate::proofs::Puts::puts))]
pub fn print_parameter(out: &mut Printer, parameter: &Parameter) -> Result<(), NoMemory>
    ensures { OnOk result (out.new ≡ put_all out.old (spec.parameter parameter.now)) }
{
    print_type(out, &parameter.of)?;
    print_name_if(out, &parameter.name)?;
    Ok(())
}

fn print_caught(out: &mut Printer, caught: &Caught) -> Result<(), NoMemory>
    ensures { OnOk result (out.new ≡ put_all out.old (spec.caught_by caught.now)) }
{
    match caught {
        Caught::All => out.mark(Mark::Ellipsis),
        Caught::One(parameter) => print_parameter(out, parameter),
    }
}

#[tactic(auto, using(crate::proofs::Puts::puts))]
fn print_for_init(out: &mut Printer, init: &ForInit) -> Result<(), NoMemory>
    ensures { OnOk result (out.new ≡ put_all out.old (spec.for_head init.now)) }
{
    match init {
        ForInit::None => out.mark(Mark::Semicolon),
        ForInit::Local(variable) => print_variable(out, variable),
        ForInit::Expression(e) => {
            print_expression(out, e)?;
            out.mark(Mark::Semicolon)?;
            Ok(())
        }
    }
}

#[tactic(auto, using(crate::proofs::Puts::puts))]
fn print_for_head(
    out: &mut Printer,
    init: &ForInit,
    condition: &Option<Expression>,
    step: &Option<Expression>,
) -> Result<(), NoMemory>
    ensures { OnOk result (out.new ≡ put_all out.old (spec.for_parentheses init.now condition.now step.now)) }
{
    out.mark(Mark::OpenParen)?;
    print_for_init(out, init)?;
    print_expression_if(out, condition)?;
    out.mark(Mark::Semicolon)?;
    print_expression_if(out, step)?;
    out.mark(Mark::CloseParen)?;
    Ok(())
}

#[tactic(auto, using(crate::proofs::Puts::puts))]
fn print_condition(out: &mut Printer, e: &Expression) -> Result<(), NoMemory>
    ensures { OnOk result (out.new ≡ put_all out.old (spec.condition e.now)) }
{
    out.mark(Mark::OpenParen)?;
    print_expression(out, e)?;
    out.mark(Mark::CloseParen)?;
    Ok(())
}

#[tactic(auto, using(crate::proofs::Puts::puts))]
fn print_returned(out: &mut Printer, returned: &Returned) -> Result<(), NoMemory>
    ensures { OnOk result (out.new ≡ put_all out.old (spec.returned_value returned.now)) }
{
    match returned {
        Returned::None => Ok(()),
        Returned::Value(e) => print_expression(out, e),
        Returned::Braces(args) => print_in_braces(out, args.as_slice()),
    }
}

#[tactic(auto, using(crate::proofs::Puts::puts))]
fn print_catch(out: &mut Printer, caught: &Caught) -> Result<(), NoMemory>
    ensures { OnOk result (out.new ≡ put_all out.old (spec.catch_head caught.now)) }
{
    out.word(Word::Catch)?;
    out.mark(Mark::OpenParen)?;
    print_caught(out, caught)?;
    out.mark(Mark::CloseParen)?;
    Ok(())
}

#[cycle(statements)]
#[tactic(auto, using(crate::proofs::Puts::puts))]
pub fn print_block(out: &mut Printer, block: &Block) -> Result<(), NoMemory>
    ensures { OnOk result (out.new ≡ put_all out.old (spec.block block.now)) }
{
    out.mark(Mark::OpenBrace)?;
    print_statements(out, block.statements.as_slice())?;
    out.mark(Mark::CloseBrace)?;
    Ok(())
}

#[cycle(statements)]
fn print_statements(out: &mut Printer, statements: &[Statement]) -> Result<(), NoMemory>
    ensures { OnOk result (out.new ≡ put_all out.old (spec.statements statements.now)) }
{
    for statement in statements {
        print_statement(out, statement)?;
    }
    Ok(())
}

#[cycle(statements)]
#[tactic(auto, using(crate::proofs::Puts::puts))]
fn print_handler(out: &mut Printer, handler: &Handler) -> Result<(), NoMemory>
    ensures { OnOk result (out.new ≡ put_all out.old (spec.handler handler.now)) }
{
    print_catch(out, &handler.caught)?;
    print_block(out, &handler.body)?;
    Ok(())
}

#[cycle(statements)]
fn print_handlers(out: &mut Printer, handlers: &[Handler]) -> Result<(), NoMemory>
    ensures { OnOk result (out.new ≡ put_all out.old (spec.handlers handlers.now)) }
{
    for handler in handlers {
        print_handler(out, handler)?;
    }
    Ok(())
}

#[cycle(statements)]
#[tactic(auto, using(crate::proofs::Puts::puts))]
fn print_statement(out: &mut Printer, statement: &Statement) -> Result<(), NoMemory>
    ensures { OnOk result (out.new ≡ put_all out.old (spec.statement statement.now)) }
{
    out.line();
    match statement {
        Statement::Block(block) => {
            print_block(out, block)?;
            Ok(())
        }
        Statement::Empty(_) => out.mark(Mark::Semicolon),
        Statement::Local(variable) => print_variable(out, variable),
        Statement::Expression(e, _) => {
            print_expression(out, e)?;
            out.mark(Mark::Semicolon)?;
            Ok(())
        }
        Statement::Try(block, handlers, _) => {
            out.word(Word::Try)?;
            print_block(out, block)?;
            print_handlers(out, handlers.as_slice())?;
            Ok(())
        }
        Statement::If(e, then, _) => {
            out.word(Word::If)?;
            print_condition(out, e)?;
            print_statement(out, then.get())?;
            Ok(())
        }
        Statement::IfElse(e, then, other, _) => {
            out.word(Word::If)?;
            print_condition(out, e)?;
            print_statement(out, then.get())?;
            out.word(Word::Else)?;
            print_statement(out, other.get())?;
            Ok(())
        }
        Statement::While(e, body, _) => {
            out.word(Word::While)?;
            print_condition(out, e)?;
            print_statement(out, body.get())?;
            Ok(())
        }
        Statement::For(init, condition, step, body, _) => {
            out.word(Word::For)?;
            print_for_head(out, init, condition, step)?;
            print_statement(out, body.get())?;
            Ok(())
        }
        Statement::Break(_) => {
            out.word(Word::Break)?;
            out.mark(Mark::Semicolon)?;
            Ok(())
        }
        Statement::Continue(_) => {
            out.word(Word::Continue)?;
            out.mark(Mark::Semicolon)?;
            Ok(())
        }
        Statement::Return(returned, _) => {
            out.word(Word::Return)?;
            print_returned(out, returned)?;
            out.mark(Mark::Semicolon)?;
            Ok(())
        }
        Statement::CoReturn(e, _) => {
            out.word(Word::CoReturn)?;
            print_expression_if(out, e)?;
            out.mark(Mark::Semicolon)?;
            Ok(())
        }
    }
}
