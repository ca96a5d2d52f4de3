ghost use Rattle.std.specs.Prelude.{◌≡◌, ◌++◌, List, Option, None, Some, map, IfOk};
ghost use Rattle.co_rules.specs.declared.symbol.Symbol.{Symbol};
ghost use Rattle.std.specs.List.{list_any};
ghost use Rattle.co_grammar.specs.Machine as spec;
ghost use Rattle.co_rules.specs.Rule.{rule, in_file, in_class, in_type, in_statement, in_head, in_local, in_value, in_argument, in_unary, in_operand, from_file, from_class, from_type, from_statement, from_head, from_local, from_value, from_argument, from_unary};

use crate::fault::Fault;
use crate::stack::Stack;
use co_base::NoMemory;
use co_lex::Token;
use co_rules::{
    ARGUMENT, CLASS, FILE, HEAD, LOCAL, Nonterminal, OPERAND, Pattern, STATEMENT, Symbol, TYPE,
    Terminal, UNARY, VALUE, admits,
};
use std::alloc::Global;

fn needs_class(symbol: Symbol) -> bool
    ensures { result ≡ spec.needs_class symbol }
{
    match symbol {
        Symbol::One(of) => of == Nonterminal::ClassPath,
        _ => false,
    }
}

fn is_barren(body: &[Symbol]) -> bool
    ensures { result ≡ list_any spec.needs_class body.now }
{
    body.iter().any(|symbol| needs_class(*symbol))
}

fn is_usable(has_classes: bool, body: &[Symbol]) -> bool
    ensures { result ≡ spec.is_usable has_classes body.now }
{
    has_classes || !is_barren(body)
}

fn body_among(
    has_classes: bool,
    of: Nonterminal,
    terminal: Terminal,
    mut rules: &[(Nonterminal, Pattern, &'static [Symbol])],
) -> Option<&'static [Symbol]>
    ensures { spec.Finds result (spec.body_among has_classes of terminal (map (λ r. rule r.0 r.1 r.2.now) rules.entry.now)) }
{
    while let [rule, rest @ ..] = rules {
        if rule.0 == of && admits(rule.1, terminal) && is_usable(has_classes, rule.2) {
            return Some(rule.2);
        }
        rules = rest;
    }
    None
}

fn is_between(of: Nonterminal, first: Nonterminal, last: Nonterminal) -> bool
    ensures { result ≡ spec.is_between of first last }
{
    first as u8 <= of as u8 && of as u8 <= last as u8
}

fn in_file(has_classes: bool, of: Nonterminal, terminal: Terminal) -> Option<&'static [Symbol]>
    ensures { spec.Finds result (spec.body_among has_classes of terminal in_file) }
{
    if !is_between(of, Nonterminal::Item, Nonterminal::Const) {
        return None;
    }
    body_among(has_classes, of, terminal, &FILE)
}

fn in_class(has_classes: bool, of: Nonterminal, terminal: Terminal) -> Option<&'static [Symbol]>
    ensures { spec.Finds result (spec.body_among has_classes of terminal in_class) }
{
    if !is_between(of, Nonterminal::Member, Nonterminal::DestructorBody) {
        return None;
    }
    body_among(has_classes, of, terminal, &CLASS)
}

fn in_type(has_classes: bool, of: Nonterminal, terminal: Terminal) -> Option<&'static [Symbol]>
    ensures { spec.Finds result (spec.body_among has_classes of terminal in_type) }
{
    if !is_between(of, Nonterminal::Parameters, Nonterminal::Pointers) {
        return None;
    }
    body_among(has_classes, of, terminal, &TYPE)
}

fn in_statement(has_classes: bool, of: Nonterminal, terminal: Terminal) -> Option<&'static [Symbol]>
    ensures { spec.Finds result (spec.body_among has_classes of terminal in_statement) }
{
    if !is_between(of, Nonterminal::Block, Nonterminal::ForHead) {
        return None;
    }
    body_among(has_classes, of, terminal, &STATEMENT)
}

fn in_head(has_classes: bool, of: Nonterminal, terminal: Terminal) -> Option<&'static [Symbol]>
    ensures { spec.Finds result (spec.body_among has_classes of terminal in_head) }
{
    if !is_between(of, Nonterminal::ForInit, Nonterminal::CatchParameter) {
        return None;
    }
    body_among(has_classes, of, terminal, &HEAD)
}

fn in_local(has_classes: bool, of: Nonterminal, terminal: Terminal) -> Option<&'static [Symbol]>
    ensures { spec.Finds result (spec.body_among has_classes of terminal in_local) }
{
    if !is_between(of, Nonterminal::AfterBuiltin, Nonterminal::LocalRest) {
        return None;
    }
    body_among(has_classes, of, terminal, &LOCAL)
}

fn in_value(has_classes: bool, of: Nonterminal, terminal: Terminal) -> Option<&'static [Symbol]>
    ensures { spec.Finds result (spec.body_among has_classes of terminal in_value) }
{
    if !is_between(of, Nonterminal::Value, Nonterminal::Expression) {
        return None;
    }
    body_among(has_classes, of, terminal, &VALUE)
}

fn in_argument(has_classes: bool, of: Nonterminal, terminal: Terminal) -> Option<&'static [Symbol]>
    ensures { spec.Finds result (spec.body_among has_classes of terminal in_argument) }
{
    if !is_between(of, Nonterminal::Arguments, Nonterminal::FirstPath) {
        return None;
    }
    body_among(has_classes, of, terminal, &ARGUMENT)
}

fn in_unary(has_classes: bool, of: Nonterminal, terminal: Terminal) -> Option<&'static [Symbol]>
    ensures { spec.Finds result (spec.body_among has_classes of terminal in_unary) }
{
    if !is_between(of, Nonterminal::Unary, Nonterminal::TextArgument) {
        return None;
    }
    body_among(has_classes, of, terminal, &UNARY)
}

fn in_operand(has_classes: bool, of: Nonterminal, terminal: Terminal) -> Option<&'static [Symbol]>
    ensures { spec.Finds result (spec.body_among has_classes of terminal in_operand) }
{
    if !is_between(of, Nonterminal::Built, Nonterminal::Reference) {
        return None;
    }
    body_among(has_classes, of, terminal, &OPERAND)
}

fn from_unary(has_classes: bool, of: Nonterminal, terminal: Terminal) -> Option<&'static [Symbol]>
    ensures { spec.Finds result (spec.body_among has_classes of terminal from_unary) }
{
    match in_unary(has_classes, of, terminal) {
        Some(body) => Some(body),
        None => in_operand(has_classes, of, terminal),
    }
}

fn from_argument(
    has_classes: bool,
    of: Nonterminal,
    terminal: Terminal,
) -> Option<&'static [Symbol]>
    ensures { spec.Finds result (spec.body_among has_classes of terminal from_argument) }
{
    match in_argument(has_classes, of, terminal) {
        Some(body) => Some(body),
        None => from_unary(has_classes, of, terminal),
    }
}

fn from_value(has_classes: bool, of: Nonterminal, terminal: Terminal) -> Option<&'static [Symbol]>
    ensures { spec.Finds result (spec.body_among has_classes of terminal from_value) }
{
    match in_value(has_classes, of, terminal) {
        Some(body) => Some(body),
        None => from_argument(has_classes, of, terminal),
    }
}

fn from_local(has_classes: bool, of: Nonterminal, terminal: Terminal) -> Option<&'static [Symbol]>
    ensures { spec.Finds result (spec.body_among has_classes of terminal from_local) }
{
    match in_local(has_classes, of, terminal) {
        Some(body) => Some(body),
        None => from_value(has_classes, of, terminal),
    }
}

fn from_head(has_classes: bool, of: Nonterminal, terminal: Terminal) -> Option<&'static [Symbol]>
    ensures { spec.Finds result (spec.body_among has_classes of terminal from_head) }
{
    match in_head(has_classes, of, terminal) {
        Some(body) => Some(body),
        None => from_local(has_classes, of, terminal),
    }
}

fn from_statement(
    has_classes: bool,
    of: Nonterminal,
    terminal: Terminal,
) -> Option<&'static [Symbol]>
    ensures { spec.Finds result (spec.body_among has_classes of terminal from_statement) }
{
    match in_statement(has_classes, of, terminal) {
        Some(body) => Some(body),
        None => from_head(has_classes, of, terminal),
    }
}

fn from_type(has_classes: bool, of: Nonterminal, terminal: Terminal) -> Option<&'static [Symbol]>
    ensures { spec.Finds result (spec.body_among has_classes of terminal from_type) }
{
    match in_type(has_classes, of, terminal) {
        Some(body) => Some(body),
        None => from_statement(has_classes, of, terminal),
    }
}

fn from_class(has_classes: bool, of: Nonterminal, terminal: Terminal) -> Option<&'static [Symbol]>
    ensures { spec.Finds result (spec.body_among has_classes of terminal from_class) }
{
    match in_class(has_classes, of, terminal) {
        Some(body) => Some(body),
        None => from_type(has_classes, of, terminal),
    }
}

fn from_file(has_classes: bool, of: Nonterminal, terminal: Terminal) -> Option<&'static [Symbol]>
    ensures { spec.Finds result (spec.body_among has_classes of terminal from_file) }
{
    match in_file(has_classes, of, terminal) {
        Some(body) => Some(body),
        None => from_class(has_classes, of, terminal),
    }
}

/// What follows the terminal in the one rule of the nonterminal that begins with it, if there is one.
#[tactic(auto, unfolding(crate::specs::Machine::body_for))]
pub fn body_for(has_classes: bool, of: Nonterminal, terminal: Terminal) -> Option<&'static [Symbol]>
    ensures { spec.Finds result (spec.body_for has_classes of terminal) }
{
    from_file(has_classes, of, terminal)
}

fn put(body: &[Symbol], mut stack: Stack) -> Result<Option<Stack>, NoMemory>
    ensures { IfOk result (λ after. after ≡ Some (body.now ++ stack)) }
{
    stack.push_all(body)?;
    Ok(Some(stack))
}

fn put_one(body: Option<&'static [Symbol]>, stack: Stack) -> Result<Option<Stack>, NoMemory>
    ensures { (told : Option (List Symbol)) → spec.Finds body.entry told → IfOk result (λ after. after ≡ spec.put told stack None) }
{
    match body {
        Some(body) => put(body, stack),
        None => Ok(None),
    }
}

/// The stack after the terminal, or `None` where no list that the stack derives begins with it.
///
/// # Errors
///
/// `NoMemory` where memory runs out; the stack is dropped.
pub fn step(
    has_classes: bool,
    terminal: Terminal,
    mut stack: Stack,
) -> Result<Option<Stack>, NoMemory>
    ensures { IfOk result (λ after. after ≡ spec.step has_classes terminal stack) }
{
    while let Some(symbol) = stack.pop() {
        match symbol {
            Symbol::Close => {}
            Symbol::Token(pattern) => {
                return Ok(if admits(pattern, terminal) {
                    Some(stack)
                } else {
                    None
                });
            }
            Symbol::One(of) => return put_one(body_for(has_classes, of, terminal), stack),
            Symbol::Maybe(of) => {
                if let Some(body) = body_for(has_classes, of, terminal) {
                    return put(body, stack);
                }
            }
            Symbol::Many(of) => {
                if let Some(body) = body_for(has_classes, of, terminal) {
                    stack.push(symbol)?;
                    return put(body, stack);
                }
            }
            Symbol::Greedy(of, pattern) => {
                if let Some(body) = body_for(has_classes, of, terminal) {
                    return put(body, stack);
                }
                if admits(pattern, terminal) {
                    return Ok(None);
                }
            }
        }
    }
    Ok(None)
}
