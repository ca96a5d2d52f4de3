ghost use Rattle.std.specs.Prelude.{◌≡◌, IfOk, IfErr};
ghost use Rattle.co_rules.specs.Names.{Knows, classes};
ghost use Rattle.co_grammar.specs.Machine.{step};
ghost use Rattle.co_rules.specs.Rule.{start};
ghost use Rattle.co_grammar.specs.Scan as spec;

use crate::fault::Fault;
use crate::machine::step;
use crate::stack::Stack;
use co_base::NoMemory;
use co_lex::Token;
use co_rules::{ClassNames, Nonterminal, Pattern, Symbol, Terminal, class_names, terminal_of};
use std::alloc::Global;

/// How many nesting levels may be open [implimits].
pub const MOST_LEVELS: usize = 200;

fn started(alloc: Global) -> Result<Stack, NoMemory>
    ensures { IfOk result (λ stack. stack ≡ start) }
{
    let mut stack = Stack::new(alloc);
    stack.push(Symbol::Token(Pattern::End))?;
    stack.push(Symbol::Many(Nonterminal::Item))?;
    Ok(stack)
}

fn read(has_classes: bool, terminal: Terminal, at: usize, stack: Stack) -> Result<Stack, Fault>
    ensures { spec.Reads result at (step has_classes terminal stack) }
{
    match step(has_classes, terminal, stack)? {
        None => Err(Fault::Syntax(at)),
        Some(stack) => {
            if MOST_LEVELS < stack.levels() {
                Err(Fault::TooDeep(at))
            } else {
                Ok(stack)
            }
        }
    }
}

fn finish(at: usize, stack: &Stack) -> Result<(), Fault>
    ensures { result ≡ spec.ended at stack.now }
{
    if stack.is_empty() {
        Ok(())
    } else {
        Err(Fault::Syntax(at))
    }
}

/// The names of the classes, where the tokens, the last one `End`, are a file of the language.
///
/// # Errors
///
/// `Syntax` with the first token that is no part of a file, whatever follows it, where the names right after `struct`, `class`
/// and `using` are those of classes; or with the number of tokens where all of them are, and the file does not end.
/// `TooDeep` with the first token after which more than 200 nesting levels are open. The earlier of the two decides, and
/// `Syntax` at one token. `NoMemory` where memory runs out.
#[tactic(auto, unfolding(crate::specs::Scan::scanned))]
pub fn scan(alloc: Global, tokens: &[Token]) -> Result<ClassNames, Fault>
    ensures answer { spec.Gives result (spec.scanned tokens.now) }
    ensures classes { IfOk result (λ c. Knows c (classes tokens.now)) }
{
    let classes = class_names(alloc, tokens)?;
    let mut stack = started(alloc)?;
    let mut at = 0;
    while at < tokens.len() {
        let terminal = terminal_of(&classes, &tokens[at].kind);
        stack = read(classes.has_some(), terminal, at, stack)?;
        at += 1;
    }
    finish(at, &stack)?;
    Ok(classes)
}
