ghost use Rattle.std.specs.Prelude.{◌≡◌};
ghost use Rattle.co_rules.specs.Names.{holds};
ghost use Rattle.co_parse.specs.Parse as spec;

use crate::fault::ParseFault;
use crate::members::{declarations, is_end};
use co_base::Span;
use co_expressions::Within;
use co_grammar::{Fault, scan};
use co_lex::Token;
use co_reader::{Cursor, ReadFault};
use co_rules::ClassNames;
use co_tree::Tree;
use sqlite_items::at;
use std::alloc::Global;

fn place_at(tokens: &[Token], number: usize) -> Span
    ensures { result ≡ spec.place_at tokens.now number }
{
    match at(tokens, number) {
        Some(token) => token.span,
        None => Span { line: 0, col: 0 },
    }
}

fn placed(tokens: &[Token], fault: Fault) -> ParseFault
    ensures { result ≡ spec.placed tokens.now fault }
{
    match fault {
        Fault::Syntax(number) => ParseFault::Syntax(place_at(tokens, number)),
        Fault::TooDeep(number) => ParseFault::TooDeep(place_at(tokens, number)),
        Fault::NoMemory => ParseFault::NoMemory,
    }
}

fn is_last(cursor: &Cursor<'_>) -> bool
    ensures { result ≡ spec.is_last cursor.now }
{
    cursor.left() == 1 && is_end(cursor.lead())
}

#[tactic(auto, unfolding(crate::specs::Parse::built))]
fn built(alloc: Global, classes: &ClassNames, tokens: &[Token]) -> Result<Tree, ParseFault>
    ensures { spec.Gives result (spec.built (holds classes.now) tokens.now) }
{
    let mut cursor = Cursor::new(tokens);
    let within = Within {
        alloc,
        classes,
        depth: tokens.len(),
    };
    match declarations(&within, &mut cursor) {
        Ok(declarations) => {
            if is_last(&cursor) {
                Ok(Tree { declarations })
            } else {
                Err(ParseFault::Syntax(place_at(tokens, tokens.len())))
            }
        }
        Err(ReadFault::Refused) => Err(ParseFault::Syntax(place_at(tokens, tokens.len()))),
        Err(ReadFault::NoMemory) => Err(ParseFault::NoMemory),
    }
}

/// The tree of the tokens, the last one `End`, where the names right after `struct`, `class` and `using` are those of classes.
///
/// # Errors
///
/// `Syntax` at the first token that is no part of a file, whatever follows it; `TooDeep` at the first token after which more
/// than 200 nesting levels are open. The earlier of the two decides, and `Syntax` at one token. `NoMemory` where memory runs out.
#[tactic(auto, unfolding(crate::specs::Parse::parsed))]
pub fn parse(alloc: Global, tokens: &[Token]) -> Result<Tree, ParseFault>
    ensures { spec.Gives result (spec.parsed tokens.now) }
{
    match scan(alloc, tokens) {
        Ok(classes) => built(alloc, &classes, tokens),
        Err(fault) => Err(placed(tokens, fault)),
    }
}
