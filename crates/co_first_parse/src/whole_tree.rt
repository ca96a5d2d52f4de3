ghost use Rattle.std.specs.Prelude.{◌≡◌, IfOk, Err, None, Some, OnOk, length};
ghost use Rattle.co_first_parse.specs.Parse.{Steps};
ghost use Rattle.co_first_parse.specs.Place as spec;
ghost use Rattle.co_first_parse.specs.Grammar.{AreLawful, IsTree};
ghost use Rattle.co_first_tree.specs.declared.tree.Program.{Program};

use crate::blocks::Parser;
use crate::cursor::Cursor;
use crate::fault::ParseFault;
use crate::token::{Mark, Token};
use co_first_tree::Program;
use std::alloc::Global;

/// `int main() {`
#[tactic(auto, unfolding(crate::specs::Place::opening))]
fn opening(tokens: &mut Cursor<'_>) -> Result<(), ParseFault>
    ensures { Steps (spec.opening tokens.old) result tokens.new }
{
    tokens.take(Mark::Int)?;
    tokens.take(Mark::Main)?;
    tokens.take(Mark::OpenParenthesis)?;
    tokens.take(Mark::CloseParenthesis)?;
    tokens.take(Mark::OpenBrace)
}

/// The tree of the tokens of a file.
pub fn whole_tree(alloc: Global, tokens: &[Token]) -> Result<Program, ParseFault>
    requires { AreLawful tokens.now }
    ensures ok { IfOk result (λ program. IsTree tokens.now program) }
    ensures refused { result ≡ Err ParseFault.Syntax → (program : Program) → IsTree tokens.now program → ⊥ }
{
    let mut cursor = Cursor::new(tokens);
    opening(&mut cursor)?;
    let mut parser = Parser::new(alloc, cursor);
    'turns: while !parser.is_end() {
        parser.step(alloc)?;
    }
    Ok(parser.into_program())
}
