//! The parser of the first form of file: `int main() { .. return 0; }` over variables of type `long`.
#![tactic(auto)]

ghost use Rattle.std.specs.Prelude.{◌≡◌, ℕ, List, IfOk, Err};
ghost use Rattle.co_first_tree.specs.declared.tree.Program.{Program};
ghost use Rattle.co_first_parse.specs.Grammar.{IsFile, HasOneTree};

mod blocks;
mod cursor;
mod fault;
mod frame;
mod lex;
mod names;
mod seen;
mod statements;
mod sums;
#[cfg(test)]
mod tests;
mod token;
mod whole_tree;
mod words;

use crate::lex::{MAX_BYTES, lex};
use crate::whole_tree::whole_tree;
use co_first_tree::Program;
pub use fault::ParseFault;
use std::alloc::Global;

/// The tree of a file of the form. `Syntax` where the bytes are no such file: where they spell other tokens, where the tokens are
/// those of no tree, or where a name or a limit is not kept. `NoMemory` where memory runs out, and nothing is left then.
pub fn parse(alloc: Global, bytes: &[u8]) -> Result<Program, ParseFault>
    ensures ok { IfOk result (λ program. IsFile bytes.now program) }
    ensures refused { result ≡ Err ParseFault.Syntax → (program : Program) → IsFile bytes.now program → ⊥ }
{
    if MAX_BYTES < bytes.len() {
        return Err(ParseFault::Syntax);
    }
    let tokens = lex(alloc, bytes)?;
    whole_tree(alloc, tokens.as_slice())
}

/// A file has one tree at most.
pub fn has_one_tree()
    ensures { (bytes : List ℕ) → HasOneTree bytes }
{}
