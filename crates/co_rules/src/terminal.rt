ghost use Rattle.std.specs.Prelude.{◌≡◌, List, ℕ};
ghost use Rattle.co_rules.specs.Names.{Knows};
ghost use Rattle.co_rules.specs.Terminal as spec;

use crate::names::{ClassNames, known};
use crate::symbol::Terminal;
use co_lex::TokenKind;

/// What the grammar sees of a token, where these are the names of classes.
pub fn terminal_of(classes: &ClassNames, kind: &TokenKind) -> Terminal
    ensures { (names : List (List ℕ)) → Knows classes.now names → result ≡ spec.terminal_of names kind.now }
{
    match kind {
        TokenKind::Name(name) => {
            let name = name.as_slice();
            Terminal::Name(classes.contains(name), known(name))
        }
        TokenKind::Word(word) => Terminal::Word(*word),
        TokenKind::Int(_, _) => Terminal::Number,
        TokenKind::Lit(_) => Terminal::Text,
        TokenKind::Mark(mark) => Terminal::Mark(*mark),
        TokenKind::End => Terminal::End,
    }
}
