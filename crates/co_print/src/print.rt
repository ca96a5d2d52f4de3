ghost use Rattle.std.specs.Prelude.{◌≡◌, IfOk, OnOk};
ghost use Rattle.co_lex.specs.declared.token.TokenKind.TheVariants as kind;
ghost use Rattle.co_tree.specs.Declarations.{sentence_of};
ghost use Rattle.co_print.specs.Printed.{put_token, put_all, printed};

use crate::declarations::print_declarations;
use crate::printer::Printer;
use co_base::NoMemory;
use co_tree::Tree;
use std::alloc::Global;

#[tactic(auto, using(crate::proofs::Puts::puts))]
fn print_sentence(out: &mut Printer, tree: &Tree) -> Result<(), NoMemory>
    ensures { OnOk result (out.new ≡ put_all out.old (sentence_of tree.now)) }
{
    print_declarations(out, tree.declarations.as_slice())?;
    out.line();
    out.end()?;
    Ok(())
}

/// The canonical text of a tree: its tokens in order, one space apart, and a new line in place of the space where a
/// declaration, a member or a statement begins, and at the end. A tree of at most 200 levels takes a bounded part of the
/// stack, however long it is.
pub fn print_tree(alloc: Global, tree: &Tree) -> Result<Vec<u8>, NoMemory>
    ensures { IfOk result (λ bytes. bytes.items ≡ printed tree.now) }
{
    let mut out = Printer::new(alloc);
    print_sentence(&mut out, tree)?;
    let Printer { text, gap: _ } = out;
    Ok(text.into_vec())
}
