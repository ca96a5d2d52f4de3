//! Laws of the definitions. Each function does nothing: its clause is the law.
ghost use Rattle.co_print.specs.Laws.{PrintedSpells};

/// The canonical text of a tree is spelled with the tokens of the texts that have the tree, their places aside. So reading it
/// gives the tree again, spans aside.
pub fn printed_spells()
    ensures { PrintedSpells }
{}
