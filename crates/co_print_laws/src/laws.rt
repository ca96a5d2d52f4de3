//! Laws of the definitions. Each function does nothing: its clause is the law.
ghost use Rattle.co_print_laws.specs.Laws.{PrintedDerives, TreeOfTokens};

/// Each list of the tokens of a formed tree has a tree that derives it: the same but for its spans, with the same canonical
/// text.
pub fn tree_of_tokens()
    ensures { TreeOfTokens }
{}

/// Where a text has a tree, the canonical text of the tree has one too: the same but for its spans, with the same canonical text.
pub fn printed_derives()
    ensures { PrintedDerives }
{}
