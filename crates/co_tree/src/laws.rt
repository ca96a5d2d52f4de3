//! Laws of the definitions. Each function does nothing: its clause is the law.
ghost use Rattle.co_tree.specs.Laws.{ReadsTokens};

/// The tokens that a tree derives are its own, whatever their places.
pub fn reads_tokens()
    ensures { ReadsTokens }
{}
