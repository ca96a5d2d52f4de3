//! Laws of the definitions. Each function does nothing: its clause is the law.
ghost use Rattle.co_covers.specs.Laws.{RulesCover, EachTreeIsAFile};

/// The rules of the grammar derive the tokens of each tree that is formed.
pub fn rules_cover()
    ensures { RulesCover }
{}

/// Each list of tokens that a tree derives is a file by the rules of the grammar.
pub fn each_tree_is_a_file()
    ensures { EachTreeIsAFile }
{}
