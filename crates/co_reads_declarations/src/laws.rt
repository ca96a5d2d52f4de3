//! Laws of the definitions. Each function does nothing: its clause is the law.
ghost use Rattle.co_reads_declarations.specs.Laws.{Parses, AnswersDerive, RefusesNoTree, SyntaxFaultsAreOfNoTree};

/// A law: each list of tokens that the scan accepts is parsed, and the tree derives the tokens.
pub fn parses()
    ensures { Parses }
{}

/// A law: each tree that is the answer derives the tokens: it is formed, its sentence is the tokens, and each of its nodes has the
/// place of its first token.
pub fn answers_derive()
    ensures { AnswersDerive }
{}

/// A law: tokens that some tree derives have no syntax fault.
pub fn refuses_no_tree()
    ensures { RefusesNoTree }
{}

/// A law: a syntax fault stands at a token such that no tree derives a list that begins with the tokens up to and with it, or at
/// the end of a list that no tree derives.
pub fn syntax_faults_are_of_no_tree()
    ensures { SyntaxFaultsAreOfNoTree }
{}
