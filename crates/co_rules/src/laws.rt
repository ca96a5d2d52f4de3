ghost use Rattle.co_rules.specs.Laws.{OneRuleBegins};

/// A law: a nonterminal has one rule at most that begins with a terminal, so the next token decides which rule is taken.
pub fn one_rule_begins()
    ensures { OneRuleBegins }
{}
