ghost use Rattle.co_lex.specs.Spells.{TokensSpell, SpelledOnce, FaultIsFirst};

/// A law: the tokens of a text are exactly those that spell it, white space, directives and the spellings of tokens, each as
/// long as possible [lex.phases].
pub fn tokens_spell()
    ensures { TokensSpell }
{}

/// A law: at most one list of tokens spells a text.
pub fn spelled_once()
    ensures { SpelledOnce }
{}

/// A law: the fault of a text is exactly that of the first place where it is spelled no further.
pub fn fault_is_first()
    ensures { FaultIsFirst }
{}
