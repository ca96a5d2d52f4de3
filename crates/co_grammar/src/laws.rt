ghost use Rattle.co_grammar.specs.Laws.{AcceptsFiles, SyntaxIsFirst, DepthIsFirst, NearestIfRefusesNone, StepsAreExact};

/// A law: a list of tokens is accepted exactly where the rules derive it and none of its tokens opens too many levels.
pub fn accepts_files()
    ensures { AcceptsFiles }
{}

/// A law: a syntax fault stands at the first token such that the tokens up to and with it are the beginning of no file.
pub fn syntax_is_first()
    ensures { SyntaxIsFirst }
{}

/// A law: the fault of nesting stands at the first token that opens too many levels, where no syntax fault stands there or before.
pub fn depth_is_first()
    ensures { DepthIsFirst }
{}

/// A law: that an `else` belongs to the nearest `if` refuses no list [stmt.if].
pub fn nearest_if_refuses_none()
    ensures { NearestIfRefusesNone }
{}

/// A law: from each stack that is reached, the machine steps over a token exactly where a list that the stack derives begins with
/// it, to a stack that derives exactly what may follow; and each such stack derives some list.
pub fn steps_are_exact()
    ensures { StepsAreExact }
{}
