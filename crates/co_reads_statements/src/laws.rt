ghost use Rattle.co_reads_statements.specs.Laws.{ForInitsAreRead, StatementsAreRead, BlocksAreRead};

/// A law: where the rules read what a `for` begins with, the reader does: the tokens spell it, and it is formed.
pub fn for_inits_are_read()
    ensures { ForInitsAreRead }
{}

/// A law: where the rules read a statement, the reader does: the tokens spell the statement, it is formed, and no `else` that
/// would belong to it comes next.
pub fn statements_are_read()
    ensures { StatementsAreRead }
{}

/// A law: where the rules read a block, the reader does: the tokens spell the block, and it is formed.
pub fn blocks_are_read()
    ensures { BlocksAreRead }
{}
