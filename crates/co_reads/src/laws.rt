//! Laws of the definitions. Each function does nothing: its clause is the law.
ghost use Rattle.co_reads.specs.Laws.{ScannedRuns, ClassPathsAreRead, BasesAreRead, TypesAreRead, ExpressionsAreRead, OperandsAreRead};

/// A law: the rules read each list that the scan accepts, where the token that comes next picks each rule.
pub fn scanned_runs()
    ensures { ScannedRuns }
{}

/// A law: where the rules read the path of a class, the reader does: the tokens spell the path.
pub fn class_paths_are_read()
    ensures { ClassPathsAreRead }
{}

/// A law: where the rules read the base of a type, the reader does: the tokens spell the base, and its paths are of classes.
pub fn bases_are_read()
    ensures { BasesAreRead }
{}

/// A law: where the rules read a type, the reader does: the tokens spell the type, and its paths are of classes.
pub fn types_are_read()
    ensures { TypesAreRead }
{}

/// A law: where the rules read an expression, the reader does: the tokens spell the expression, and it is formed.
pub fn expressions_are_read()
    ensures { ExpressionsAreRead }
{}

/// A law: where the rules read an operand and operators, the reader takes those that bind tightly enough, and no other.
pub fn operands_are_read()
    ensures { OperandsAreRead }
{}
