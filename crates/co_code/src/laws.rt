//! Laws of the listing. Each function does nothing: its clause is the law.
ghost use Rattle.co_code.specs.Laws.{ListsEach};

/// A listing has one line for each instruction.
pub fn lists_each()
    ensures { ListsEach }
{}
