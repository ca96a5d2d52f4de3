ghost use Rattle.co_first_tree.specs.declared.tree.Program.{Program};
ghost use Rattle.co_first_tree.specs.Form.{IsFormed};
ghost use Rattle.co_first_gen.specs.Code.{code_of};
ghost use Rattle.co_first_faithful.specs.Faithful.{IsFaithful};

/// The code of each program that keeps the rules of its form does what the program does.
pub fn code_is_faithful()
    ensures { (program : Program) → IsFormed program → IsFaithful program (code_of program) }
{}
