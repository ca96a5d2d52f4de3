ghost use Rattle.std.specs.Prelude.{◌≡◌, map, IfOk};
ghost use Rattle.co_eval_data.specs.Agents.{IsTabled, local_of};
ghost use Rattle.co_eval_data.specs.Changed.{after};
ghost use Rattle.co_eval_data.specs.Seen.{given_of};
ghost use Rattle.co_eval_nodes.specs.Operations.{operation_of};
ghost use Rattle.co_meaning.specs.Library as library;

use crate::atomics::on_atomic;
use crate::calls::of_library;
use crate::handles::on_handle;
use co_base::{NoMemory, Span};
use co_eval_data::{Change, Given, Here};
use co_eval_nodes::Operation;

/// The operands of an act of the library are there, the last first.
pub fn operate<'u>(
    here: &Here<'_, 'u>,
    operation: Operation,
    operands: &[Given],
    at: Span,
) -> Result<Option<Change<'u>>, NoMemory>
    requires { IsTabled here.now.program.now }
    ensures { IfOk result (λ c. after c (local_of here.now) ≡ library.operate (operation_of operation) (map given_of operands.now) at (local_of here.now)) }
{
    match operation {
        Operation::OnHandle(op) => on_handle(here, op, operands, at),
        Operation::OnAtomic(op) => on_atomic(here, op, operands, at),
        Operation::OfLibrary(op) => of_library(here, op, operands, at),
    }
}
