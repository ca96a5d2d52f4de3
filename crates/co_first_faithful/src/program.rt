ghost use Rattle.std.specs.Prelude.{IfOk};
ghost use Rattle.co_first_tree.specs.Form.{IsFormed};
ghost use Rattle.co_first_faithful.specs.Faithful.{Ran};

use co_base::NoMemory;
use co_first_exec::{Local, run};
use co_first_gen::generate;
use co_first_tree::Program;
use std::alloc::Global;

/// Makes the code of a program and runs it to its stop, by at most `budget` instructions.
/// What is answered holds the prints, the stop and the count of the run.
pub fn run_program(alloc: Global, program: &Program, budget: u64) -> Result<Local, NoMemory>
    requires { IsFormed program.now }
    ensures { IfOk result (λ local. Ran program.now budget local) }
{
    let image = generate(alloc, program)?;
    let mut local = Local::new(alloc, program.names.len() as u32, budget)?;
    run(&image, &mut local);
    Ok(local)
}
