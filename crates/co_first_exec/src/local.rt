ghost use Rattle.std.specs.Prelude.{◌≡◌, IfOk};
ghost use Rattle.co_first_exec.specs.Opening.{opening, stack_words};

use crate::instr::Stop;
use crate::prints::Prints;
use crate::words::Words;
use co_base::NoMemory;
use std::alloc::Global;

/// The state of a run: its place in the code, registers, words, prints and counts.
/// All the memory that a run needs is taken when it is made.
#[derive(Debug, Drop)]
pub struct Local {
    pub(crate) place: u64,
    pub(crate) a: u64,
    pub(crate) b: u64,
    pub(crate) fp: u32,
    pub(crate) sp: u64,
    pub(crate) made: u64,
    pub(crate) budget: u64,
    pub(crate) stop: Stop,
    pub(crate) words: Words,
    pub(crate) prints: Prints,
}

impl Local {
    /// The state in which a run begins: at place 0, with this many slots, each 0, and a budget of instructions.
    pub fn new(alloc: Global, slots: u32, budget: u64) -> Result<Local, NoMemory>
        ensures { IfOk result (λ local. local ≡ opening slots budget) }
    {
        let words = Words::new(alloc, stack_words())?;
        let prints = Prints::new(alloc)?;
        Ok(Local {
            place: 0,
            a: 0,
            b: 0,
            fp: 0,
            sp: slots as u64,
            made: 0,
            budget,
            stop: Stop::Running,
            words,
            prints,
        })
    }

    /// The numbers printed so far, the oldest first.
    pub fn prints(&self) -> &[i64]
        ensures { result.now ≡ self.now.prints }
    {
        self.prints.as_slice()
    }

    /// What ended the run, or `Running`.
    pub fn stop(&self) -> Stop
        ensures { result ≡ self.now.stop }
    {
        self.stop
    }

    /// The number of instructions made so far.
    pub fn made(&self) -> u64
        ensures { result ≡ self.now.made }
    {
        self.made
    }
}

// How many words one worker's stack has.
fn stack_words() -> usize
    ensures { result ≡ stack_words }
{
    16384
}
