ghost use Rattle.std.specs.Prelude.{◌≡◌, ◌<◌, ◌≤◌, IfOk, slice_get, length, min};
ghost use Rattle.co_machine.specs.Ready.{IsInRange};
ghost use Rattle.co_machine.specs.Turn as turn;

use co_base::{Counts, NoMemory, Print};
use co_code::Image;
use co_exec_rows::entries::base_entry;
use co_machine::{Control, Limits, Next, Prints, Registers, Stack, State, StopKind, Tally};
use co_words::Blocks;
use std::alloc::Global;
use std::marker::Model;

/// The state of one worker. All memory that its run needs is taken when it is made. Contracts see the state.
#[derive(Drop)]
pub struct Local {
    pub(crate) state: State,
}

impl Model for Local {
    ghost use Rattle.co_machine.specs.declared.state.State.{State};

    ghost Value = { State };

    ghost use Rattle.co_machine.specs.Ready.{IsSteady};

    ghost view = { λ l. l.state };

    ghost invariant = { λ l. IsSteady l.state.limits l.state.tally };
}

// The first word of a worker's stack.
fn stack_of(image: &Image, worker: u32) -> u64
    ensures { result ≡ turn.stack_of image.now worker }
{
    let globals = image.globals.len() as u64;
    65552u64
        .wrapping_add(globals)
        .wrapping_add(16384 * worker as u64)
}

// A worker to which nothing has happened: a look is due.
fn blank(alloc: Global, at: u64) -> Result<Control, NoMemory>
    ensures { IfOk result (λ k. k ≡ turn.blank at) }
{
    let below = Stack::new(alloc)?;
    let handled = Stack::new(alloc)?;
    let prints = Prints::new(alloc)?;
    let spare = Blocks::new(alloc)?;
    Ok(Control {
        pc: 0,
        fp: at,
        sp: at,
        registers: Registers {
            a: 0,
            b: 0,
            c: 0,
            d: 0,
        },
        stack: at,
        stack_end: at.wrapping_add(16384),
        top: base_entry(at),
        below,
        handled,
        prints,
        spare,
        look: 0,
        post: 0,
        tried: 0,
        taken: 0,
        zeros: 0,
        seen_main: 0,
        main_value: None,
        next: Next::LookStop,
    })
}

// The entry of `main`, or a place behind the code, and the words of its frame, if its stack has room for them.
fn main_of(image: &Image) -> (u32, u64)
    ensures entry { result.0 ≡ turn.entry_of (slice_get image.now.funcs image.now.main) (min (length image.now.code) 4294967295) }
    ensures words { result.1 ≡ turn.words_of (slice_get image.now.funcs image.now.main) }
{
    match image.funcs.get(image.main as usize) {
        None => (image.code.len().min(4294967295) as u32, 0),
        Some(f) => {
            if f.words <= 16384 {
                (f.entry, f.words as u64)
            } else {
                (f.entry, 0)
            }
        }
    }
}

// Worker 0 begins in `main`.
fn begin_main(image: &Image, k: &mut Control)
    ensures { k.new ≡ turn.begins_main image.now (slice_get image.now.funcs image.now.main) k.old }
{
    let (entry, words) = main_of(image);
    let sp = k.fp.wrapping_add(words);
    k.pc = entry;
    k.sp = sp;
    k.top.base = sp;
    k.next = Next::Instruction;
}

fn fresh_control(alloc: Global, image: &Image, worker: u32) -> Result<Control, NoMemory>
    ensures { IfOk result (λ k. k ≡ turn.begins image.now worker (turn.blank (turn.stack_of image.now worker))) }
{
    let mut k = blank(alloc, stack_of(image, worker))?;
    if worker == 0 {
        begin_main(image, &mut k);
    }
    Ok(k)
}

impl Local {
    /// The state in which a worker of these limits begins: worker 0 in `main`, the others with a look.
    pub fn new(
        alloc: Global,
        image: &Image,
        limits: &Limits,
        worker: u32,
    ) -> Result<Local, NoMemory>
        requires limits { IsInRange limits.now }
        requires worker { worker < limits.now.workers }
        ensures { IfOk result (λ l. l ≡ turn.fresh image.now limits.now worker) }
    {
        let control = fresh_control(alloc, image, worker)?;
        let tally = Tally {
            instructions: 0,
            since: 0,
            idles: 0,
            frames_made: 0,
            frames_ended: 0,
            born: 0,
            died: 0,
        };
        let state = State {
            limits: *limits,
            worker,
            tally,
            control,
        };
        Ok(Local { state })
    }

    /// The place of the instruction that is due next; None where the turn that is due is of another kind, or a stop
    /// was answered.
    pub fn next(&self) -> Option<u32>
        ensures { result ≡ turn.next_of self.now }
    {
        match self.state.control.next {
            Next::Instruction => {
                if self.state.tally.since < 1024 {
                    Some(self.state.control.pc)
                } else {
                    None
                }
            }
            Next::LookStop => None,
            Next::LookMain => None,
            Next::LookCell => None,
            Next::Taken => None,
            Next::Stamp(_) => None,
            Next::Halt(_, _) => None,
            Next::Stopped(_, _) => None,
            Next::Seen => None,
        }
    }

    /// After an Idle, whether the worker leaves: worker 0 does, another where its look found that `main` has returned,
    /// or at its 16,384th Idle.
    pub fn leaves(&self) -> bool
        ensures { result ≡ turn.leaves self.now }
    {
        if self.state.worker == 0 {
            return true;
        }
        if self.state.control.seen_main == 1 {
            return true;
        }
        self.state.tally.idles >= 16384
    }

    /// The prints with their stamps, the oldest first.
    pub fn prints(&self) -> &[(u64, Print)]
        ensures { result.now ≡ self.now.control.prints }
    {
        self.state.control.prints.as_slice()
    }

    /// The stop with its stamp; None where this worker has drawn no stamp for a stop.
    pub fn stop(&self) -> Option<(u64, StopKind)>
        ensures { result ≡ turn.stop_of self.now.control.next }
    {
        match self.state.control.next {
            Next::Halt(stamp, kind) => Some((stamp, kind)),
            Next::Stopped(stamp, kind) => Some((stamp, kind)),
            Next::Instruction => None,
            Next::LookStop => None,
            Next::LookMain => None,
            Next::LookCell => None,
            Next::Taken => None,
            Next::Stamp(_) => None,
            Next::Seen => None,
        }
    }

    /// The value of `main`; None where this worker has not returned from it.
    pub fn main_value(&self) -> Option<i32>
        ensures { result ≡ self.now.control.main_value }
    {
        self.state.control.main_value
    }

    /// The counts of instructions, frames made and ended, objects born and died.
    pub fn counts(&self) -> Counts
        ensures { result ≡ turn.counts_of self.now.tally }
    {
        Counts {
            instructions: self.state.tally.instructions,
            frames_made: self.state.tally.frames_made,
            frames_ended: self.state.tally.frames_ended,
            born: self.state.tally.born,
            died: self.state.tally.died,
        }
    }

    /// The number of the worker.
    pub fn worker(&self) -> u32
        ensures { result ≡ self.now.worker }
    {
        self.state.worker
    }
}
