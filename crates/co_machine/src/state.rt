use crate::limits::Limits;
use crate::prints::Prints;
use crate::stack::Stack;
use crate::stop::StopKind;
use co_words::Blocks;

/// The four registers. As an exception, a tells its type: 0 null, 1 `int`, 2 `long`, 3 `bool`, from 4 on the classes
/// by number; b, c and d are its members.
#[derive(Clone, Copy)]
pub struct Registers {
    pub a: u64,
    pub b: u64,
    pub c: u64,
    pub d: u64,
}

/// What is under way in an activation: nothing, an exception, or an exit to a place with the registers kept for it.
#[derive(Clone, Copy)]
pub enum Going {
    Nothing,
    Exception(Registers),
    Exit(u32, Registers),
}

/// A control entry: one activation of a worker.
///
/// A return goes on at `return_to` with these fp and sp. `base` is sp where the activation has pushed nothing, `result`
/// where its result is to be made, `serial` how often its coroutine was suspended. A parked entry has the place of its
/// frame and the state word stored there; `word` is 0 in others. The search under way began at `origin`, and `row` is
/// the first row that it has not tried.
#[derive(Clone, Copy)]
pub struct Entry {
    pub return_to: u32,
    pub return_fp: u64,
    pub return_sp: u64,
    pub base: u64,
    pub result: u64,
    pub serial: u64,
    pub place: u64,
    pub word: u64,
    pub going: Going,
    pub origin: u32,
    pub row: u64,
}

/// The kind of turn that is due next.
#[derive(Clone, Copy)]
pub enum Next {
    Instruction,
    LookStop,
    LookMain,
    LookCell,
    Taken,
    /// A stop was met: its stamp is to be drawn.
    Stamp(StopKind),
    /// A stop with its stamp: the run is to be stopped.
    Halt(u64, StopKind),
    /// The worker has stopped, with this stamp.
    Stopped(u64, StopKind),
    /// The worker has seen another's stop.
    Seen,
}

/// What a worker has counted: `since` counts the instructions since its last load of word 2.
#[derive(Clone, Copy)]
pub struct Tally {
    pub instructions: u64,
    pub since: u64,
    pub idles: u64,
    pub frames_made: u64,
    pub frames_ended: u64,
    pub born: u64,
    pub died: u64,
}

/// What the turns of a worker change, but for its counts.
///
/// `top` is the newest control entry and `below` the others. `stack` and `stack_end` bound the worker's stack. `look` and
/// `post` are the cells at which the next look and post begin, `tried` how many cells the post under way found full,
/// `taken` the handle that was taken, `zeros` how many cells the look under way found empty, `seen_main` word 5 as that
/// look found it.
#[derive(Drop)]
pub struct Control {
    pub pc: u32,
    pub fp: u64,
    pub sp: u64,
    pub registers: Registers,
    pub stack: u64,
    pub stack_end: u64,
    pub top: Entry,
    pub below: Stack<Entry>,
    pub handled: Stack<Registers>,
    pub prints: Prints,
    pub spare: Blocks,
    pub look: u16,
    pub post: u16,
    pub tried: u16,
    pub taken: u64,
    pub zeros: u16,
    pub seen_main: u64,
    pub main_value: Option<i32>,
    pub next: Next,
}

/// The state of a worker.
#[derive(Drop)]
pub struct State {
    pub limits: Limits,
    pub worker: u32,
    pub tally: Tally,
    pub control: Control,
}
