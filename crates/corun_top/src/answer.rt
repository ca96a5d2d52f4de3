//! From the command words and the file's bytes to what the call answers, before anything is written.

ghost use Rattle.std.specs.Prelude.{◌≡◌, ◌≢◌, map};
ghost use Rattle.std.specs.String.{string_bytes};
ghost use Rattle.co_first_exec.specs.declared.instr.Stop.TheVariants.{Running};
ghost use Rattle.corun_top.specs.Answers.{Answers, AnswersBytes, counts_of, end_of};

use crate::end::End;
use crate::status::{Refusal, Status};
use crate::words::first_bad;
use co_base::{Counts, Files, ReadFault, Span, read_all};
use co_first_exec::{Local, Stop};
use co_first_faithful::run_program;
use co_first_parse::{ParseFault, parse};
use std::alloc::Global;

// A file may have 1,048,576 bytes: one more is read, and what has it is no file of the form.
const MOST_READ: usize = 1_048_577;

/// How many instructions a worker may make.
pub const BUDGET: u64 = 100_000_000;

/// What a call answers.
#[derive(Drop)]
pub enum Answer {
    /// A run, by its state at its end.
    Ran(Local),
    /// No run, and why.
    Says(Status),
}

/// What the words and the files answer.
pub fn answer_words<F: Files>(alloc: Global, words: &[String], files: &mut F) -> Answer
    ensures answer { Answers (map string_bytes words.now) (F.told files.old) (F.faults files.old) (F.faults files.new) result }
    ensures files { F.told files.new ≡ F.told files.old }
{
    if let Some(index) = first_bad(words) {
        return Answer::Says(Status::Words(index));
    }
    let [_, file] = words else { unreachable!() };
    match read_all(alloc, files, file.as_str(), MOST_READ) {
        Ok(bytes) => answer_bytes(alloc, &bytes),
        Err(ReadFault::Failed) => Answer::Says(Status::FileFault),
        Err(ReadFault::NoMemory) => Answer::Says(Status::NoMemory),
    }
}

// What the bytes of a file answer.
fn answer_bytes(alloc: Global, bytes: &[u8]) -> Answer
    ensures { AnswersBytes bytes.now result }
{
    let program = match parse(alloc, bytes) {
        Ok(program) => program,
        Err(ParseFault::Syntax) => return Answer::Says(Status::Refused(Refusal::S1, START)),
        Err(ParseFault::NoMemory) => return Answer::Says(Status::NoMemory),
    };
    match run_program(alloc, &program, BUDGET) {
        Ok(local) => Answer::Ran(local),
        Err(_) => Answer::Says(Status::NoMemory),
    }
}

const START: Span = Span { line: 1, col: 1 };

/// How a run that has stopped has ended.
pub fn run_end(stop: Stop) -> End
    requires { stop ≢ Running }
    ensures { result ≡ end_of stop }
{
    match stop {
        Stop::Running => unreachable!(),
        Stop::Main(value) => End::Main(value),
        Stop::Undefined(kind, span) => End::Undefined(kind, span),
        Stop::Budget => End::Budget(0),
        Stop::Limit(limit) => End::Limit(limit),
    }
}

/// What a run has counted. No coroutine and no object of a class is in the form.
pub fn run_counts(local: &Local) -> Counts
    ensures { result ≡ counts_of local.now }
{
    Counts {
        instructions: local.made(),
        frames_made: 0,
        frames_ended: 0,
        born: 0,
        died: 0,
    }
}
