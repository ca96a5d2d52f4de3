ghost use Rattle.std.specs.Prelude.{◌≡◌, map};
ghost use Rattle.std.specs.String.{string_bytes};
ghost use Rattle.corun_top.specs.declared.answer.Answer.{Answer};
ghost use Rattle.corun_top.specs.Answers.{Answers, err_text, out_text, status_of_answer};
ghost use Rattle.corun_top.specs.Written.{IsWritten};

use crate::answer::{Answer, answer_words, run_counts, run_end};
use crate::report::{report_refusal, report_run};
use crate::status::Status;
use co_base::{Files, Gate, Sink};
use std::alloc::Global;
use std::thread::Threads;

/// Carries out the command words: reads what they name from `files`, writes to `out` and then to `err`, and answers how it ended.
/// The one command is `run FILE`, which compiles and runs a file of the first form (`docs/LANGUAGE.md`).
/// The gate and the runtime are handed in for runs on threads, and are not used yet.
///
/// The clause `answer` says: there is an answer that the words and the told files determine (`Answers`), whose texts were written
/// whole, or a write failed, and nothing was written after it (`IsWritten`).
pub fn corun<R: Threads + Sync, F: Files, O: Sink, E: Sink, G: Gate + Sync>(
    _rt: &R,
    alloc: Global,
    words: &[String],
    files: &mut F,
    out: &mut O,
    err: &mut E,
    _gate: &G,
) -> Status
    ensures answer { (answer : Answer) × Answers (map string_bytes words.now) (F.told files.old) (F.faults files.old) (F.faults files.new) answer
        × IsWritten (status_of_answer answer) (out_text answer) (err_text answer)
        (record { taken = O.taken out.old; faults = O.faults out.old }) (record { taken = O.taken out.new; faults = O.faults out.new })
        (record { taken = E.taken err.old; faults = E.faults err.old }) (record { taken = E.taken err.new; faults = E.faults err.new }) result }
    ensures files { F.told files.new ≡ F.told files.old }
{
    match answer_words(alloc, words, files) {
        Answer::Ran(local) => {
            let end = run_end(local.stop());
            report_run(local.prints(), end, &run_counts(&local), out, err)
        }
        Answer::Says(status) => report_refusal(status, out, err),
    }
}
