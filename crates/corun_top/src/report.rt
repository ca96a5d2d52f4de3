//! Writing an answer: first to `out`, then to `err`, and nothing after a failed write.

ghost use Rattle.std.specs.Prelude.{◌≡◌, [], ◌++◌, flat_map, OnOk, OnErr};
ghost use Rattle.co_base.specs.Outside.{HasRisen, Takes, TakesFront};
ghost use Rattle.corun_top.specs.Texts.{count_text, end_text, print_text, refusal_text, run_text, status_of};
ghost use Rattle.corun_top.specs.Written.{Broke, Gained, IsWritten};

use crate::end::End;
use crate::line::Line;
use crate::status::Status;
use crate::texts::{count_line, end_line, print_line, refusal_line};
use co_base::{Counts, Failed, Sink, offer_all};

/// Writes what a run has printed and how it ended to `out`, and then its counts to `err`.
pub fn report_run<O: Sink, E: Sink>(
    prints: &[i64],
    end: End,
    counts: &Counts,
    out: &mut O,
    err: &mut E,
) -> Status
    ensures { IsWritten (status_of end) (run_text prints.now end) (count_text counts.now)
        (record { taken = O.taken out.old; faults = O.faults out.old }) (record { taken = O.taken out.new; faults = O.faults out.new })
        (record { taken = E.taken err.old; faults = E.faults err.old }) (record { taken = E.taken err.new; faults = E.faults err.new }) result }
{
    if write_run(prints, end, out).is_err() {
        return Status::SinkFault;
    }
    if offer(err, &count_line(counts)).is_err() {
        return Status::SinkFault;
    }
    end.status()
}

/// Writes the one line of an answer without a run to `err`.
pub fn report_refusal<O: Sink, E: Sink>(status: Status, out: &mut O, err: &mut E) -> Status
    ensures { IsWritten status [] (refusal_text status)
        (record { taken = O.taken out.old; faults = O.faults out.old }) (record { taken = O.taken out.new; faults = O.faults out.new })
        (record { taken = E.taken err.old; faults = E.faults err.old }) (record { taken = E.taken err.new; faults = E.faults err.new }) result }
{
    if offer(err, &refusal_line(status)).is_err() {
        return Status::SinkFault;
    }
    status
}

// Each print as one line, and then the end.
fn write_run<O: Sink>(prints: &[i64], end: End, out: &mut O) -> Result<(), Failed>
    ensures ok { OnOk result (Gained (run_text prints.now end)
        (record { taken = O.taken out.old; faults = O.faults out.old }) (record { taken = O.taken out.new; faults = O.faults out.new })) }
    ensures failed { OnErr result (Broke (run_text prints.now end)
        (record { taken = O.taken out.old; faults = O.faults out.old }) (record { taken = O.taken out.new; faults = O.faults out.new })) }
{
    write_prints(prints, out)?;
    offer(out, &end_line(end))
}

// Each print as one line.
fn write_prints<O: Sink>(prints: &[i64], out: &mut O) -> Result<(), Failed>
    ensures ok { OnOk result (Gained (flat_map print_text prints.now)
        (record { taken = O.taken out.old; faults = O.faults out.old }) (record { taken = O.taken out.new; faults = O.faults out.new })) }
    ensures failed { OnErr result (Broke (flat_map print_text prints.now)
        (record { taken = O.taken out.old; faults = O.faults out.old }) (record { taken = O.taken out.new; faults = O.faults out.new })) }
{
    for value in prints {
        offer(out, &print_line(*value))?;
    }
    Ok(())
}

// The line as one piece, and what wasn't taken again.
fn offer<S: Sink>(sink: &mut S, line: &Line) -> Result<(), Failed>
    ensures ok { OnOk result (Gained line.now
        (record { taken = S.taken sink.old; faults = S.faults sink.old }) (record { taken = S.taken sink.new; faults = S.faults sink.new })) }
    ensures failed { OnErr result (Broke line.now
        (record { taken = S.taken sink.old; faults = S.faults sink.old }) (record { taken = S.taken sink.new; faults = S.faults sink.new })) }
{
    offer_all(sink, line.as_bytes())
}
