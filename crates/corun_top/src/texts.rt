//! The lines that a call writes.

ghost use Rattle.std.specs.Prelude.{◌≡◌, ◌+◌, ◌≤◌, ◌++◌, length};
ghost use Rattle.corun_top.specs.Texts.{code_name, count_text, end_text, limit_name, place_text, print_text, refusal_text, thrown_text, undef_name, which_name};

use crate::end::End;
use crate::line::Line;
use crate::status::{Refusal, Status, Which};
use co_base::{Counts, Limit, Span, Thrown, Undef};

/// The line of a print.
pub fn print_line(value: i64) -> Line
    ensures { result ≡ print_text value }
{
    let mut line = Line::new();
    line.push_signed(value);
    line.push("\n");
    line
}

/// The line of a run's end.
pub fn end_line(end: End) -> Line
    ensures { result ≡ end_text end }
{
    let mut line = Line::new();
    match end {
        End::Main(value) => {
            line.push("end main ");
            line.push_signed(i64::from(value));
        }
        End::Undefined(kind, span) => {
            line.push("end undefined ");
            line.push(undef_word(kind));
            line.push(" ");
            push_place(&mut line, span);
        }
        End::Uncaught(value) => {
            line.push("end uncaught ");
            push_thrown(&mut line, value);
        }
        End::Budget(worker) => {
            line.push("end budget ");
            line.push_unsigned(u64::from(worker));
        }
        End::Limit(limit) => {
            line.push("end limit ");
            line.push(limit_word(limit));
        }
    }
    line.push("\n");
    line
}

/// The line of a run's counts.
pub fn count_line(counts: &Counts) -> Line
    ensures { result ≡ count_text counts.now }
{
    let mut line = Line::new();
    line.push("count instructions ");
    line.push_unsigned(counts.instructions);
    line.push(" frames ");
    line.push_unsigned(counts.frames_made);
    line.push(" ended ");
    line.push_unsigned(counts.frames_ended);
    line.push(" born ");
    line.push_unsigned(counts.born);
    line.push(" died ");
    line.push_unsigned(counts.died);
    line.push("\n");
    line
}

/// The line of an answer without a run, and no bytes where that answer writes nothing.
pub fn refusal_line(status: Status) -> Line
    ensures { result ≡ refusal_text status }
{
    let mut line = Line::new();
    match status {
        Status::Refused(refusal, span) => {
            line.push("refused ");
            line.push(code_word(refusal));
            line.push(" ");
            push_place(&mut line, span);
            line.push("\n");
        }
        Status::Words(index) => {
            line.push("words ");
            line.push_unsigned(u64::from(index));
            line.push("\n");
        }
        Status::FileFault => line.push("file fault\n"),
        Status::TooLarge(which) => {
            line.push("too large ");
            line.push(which_word(which));
            line.push("\n");
        }
        Status::BadInput(which, number) => {
            line.push("bad ");
            line.push(which_word(which));
            line.push(" ");
            line.push_unsigned(u64::from(number));
            line.push("\n");
        }
        Status::Finished(_)
        | Status::Undefined(_, _)
        | Status::Uncaught(_)
        | Status::Budget(_)
        | Status::Limit(_)
        | Status::SinkFault
        | Status::NoMemory => {}
    }
    line
}

fn push_place(line: &mut Line, span: Span)
    requires { length line.old + 41 ≤ 160 }
    ensures text { line.new ≡ line.old ++ place_text span }
    ensures short { length line.new ≤ length line.old + 41 }
{
    line.push_unsigned(u64::from(span.line));
    line.push(":");
    line.push_unsigned(u64::from(span.col));
}

fn push_thrown(line: &mut Line, value: Thrown)
    requires { length line.old + 25 ≤ 160 }
    ensures text { line.new ≡ line.old ++ thrown_text value }
    ensures short { length line.new ≤ length line.old + 25 }
{
    match value {
        Thrown::Int(number) => {
            line.push("int ");
            line.push_signed(number);
        }
        Thrown::Long(number) => {
            line.push("long ");
            line.push_signed(number);
        }
        Thrown::Bool(false) => line.push("bool 0"),
        Thrown::Bool(true) => line.push("bool 1"),
        Thrown::Class(_, _, _, _) | Thrown::None => line.push("none"),
    }
}

fn undef_word(kind: Undef) -> &'static str
    ensures text { result.now ≡ undef_name kind }
    ensures short { length result.now ≤ 3 }
{
    match kind {
        Undef::U1 => "U1",
        Undef::U2 => "U2",
        Undef::U3 => "U3",
        Undef::U4 => "U4",
        Undef::U5 => "U5",
        Undef::U6 => "U6",
        Undef::U7 => "U7",
        Undef::U8 => "U8",
        Undef::U9 => "U9",
        Undef::U10 => "U10",
        Undef::U11 => "U11",
        Undef::U12 => "U12",
    }
}

fn limit_word(limit: Limit) -> &'static str
    ensures text { result.now ≡ limit_name limit }
    ensures short { length result.now ≤ 7 }
{
    match limit {
        Limit::Store => "store",
        Limit::Control => "control",
        Limit::Board => "board",
        Limit::Prints => "prints",
        Limit::Stack => "stack",
        Limit::Handled => "handled",
    }
}

fn which_word(which: Which) -> &'static str
    ensures text { result.now ≡ which_name which }
    ensures short { length result.now ≤ 6 }
{
    match which {
        Which::Source => "source",
        Which::Input => "input",
        Which::Order => "order",
    }
}

fn code_word(refusal: Refusal) -> &'static str
    ensures text { result.now ≡ code_name refusal }
    ensures short { length result.now ≤ 3 }
{
    match refusal {
        Refusal::L1 => "L1",
        Refusal::L2 => "L2",
        Refusal::L3 => "L3",
        Refusal::L4 => "L4",
        Refusal::S1 => "S1",
        Refusal::Q1 => "Q1",
        Refusal::N1 => "N1",
        Refusal::N2 => "N2",
        Refusal::T1 => "T1",
        Refusal::T2 => "T2",
        Refusal::T3 => "T3",
        Refusal::C1 => "C1",
        Refusal::C2 => "C2",
        Refusal::C3 => "C3",
        Refusal::C4 => "C4",
        Refusal::C5 => "C5",
        Refusal::C6 => "C6",
        Refusal::C7 => "C7",
        Refusal::C8 => "C8",
        Refusal::C9 => "C9",
        Refusal::C10 => "C10",
        Refusal::C11 => "C11",
        Refusal::C12 => "C12",
        Refusal::O1 => "O1",
        Refusal::Q2 => "Q2",
        Refusal::Q3 => "Q3",
        Refusal::Q4 => "Q4",
    }
}
