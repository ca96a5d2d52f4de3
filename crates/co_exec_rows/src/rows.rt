ghost use Rattle.std.specs.Prelude.{◌≡◌, ◌<◌, ◌+◌, ◌^◌, IfSome, []};
ghost use Rattle.co_machine.specs.Rows as rows;

use crate::change::meet;
use crate::values::{catches, thrown_of};
use co_base::{Span, Undef};
use co_code::{FuncCode, RowCode, RowKind};
use co_machine::{Control, Entry, Found, Going, Registers, StopKind};

/// Where a return goes that has no caller: back to looking.
pub const POOL: u32 = 4294967295;

// The rows of the last function that begins at `pc` or before.
fn rows_at(funcs: &[FuncCode], pc: u32) -> &[RowCode]
    ensures { result.now ≡ rows.rows_at funcs.now pc [] }
{
    let mut found: &[RowCode] = &[];
    for f in funcs {
        if f.entry <= pc {
            found = f.rows.as_slice();
        }
    }
    found
}

fn fits_entry(kind: RowKind, parked: bool, word: u64) -> bool
    ensures { result ≡ rows.fits_entry kind parked word }
{
    match kind {
        RowKind::Border => true,
        RowKind::Cleanup | RowKind::Catch(_) => { if word == 0 { !parked } else { parked } }
    }
}

fn stops_at(row: &RowCode, going: Going) -> bool
    ensures { result ≡ rows.stops_at row.now.kind row.now going }
{
    match going {
        Going::Nothing => false,
        Going::Exception(v) => match row.kind {
            RowKind::Cleanup | RowKind::Border => true,
            RowKind::Catch(of) => catches(of, v),
        },
        Going::Exit(place, _) => match row.kind {
            RowKind::Cleanup => !(row.from <= place && place <= row.to),
            RowKind::Border | RowKind::Catch(_) => false,
        },
    }
}

// Whether the row, which has this number, is one for the search of the entry.
fn holds_for(e: &Entry, number: u64, row: &RowCode) -> bool
    ensures { result ≡ rows.holds_for e.now number row.now }
{
    if number < e.row {
        return false;
    }
    if e.origin < row.from {
        return false;
    }
    if row.to <= e.origin {
        return false;
    }
    if !fits_entry(row.kind, row.parked, e.word) {
        return false;
    }
    stops_at(row, e.going)
}

// The first row for the search of the entry.
fn first_row(list: &[RowCode], e: &Entry) -> Option<Found>
    ensures value { result ≡ rows.first_row list.now 0 e.now }
    ensures room { IfSome result (λ f. f.number + 1 < 2 ^ 64) }
{
    for (number, row) in list.iter().enumerate() {
        if holds_for(e, number as u64, row) {
            return Some(Found {
                number: number as u64,
                row: *row,
            });
        }
    }
    None
}

fn found_for(funcs: &[FuncCode], e: &Entry) -> Option<Found>
    ensures value { result ≡ rows.found_for funcs.now e.now }
    ensures room { IfSome result (λ f. f.number + 1 < 2 ^ 64) }
{
    first_row(rows_at(funcs, e.origin), e)
}

// To the code of the row; the search goes on from the next one.
fn land(f: Found, k: &mut Control)
    requires { f.number + 1 < 2 ^ 64 }
    ensures { k.new ≡ rows.landed f k.old }
{
    k.top.row = f.number + 1;
    k.pc = f.row.place;
    k.sp = k.top.base.wrapping_add(f.row.height as u64);
}

fn end_uncaught(v: Registers, k: &mut Control)
    ensures { k.new ≡ rows.uncaught v k.old }
{
    meet(StopKind::Uncaught(thrown_of(v)), k);
}

fn reach(v: Registers, f: Found, k: &mut Control)
    requires { f.number + 1 < 2 ^ 64 }
    ensures { k.new ≡ rows.reached f.row.kind v f k.old }
{
    match f.row.kind {
        RowKind::Border => end_uncaught(v, k),
        RowKind::Cleanup | RowKind::Catch(_) => land(f, k),
    }
}

// The exception leaves the newest activation for its caller.
fn leave_for(v: Registers, e: Entry, k: &mut Control)
    ensures { k.new ≡ rows.left_for v e k.old.below k.old }
{
    let from = k.top;
    k.top = Entry {
        going: Going::Exception(v),
        origin: from.return_to.saturating_sub(1),
        row: 0,
        ..e
    };
    k.fp = from.return_fp;
    k.sp = from.return_sp;
}

// An exception goes to the first row that takes it, in the newest activation that has one.
fn raise(funcs: &[FuncCode], v: Registers, k: &mut Control)
    ensures { k.new ≡ rows.raised funcs.now v k.old.below k.old }
{
    loop {
        if let Some(f) = found_for(funcs, &k.top) {
            return reach(v, f, k);
        }
        if k.top.return_to == POOL {
            return end_uncaught(v, k);
        }
        match k.below.pop() {
            None => return end_uncaught(v, k),
            Some(e) => leave_for(v, e, k),
        }
    }
}

// An exit goes to the first cleanup that it leaves, and else to its place.
fn exit(funcs: &[FuncCode], place: u32, r: Registers, k: &mut Control)
    ensures { k.new ≡ rows.exited (rows.found_for funcs.now k.old.top) place r k.old }
{
    match found_for(funcs, &k.top) {
        Some(f) => land(f, k),
        None => {
            k.top.going = Going::Nothing;
            k.pc = place;
            k.registers = r;
            k.sp = k.top.base;
        }
    }
}

/// The search goes on. `at` is the span of the instruction.
pub fn search(funcs: &[FuncCode], at: Span, k: &mut Control)
    ensures { k.new ≡ rows.searched k.old.top.going funcs.now at k.old }
{
    match k.top.going {
        Going::Nothing => meet(StopKind::Undefined(Undef::U12, at), k),
        Going::Exception(v) => raise(funcs, v, k),
        Going::Exit(place, r) => exit(funcs, place, r, k),
    }
}

/// The search begins at the instruction that is made.
pub fn begin(going: Going, funcs: &[FuncCode], at: Span, k: &mut Control)
    ensures { k.new ≡ rows.begun going funcs.now at k.old }
{
    k.top.going = going;
    k.top.origin = k.pc;
    k.top.row = 0;
    search(funcs, at, k);
}
