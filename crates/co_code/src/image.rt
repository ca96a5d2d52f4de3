use crate::instr::Instr;
use co_base::{CatchOf, Span, Text};
use sqlite_items::Items;

/// What a row of a function does: it ends objects, it ends the search as a noexcept border, or it is a handler.
#[derive(Clone, Copy)]
pub enum RowKind {
    Cleanup,
    Border,
    Catch(CatchOf),
}

/// A row holds for the instructions from `from` to below `to`. Its code is at `place`, where the function has pushed
/// `height` words. `parked` tells that its entry is parked there.
#[derive(Clone, Copy)]
pub struct RowCode {
    pub from: u32,
    pub to: u32,
    pub place: u32,
    pub height: u32,
    pub parked: bool,
    pub kind: RowKind,
}

/// A function: its first instruction, the words of its frame, its rows, innermost first.
#[derive(Drop)]
pub struct FuncCode {
    pub name: Text,
    pub entry: u32,
    pub words: u32,
    pub coroutine: bool,
    pub noexcept: bool,
    pub rows: Items<RowCode>,
}

/// A suspension point: where a resume and where a destroy go on. They are the same place at a final suspend point alone.
#[derive(Clone, Copy)]
pub struct PointCode {
    pub resume: u32,
    pub cleanup: u32,
}

/// A program's code. `spans` has one entry per instruction; `main` is the number of the function that worker 0 begins in.
/// The points are numbered through the functions in order, and within a function by its own numbers.
#[derive(Drop)]
pub struct Image {
    pub code: Items<Instr>,
    pub funcs: Items<FuncCode>,
    pub points: Items<PointCode>,
    pub texts: Items<Text>,
    pub globals: Items<u64>,
    pub spans: Items<Span>,
    pub main: u32,
}
