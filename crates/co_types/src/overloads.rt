ghost use Rattle.std.specs.Prelude.{◌≡◌, ◌<◌, ◌^◌, length, IsTrue, IsFalse};
ghost use Rattle.co_types.specs.Choosing as spec;
ghost use Rattle.co_types.specs.Choosing.{better_at, is_pointer_to_void, prefers, ranked_better, viable_at, BeatsAll, IsChoice, IsHeld};

use crate::classes::FuncInfo;
use crate::types::{CoType, Head, is_same};
use co_base::Num;

/// The value category of an argument [basic.lval].
#[derive(Clone, Copy, Debug, PartialEq, Eq)]
pub enum ArgKind {
    Lvalue,
    Xvalue,
    Prvalue,
}

/// An argument of a call: its type, which is no reference, and its value category.
#[derive(Debug, Drop)]
pub struct Arg {
    pub of: CoType,
    pub kind: ArgKind,
}

/// How an argument converts, the best first [over.ics.rank].
#[derive(Clone, Copy, Debug, PartialEq, Eq)]
pub enum Rank {
    /// The same type, or a reference bound to it.
    Exact,
    /// `bool` to `int` [conv.prom]
    Promotion,
    /// Between other integer types, a pointer to `void*`, `nullptr` to a pointer [conv.integral] [conv.ptr]
    Conversion,
    /// A pointer to `bool` [conv.bool]
    Truth,
    /// A handle to `std::coroutine_handle<>`, `nullptr` to a handle or to `std::exception_ptr`
    Library,
}

/// The candidate that a call chooses, by its number; none where no candidate is viable, several where none is best.
#[derive(Clone, Copy, Debug, PartialEq, Eq)]
pub enum Choice {
    One(u32),
    None,
    Several,
}

/// The candidate that a call with these arguments chooses [over.match.best]. It takes no memory.
pub fn choose(candidates: &[FuncInfo], args: &[Arg]) -> Choice
    requires { length candidates.now < 2 ^ 32 }
    ensures { IsChoice candidates.now args.now result }
{
    match last_better(candidates, args) {
        None => Choice::None,
        Some(best) => {
            if beats_all(candidates, args, best) {
                Choice::One(best as u32)
            } else {
                Choice::Several
            }
        }
    }
}

/// The rank with which an argument converts to a parameter of the type, or None where it doesn't.
pub fn conversion(arg: &Arg, to: &CoType) -> Option<Rank>
    ensures { result ≡ spec.conversion arg.now to.now }
{
    match to.head() {
        Head::Ref => match arg.kind {
            ArgKind::Lvalue => bound(arg, to),
            ArgKind::Xvalue | ArgKind::Prvalue => None,
        },
        Head::ConstRef => bound(arg, to),
        Head::RefRef => match arg.kind {
            ArgKind::Lvalue => None,
            ArgKind::Xvalue | ArgKind::Prvalue => bound(arg, to),
        },
        head => {
            if is_same(&arg.of, to) {
                Some(Rank::Exact)
            } else {
                by_value(arg.of.head(), head, to)
            }
        }
    }
}

fn bound(arg: &Arg, to: &CoType) -> Option<Rank>
    ensures { result ≡ spec.bound arg.now.of to.now }
{
    match to.target() {
        Some(of) => {
            if is_same(&arg.of, of) {
                Some(Rank::Exact)
            } else {
                None
            }
        }
        None => None,
    }
}

fn by_value(from: Head, head: Head, to: &CoType) -> Option<Rank>
    ensures { result ≡ spec.by_value from head to.now }
{
    match (from, head) {
        (Head::Num(Num::Bool), Head::Num(Num::Int)) => Some(Rank::Promotion),
        (Head::Num(_), Head::Num(_)) => Some(Rank::Conversion),
        (Head::Pointer, Head::Pointer) => {
            if points_to_void(to) {
                Some(Rank::Conversion)
            } else {
                None
            }
        }
        (Head::NullPtr, Head::Pointer) => Some(Rank::Conversion),
        (Head::Pointer, Head::Num(Num::Bool)) => Some(Rank::Truth),
        (Head::Handle(_), Head::Handle(None)) => Some(Rank::Library),
        (Head::NullPtr, Head::Handle(_)) => Some(Rank::Library),
        (Head::NullPtr, Head::ExceptionPtr) => Some(Rank::Library),
        _ => None,
    }
}

fn points_to_void(to: &CoType) -> bool
    ensures { result ≡ is_pointer_to_void to.now }
{
    match to.target() {
        Some(of) => match of.head() {
            Head::Void => true,
            _ => false,
        },
        None => false,
    }
}

fn is_viable(mut params: &[CoType], mut args: &[Arg]) -> bool
    ensures { result ≡ spec.is_viable params.entry.now args.entry.now }
{
    while let [param, next @ ..] = params {
        let [arg, more @ ..] = args else {
            return false;
        };
        if conversion(arg, param).is_none() {
            return false;
        }
        params = next;
        args = more;
    }
    args.is_empty()
}

fn order(rank: Rank) -> u8
    ensures { result ≡ spec.order rank }
{
    match rank {
        Rank::Exact => 0,
        Rank::Promotion => 1,
        Rank::Conversion => 2,
        Rank::Truth => 3,
        Rank::Library => 4,
    }
}

fn is_preferred(kind: ArgKind, own: Head, other: Head) -> bool
    ensures { result ≡ prefers kind own other }
{
    match (kind, own, other) {
        (ArgKind::Lvalue, Head::Ref, Head::ConstRef) => true,
        (ArgKind::Xvalue, Head::RefRef, Head::ConstRef) => true,
        (ArgKind::Prvalue, Head::RefRef, Head::ConstRef) => true,
        _ => false,
    }
}

fn is_ranked_better(own: Option<Rank>, other: Option<Rank>, preferred: bool) -> bool
    ensures { result ≡ ranked_better own other preferred }
{
    match (own, other) {
        (Some(own), Some(other)) => {
            let (own, other) = (order(own), order(other));
            own < other || (own == other && preferred)
        }
        _ => false,
    }
}

fn converts_better(arg: &Arg, own: &CoType, other: &CoType) -> bool
    ensures { result ≡ spec.converts_better arg.now own.now other.now }
{
    let preferred = is_preferred(arg.kind, own.head(), other.head());
    is_ranked_better(conversion(arg, own), conversion(arg, other), preferred)
}

/// Whether an argument converts better to its parameter of the first list than to that of the second.
fn any_better(mut args: &[Arg], mut own: &[CoType], mut other: &[CoType]) -> bool
    ensures { result ≡ spec.any_better args.entry.now own.entry.now other.entry.now }
{
    while let [arg, more @ ..] = args {
        let [left, own_next @ ..] = own else {
            return false;
        };
        let [right, other_next @ ..] = other else {
            return false;
        };
        if converts_better(arg, left, right) {
            return true;
        }
        args = more;
        own = own_next;
        other = other_next;
    }
    false
}

fn is_viable_at(candidates: &[FuncInfo], args: &[Arg], at: usize) -> bool
    ensures { result ≡ viable_at candidates.now args.now at }
{
    match candidates.get(at) {
        Some(func) => is_viable(func.params.as_slice(), args),
        None => false,
    }
}

fn is_better_at(candidates: &[FuncInfo], args: &[Arg], own: usize, other: usize) -> bool
    ensures { result ≡ better_at candidates.now args.now own other }
{
    match (candidates.get(own), candidates.get(other)) {
        (Some(own), Some(other)) => is_better(args, own, other),
        _ => false,
    }
}

fn is_better(args: &[Arg], own: &FuncInfo, other: &FuncInfo) -> bool
    ensures { result ≡ spec.is_better args.now own.now.params other.now.params }
{
    let (own, other) = (own.params.as_slice(), other.params.as_slice());
    if any_better(args, other, own) {
        return false;
    }
    any_better(args, own, other)
}

/// The last viable candidate that is better than the one before it. The best one is that, where there is a best.
fn last_better(candidates: &[FuncInfo], args: &[Arg]) -> Option<usize>
    ensures { IsHeld candidates.now args.now (length candidates.now) result }
{
    let mut best = None;
    for at in 0..candidates.len() {
        best = kept(candidates, args, best, at);
    }
    best
}

fn kept(candidates: &[FuncInfo], args: &[Arg], best: Option<usize>, at: usize) -> Option<usize>
    ensures { result ≡ spec.kept candidates.now args.now best at }
{
    if !is_viable_at(candidates, args, at) {
        return best;
    }
    match best {
        None => Some(at),
        Some(old) => {
            if is_better_at(candidates, args, at, old) {
                Some(at)
            } else {
                Some(old)
            }
        }
    }
}

fn beats_all(candidates: &[FuncInfo], args: &[Arg], best: usize) -> bool
    ensures all { IsTrue result → BeatsAll candidates.now args.now best (length candidates.now) }
    ensures none { IsFalse result → BeatsAll candidates.now args.now best (length candidates.now) → ⊥ }
{
    for at in 0..candidates.len() {
        if !beats(candidates, args, best, at) {
            return false;
        }
    }
    true
}

fn beats(candidates: &[FuncInfo], args: &[Arg], best: usize, at: usize) -> bool
    ensures { result ≡ spec.beats candidates.now args.now best at }
{
    if at == best || !is_viable_at(candidates, args, at) {
        return true;
    }
    is_better_at(candidates, args, best, at)
}
