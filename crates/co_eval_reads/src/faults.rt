ghost use Rattle.std.specs.Prelude.{◌≡◌, [], ◌∷◌};
ghost use Rattle.co_eval_data.specs.Agents.{local_of};
ghost use Rattle.co_eval_reads.specs.Faults.{fault_of, faults_of};
ghost use Rattle.co_meaning_calls.specs.Coroutines as coroutines;
ghost use Rattle.co_meaning_data.specs.Store as store;
ghost use Rattle.co_meaning_data.specs.Turn as turn;
ghost use Rattle.co_meaning_data.specs.Undefined as undefined;

use crate::coroutines::is_over;
use crate::objects::{block_at, is_ended, is_live_lifetime, object_at, standing_in};
use crate::pointers::{Address, address_of, is_object_standing};
use co_base::Undef;
use co_eval_data::Here;
use co_meaning_data::{Cell, Standing, Value};
use co_types::{CoType, is_same};

/// Whether a pointer or a handle is null.
pub fn is_null(value: &Value) -> bool
    ensures { result ≡ undefined.is_null value.now }
{
    matches!(value, Value::Null)
}

/// Whether a scalar is outside its lifetime [basic.life].
pub fn is_outside(cell: &Cell) -> bool
    ensures { result ≡ undefined.is_outside cell.now }
{
    matches!(cell, Cell::Outside)
}

/// Whether a scalar is indeterminate [dcl.init].
pub fn is_indeterminate(cell: &Cell) -> bool
    ensures { result ≡ undefined.is_indeterminate cell.now }
{
    matches!(cell, Cell::Indeterminate)
}

/// Whether a value is the address of no object.
pub fn is_no_place(value: &Value) -> bool
    ensures { result ≡ undefined.is_no_place value.now }
{
    !matches!(value, Value::Pointer(..))
}

fn is_released(here: &Here<'_, '_>, block: u64) -> bool
    ensures { result ≡ undefined.is_released (store.block_at (turn.store (local_of here.now)) block) }
{
    match block_at(here, block) {
        Some(block) => block.released,
        None => true,
    }
}

/// Whether it is a pointer into storage that was released or to an object that has ended, or a handle or frame of a coroutine
/// that has.
pub fn dangles(here: &Here<'_, '_>, value: &Value) -> bool
    ensures { result ≡ undefined.dangles (turn.store (local_of here.now)) (coroutines.coroutines (local_of here.now)) value.now }
{
    match value {
        Value::Pointer(object, _) => is_ended(here, *object),
        Value::Block(block) => is_released(here, *block),
        Value::Frame(coroutine) | Value::Handle(coroutine) => is_over(here, *coroutine),
        Value::Number(..)
        | Value::NoopFrame
        | Value::Noop
        | Value::Null
        | Value::Kind(_)
        | Value::Empty => false,
    }
}

/// Whether one of two values that are compared dangles, and none is null [basic.stc].
pub fn compares_dangling(here: &Here<'_, '_>, a: &Value, b: &Value) -> bool
    ensures { result ≡ undefined.compares_dangling (turn.store (local_of here.now)) (coroutines.coroutines (local_of here.now)) a.now b.now }
{
    !(is_null(a) || is_null(b)) && (dangles(here, a) || dangles(here, b))
}

fn is_nothing(standing: Standing) -> bool
    ensures { result ≡ store.is_nothing_standing standing }
{
    matches!(standing, Standing::Nothing)
}

fn is_room(here: &Here<'_, '_>, words: u64, block: u64) -> bool
    ensures { result ≡ undefined.is_room words (store.block_at (turn.store (local_of here.now)) block) }
{
    match block_at(here, block) {
        Some(block) => !block.released && (words <= block.words && is_nothing(block.standing)),
        None => false,
    }
}

/// Whether a value is not the address of a block that is not released, has these words and holds nothing [basic.stc.dynamic].
pub fn is_no_room(here: &Here<'_, '_>, words: u64, value: &Value) -> bool
    ensures { result ≡ undefined.is_no_room (turn.store (local_of here.now)) (coroutines.coroutines (local_of here.now)) words value.now }
{
    match address_of(here, value) {
        Address::Block(block) => !is_room(here, words, block),
        _ => true,
    }
}

fn holds_frame(standing: Standing) -> bool
    ensures { result ≡ undefined.holds_frame standing }
{
    matches!(standing, Standing::Frame(_))
}

fn can_release(here: &Here<'_, '_>, block: u64) -> bool
    ensures { result ≡ undefined.can_release (store.block_at (turn.store (local_of here.now)) block) }
{
    match block_at(here, block) {
        Some(block) => !block.released && !holds_frame(block.standing),
        None => false,
    }
}

/// Whether a value is not the address of a block that may be released [basic.stc.dynamic].
pub fn is_no_block(here: &Here<'_, '_>, value: &Value) -> bool
    ensures { result ≡ undefined.is_no_block (turn.store (local_of here.now)) (coroutines.coroutines (local_of here.now)) value.now }
{
    match address_of(here, value) {
        Address::Block(block) => !can_release(here, block),
        _ => true,
    }
}

fn is_new_in(here: &Here<'_, '_>, object: u64, block: Option<u64>) -> bool
    ensures { result ≡ undefined.is_new_in (turn.store (local_of here.now)) object block }
{
    match block {
        Some(block) => is_object_standing(object, standing_in(here, block)),
        None => false,
    }
}

fn is_new(here: &Here<'_, '_>, of: &CoType, object: u64) -> bool
    ensures { result ≡ undefined.is_new_of (turn.store (local_of here.now)) of.now object (store.object_at (turn.store (local_of here.now)) object) }
{
    match object_at(here, object) {
        Some(stored) => {
            is_live_lifetime(stored.lifetime)
                && (is_same(of, stored.of) && is_new_in(here, object, stored.block))
        }
        None => false,
    }
}

/// Whether a value is not the address of a whole live object, of this type, of a `new` [expr.delete].
pub fn is_not_new(here: &Here<'_, '_>, of: &CoType, value: &Value) -> bool
    ensures { result ≡ undefined.is_not_new (turn.store (local_of here.now)) of.now value.now }
{
    match value {
        Value::Pointer(object, path) => !path.is_empty() || !is_new(here, of, *object),
        Value::Number(..)
        | Value::Block(_)
        | Value::Frame(_)
        | Value::NoopFrame
        | Value::Handle(_)
        | Value::Noop
        | Value::Null
        | Value::Kind(_)
        | Value::Empty => true,
    }
}

fn is_null_fault(kind: Undef) -> bool
    ensures { result ≡ undefined.is_null_fault kind }
{
    matches!(kind, Undef::U4)
}

#[tactic(auto, using(crate::proofs::Judged::null_next))]
fn null_among(faults: &[(Undef, bool)]) -> bool
    ensures { result ≡ undefined.null_among (faults_of faults.now) }
{
    let mut rest = faults;
    while let [(kind, holds), next @ ..] = rest {
        if *holds && is_null_fault(*kind) {
            return true;
        }
        rest = next;
    }
    false
}

fn first_among(faults: &[(Undef, bool)]) -> Option<Undef>
    ensures { result ≡ undefined.first_among (faults_of faults.now) }
{
    let mut rest = faults;
    while let [(kind, holds), next @ ..] = rest {
        if *holds {
            return Some(*kind);
        }
        rest = next;
    }
    None
}

/// Which of several acts counts, given in the order of their kinds: the use of null before all others, and else the first.
pub fn counted(faults: &[(Undef, bool)]) -> Option<Undef>
    ensures { result ≡ undefined.counts (faults_of faults.now) }
{
    if null_among(faults) {
        Some(Undef::U4)
    } else {
        first_among(faults)
    }
}

/// Whether an act counts that is alone.
pub fn counted_alone(kind: Undef, holds: bool) -> Option<Undef>
    ensures { result ≡ undefined.counts (fault_of (kind, holds) ∷ []) }
{
    if holds { Some(kind) } else { None }
}

/// Which of two acts counts.
pub fn counted_of_two(first: (Undef, bool), second: (Undef, bool)) -> Option<Undef>
    ensures { result ≡ undefined.counts (fault_of first ∷ fault_of second ∷ []) }
{
    counted(&[first, second])
}
