ghost use Rattle.std.specs.Prelude.{◌≡◌, []};
ghost use Rattle.co_eval_data.specs.Agents.{local_of};
ghost use Rattle.co_eval_reads.specs.Addresses.{block_in, value_of};
ghost use Rattle.co_meaning_calls.specs.Coroutines as coroutines;
ghost use Rattle.co_meaning_data.specs.Store as store;
ghost use Rattle.co_meaning_data.specs.Turn as turn;
ghost use Rattle.co_meaning_data.specs.Undefined as undefined;

use crate::coroutines::coroutine_at;
use crate::objects::{object_at, standing_in};
use co_base::{CatchOf, Num};
use co_eval_data::Here;
use co_meaning_data::{Standing, Value};
use co_types::is_same_num;

/// A value whose path is borrowed.
#[derive(Clone, Copy)]
pub(crate) enum Address<'v> {
    Number(Num, i64),
    Pointer(u64, &'v [u32]),
    Block(u64),
    Frame(u64),
    NoopFrame,
    Handle(u64),
    Noop,
    Null,
    Kind(CatchOf),
    Empty,
}

/// A path without the fields of number 0 at its end.
#[tactic(auto, using(crate::proofs::Trailing::ends_in_first, crate::proofs::Trailing::ends_in_other))]
fn without_first(path: &[u32]) -> &[u32]
    ensures { result.now ≡ undefined.without_first path.now }
{
    match path {
        [front @ .., last] => {
            if *last == 0 {
                without_first(front)
            } else {
                path
            }
        }
        [] => path,
    }
}

pub(crate) fn is_object_standing(object: u64, standing: Standing) -> bool
    ensures { result ≡ store.is_object_standing object standing }
{
    match standing {
        Standing::Object(other) => object == other,
        Standing::Nothing | Standing::Frame(_) => false,
    }
}

fn is_frame_standing(coroutine: u64, standing: Standing) -> bool
    ensures { result ≡ store.is_frame_standing coroutine standing }
{
    match standing {
        Standing::Frame(other) => coroutine == other,
        Standing::Nothing | Standing::Object(_) => false,
    }
}

/// The address of an object, that of its block where it stands in one.
fn address_in(here: &Here<'_, '_>, object: u64, block: Option<u64>) -> Address<'static>
    ensures { value_of result ≡ undefined.in_block (turn.store (local_of here.now)) object [] block }
{
    match block {
        Some(block) => {
            if is_object_standing(object, standing_in(here, block)) {
                Address::Block(block)
            } else {
                Address::Pointer(object, &[])
            }
        }
        None => Address::Pointer(object, &[]),
    }
}

/// The address of the part of an object to which a path leads.
fn object_address<'v>(here: &Here<'_, '_>, object: u64, path: &'v [u32]) -> Address<'v>
    ensures { value_of result ≡ undefined.at_block (turn.store (local_of here.now)) object path.now (store.object_at (turn.store (local_of here.now)) object) }
{
    if !path.is_empty() {
        return Address::Pointer(object, path);
    }
    match object_at(here, object) {
        Some(stored) => address_in(here, object, stored.block),
        None => Address::Pointer(object, path),
    }
}

/// The address of the frame of a coroutine, that of its block where it stands in one.
fn frame_address(here: &Here<'_, '_>, number: u64) -> Address<'static>
    ensures { value_of result ≡ undefined.frame_block (turn.store (local_of here.now)) number (undefined.numbered (coroutines.coroutines (local_of here.now)) number) }
{
    match coroutine_at(here, number) {
        Some(coroutine) => {
            let block = coroutine.block;
            if is_frame_standing(number, standing_in(here, block)) {
                Address::Block(block)
            } else {
                Address::Frame(number)
            }
        }
        None => Address::Frame(number),
    }
}

/// One value for all pointers that are the same [basic.compound].
pub(crate) fn address_of<'v>(here: &Here<'_, '_>, value: &'v Value) -> Address<'v>
    ensures { value_of result ≡ undefined.address_of (turn.store (local_of here.now)) (coroutines.coroutines (local_of here.now)) value.now }
{
    match value {
        Value::Number(num, v) => Address::Number(*num, *v),
        Value::Pointer(object, path) => {
            object_address(here, *object, without_first(path.as_slice()))
        }
        Value::Block(block) => Address::Block(*block),
        Value::Frame(coroutine) => frame_address(here, *coroutine),
        Value::NoopFrame => Address::NoopFrame,
        Value::Handle(coroutine) => Address::Handle(*coroutine),
        Value::Noop => Address::Noop,
        Value::Null => Address::Null,
        Value::Kind(of) => Address::Kind(*of),
        Value::Empty => Address::Empty,
    }
}

/// The block at whose address a value is, if it is at one.
pub fn block_addressed(here: &Here<'_, '_>, value: &Value) -> Option<u64>
    ensures { result ≡ block_in (undefined.address_of (turn.store (local_of here.now)) (coroutines.coroutines (local_of here.now)) value.now) }
{
    match address_of(here, value) {
        Address::Block(block) => Some(block),
        _ => None,
    }
}

#[tactic(auto, using(crate::proofs::Trailing::empty_other, crate::proofs::Trailing::other_empty))]
fn is_same_path(a: &[u32], b: &[u32]) -> bool
    ensures { result ≡ undefined.same_path a.now b.now }
{
    match a {
        [] => match b {
            [] => true,
            [_, ..] => false,
        },
        [x, p @ ..] => match b {
            [] => false,
            [y, q @ ..] => *x == *y && is_same_path(p, q),
        },
    }
}

fn is_same_kind(a: CatchOf, b: CatchOf) -> bool
    ensures { result ≡ undefined.same_kind a b }
{
    match (a, b) {
        (CatchOf::Any, CatchOf::Any) => true,
        (CatchOf::Int, CatchOf::Int) => true,
        (CatchOf::Long, CatchOf::Long) => true,
        (CatchOf::Bool, CatchOf::Bool) => true,
        (CatchOf::Class(x), CatchOf::Class(y)) => x.0 == y.0,
        _ => false,
    }
}

fn is_same_address(a: Address<'_>, b: Address<'_>) -> bool
    ensures { result ≡ undefined.same_value (value_of a.entry) (value_of b.entry) }
{
    match (a, b) {
        (Address::Number(m, x), Address::Number(n, y)) => is_same_num(m, n) && x == y,
        (Address::Pointer(x, p), Address::Pointer(y, q)) => x == y && is_same_path(p, q),
        (Address::Block(x), Address::Block(y)) => x == y,
        (Address::Frame(x), Address::Frame(y)) => x == y,
        (Address::NoopFrame, Address::NoopFrame) => true,
        (Address::Handle(x), Address::Handle(y)) => x == y,
        (Address::Noop, Address::Noop) => true,
        (Address::Null, Address::Null) => true,
        (Address::Kind(x), Address::Kind(y)) => is_same_kind(x, y),
        (Address::Empty, Address::Empty) => true,
        _ => false,
    }
}

/// Whether two pointers or handles compare equal [expr.eq].
pub fn is_same(here: &Here<'_, '_>, a: &Value, b: &Value) -> bool
    ensures { result ≡ undefined.is_same (turn.store (local_of here.now)) (coroutines.coroutines (local_of here.now)) a.now b.now }
{
    is_same_address(address_of(here, a), address_of(here, b))
}
