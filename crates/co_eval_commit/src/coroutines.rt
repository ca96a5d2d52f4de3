ghost use Rattle.std.specs.Prelude.{◌≡◌, ℕ, suc, ◌<◌, length, None, Some, IfOk, MatchOption};
ghost use Rattle.std.specs.Vec.{vec_len, vec_capacity};
ghost use Rattle.co_eval_data.specs.Agents.{condition_of, continuation_of, kind_of, shared_of, activation_of};
ghost use Rattle.co_eval_data.specs.Changed.{continuation_in, serial_after};
ghost use Rattle.co_meaning_calls.specs.Coroutines as coroutines;
ghost use Rattle.co_meaning_data.specs.Turn.{Local};
ghost use Rattle.co_meaning_data.specs.Undefined.{numbered};
ghost use Rattle.co_eval_commit.specs.InPlace.{of_coroutine, sharing};

use crate::blocks::set_standing;
use co_base::{FuncId, NoMemory};
use co_eval_data::{Condition, Continuation, Coroutine, Shared};
use co_meaning_data::Standing;

/// Where the coroutine of a number stands among all.
pub(crate) fn index_of(number: u64) -> Option<usize>
    ensures { MatchOption result (number ≡ 0) (λ at. number ≡ suc at) }
{
    if number == 0 {
        return None;
    }
    Some((number - 1) as usize)
}

/// The coroutine gets a condition, where it is there.
pub fn set_condition<'u>(shared: &mut Shared<'u>, number: u64, condition: Condition<'u>)
    ensures { (l : Local) → sharing shared.new l ≡ coroutines.set_condition number (condition_of condition.entry) (sharing shared.old l) }
{
    let Some(at) = index_of(number) else {
        return;
    };
    if let Some(coroutine) = shared.coroutines.get_mut(at) {
        coroutine.condition = condition;
    }
}

/// The object is the promise of the coroutine, where that is there.
pub fn set_promise(shared: &mut Shared<'_>, number: u64, object: u64)
    ensures { (l : Local) → sharing shared.new l ≡ coroutines.promised_by object (sharing shared.old l) (Some number) }
{
    let Some(at) = index_of(number) else {
        return;
    };
    if let Some(coroutine) = shared.coroutines.get_mut(at) {
        coroutine.promise = Some(object);
    }
}

/// How often the coroutine was suspended: never, where it is over or not there.
pub fn serial_now(shared: &Shared<'_>, number: u64) -> u64
    ensures { (l : Local) → result ≡ coroutines.serial_now number (sharing shared.now l) }
{
    let Some(at) = index_of(number) else {
        return 0;
    };
    match shared.coroutines.get(at) {
        Some(coroutine) => serial_of(&coroutine.condition),
        None => 0,
    }
}

/// How often a coroutine of the condition was suspended.
pub(crate) fn serial_of(condition: &Condition<'_>) -> u64
    ensures { result ≡ coroutines.serial_of_condition (condition_of condition.now) }
{
    match condition {
        Condition::Running(serial)
        | Condition::Suspended(_, serial, _)
        | Condition::Final(_, serial, _) => *serial,
        Condition::Over => 0,
    }
}

/// The number of its next suspension. A number past 64 bits counts as a lack of memory.
pub fn next_serial(shared: &Shared<'_>, number: u64) -> Result<u64, NoMemory>
    ensures { (l : Local) → IfOk result (λ serial. serial ≡ suc (coroutines.serial_now number (sharing shared.now l))) }
{
    let serial = serial_now(shared, number);
    if serial == u64::MAX {
        return Err(NoMemory);
    }
    Ok(serial + 1)
}

/// The condition of a coroutine that is suspended at a point, of which 1 is the final one.
pub fn suspended_at<'u>(point: u32, serial: u64, rest: Continuation<'u>) -> Condition<'u>
    ensures { condition_of result ≡ coroutines.suspended_at point serial (continuation_of rest.entry) }
{
    if point == 1 {
        return Condition::Final(point, serial, rest);
    }
    Condition::Suspended(point, serial, rest)
}

/// A new coroutine of the function, whose frame stands in the block: its number. There is room for it.
pub fn draw(shared: &mut Shared<'_>, func: FuncId, block: u64) -> u64
    requires { vec_len shared.old.coroutines < vec_capacity shared.old.coroutines }
    ensures { (l : Local) → func.0 ≡ l.top.func → of_coroutine result (sharing shared.new l) ≡ coroutines.with_new_coroutine (suc (length (coroutines.coroutines (sharing shared.old l)))) block (sharing shared.old l) }
{
    let number = shared.coroutines.len() as u64 + 1;
    shared.coroutines.push_reserved(Coroutine {
        func,
        block,
        promise: None,
        condition: Condition::Running(0),
    });
    set_standing(&mut shared.store, block, Standing::Frame(number));
    number
}
