ghost use Rattle.std.specs.Prelude.{◌≡◌};
ghost use Rattle.std.specs.Option.{option_map};
ghost use Rattle.co_eval_data.specs.Agents as seen;
ghost use Rattle.co_eval_data.specs.Agents.{local_of};
ghost use Rattle.co_meaning_calls.specs.Coroutines as coroutines;
ghost use Rattle.co_meaning_data.specs.Undefined as undefined;

use co_eval_data::{Condition, Coroutine, Here};
use sqlite_items::at;

/// The coroutine of this number.
#[tactic(auto, using(crate::proofs::Mapped::seen_coroutine, crate::proofs::Mapped::no_coroutine))]
pub fn coroutine_at<'a, 'u>(here: &Here<'a, 'u>, number: u64) -> Option<&'a Coroutine<'u>>
    ensures { option_map (λ c. seen.coroutine_of c.now) result ≡ undefined.numbered (coroutines.coroutines (local_of here.now)) number }
{
    if number == 0 {
        return None;
    }
    let shared = here.shared;
    let before = number - 1;
    at(shared.coroutines.as_slice(), before as usize)
}

/// The object of the promise of the coroutine, if there is one.
pub fn promise_number(here: &Here<'_, '_>, coroutine: Option<u64>) -> Option<u64>
    ensures { result ≡ coroutines.promise_number (local_of here.now) coroutine }
{
    match coroutine {
        Some(number) => promise_of(here, number),
        None => None,
    }
}

fn promise_of(here: &Here<'_, '_>, number: u64) -> Option<u64>
    ensures { result ≡ coroutines.promise_of_top (local_of here.now) (undefined.numbered (coroutines.coroutines (local_of here.now)) number) }
{
    match coroutine_at(here, number) {
        Some(coroutine) => coroutine.promise,
        None => None,
    }
}

fn serial_of(condition: &Condition<'_>) -> u64
    ensures { result ≡ coroutines.serial_of_condition (seen.condition_of condition.now) }
{
    match condition {
        Condition::Running(serial) => *serial,
        Condition::Suspended(_, serial, _) => *serial,
        Condition::Final(_, serial, _) => *serial,
        Condition::Over => 0,
    }
}

/// How often the coroutine was suspended.
pub fn serial_now(here: &Here<'_, '_>, number: u64) -> u64
    ensures { result ≡ coroutines.serial_now number (local_of here.now) }
{
    match coroutine_at(here, number) {
        Some(coroutine) => serial_of(&coroutine.condition),
        None => 0,
    }
}

fn is_over_condition(condition: &Condition<'_>) -> bool
    ensures { result ≡ undefined.is_over_condition (seen.condition_of condition.now) }
{
    match condition {
        Condition::Over => true,
        Condition::Running(_) | Condition::Suspended(..) | Condition::Final(..) => false,
    }
}

/// Whether the coroutine has ended.
pub fn is_over(here: &Here<'_, '_>, number: u64) -> bool
    ensures { result ≡ undefined.is_over (coroutines.coroutines (local_of here.now)) number }
{
    match coroutine_at(here, number) {
        Some(coroutine) => is_over_condition(&coroutine.condition),
        None => true,
    }
}

/// Whether no promise and no frame is there of the coroutine [coroutine.handle.promise].
pub fn wrong_object(here: &Here<'_, '_>, number: u64) -> bool
    ensures { result ≡ undefined.wrong_object (coroutines.coroutines (local_of here.now)) number }
{
    is_over(here, number)
}

fn is_not_suspended(condition: &Condition<'_>) -> bool
    ensures { result ≡ undefined.not_suspended_condition (seen.condition_of condition.now) }
{
    match condition {
        Condition::Suspended(..) | Condition::Final(..) => false,
        Condition::Running(_) | Condition::Over => true,
    }
}

/// Whether the coroutine is not suspended [coroutine.handle.resumption].
pub fn not_suspended(here: &Here<'_, '_>, number: u64) -> bool
    ensures { result ≡ undefined.not_suspended (coroutines.coroutines (local_of here.now)) number }
{
    match coroutine_at(here, number) {
        Some(coroutine) => is_not_suspended(&coroutine.condition),
        None => true,
    }
}

fn is_final(condition: &Condition<'_>) -> bool
    ensures { result ≡ undefined.at_final_condition (seen.condition_of condition.now) }
{
    match condition {
        Condition::Final(..) => true,
        Condition::Running(_) | Condition::Suspended(..) | Condition::Over => false,
    }
}

/// Whether the coroutine is suspended at its final suspend point [coroutine.handle.resumption].
pub fn at_final(here: &Here<'_, '_>, number: u64) -> bool
    ensures { result ≡ undefined.at_final (coroutines.coroutines (local_of here.now)) number }
{
    match coroutine_at(here, number) {
        Some(coroutine) => is_final(&coroutine.condition),
        None => false,
    }
}

fn has_serial(condition: &Condition<'_>, serial: u64) -> bool
    ensures { result ≡ undefined.has_serial serial (seen.condition_of condition.now) }
{
    match condition {
        Condition::Suspended(_, other, _) => serial == *other,
        Condition::Final(_, other, _) => serial == *other,
        Condition::Running(_) | Condition::Over => false,
    }
}

fn is_at(here: &Here<'_, '_>, number: u64, serial: u64) -> bool
    ensures { result ≡ undefined.has_serial_of serial (undefined.numbered (coroutines.coroutines (local_of here.now)) number) }
{
    match coroutine_at(here, number) {
        Some(coroutine) => has_serial(&coroutine.condition, serial),
        None => false,
    }
}

/// Whether the coroutine is not at this suspension any more [expr.await].
pub fn not_taken_back(here: &Here<'_, '_>, number: u64, serial: u64) -> bool
    ensures { result ≡ undefined.not_taken_back (coroutines.coroutines (local_of here.now)) number serial }
{
    !is_at(here, number, serial)
}
