ghost use Rattle.std.specs.Prelude.{◌≡◌, map, Some};
ghost use Rattle.std.specs.Option.{option_copied, option_map};
ghost use Rattle.co_eval_data.specs.Seen.{given_of, place_of};
ghost use Rattle.co_eval_library.specs.Operands as operands_of;

use co_eval_data::{Given, Place};
use co_meaning_data::Value;

fn scalar_in(given: &Given) -> Option<&Value>
    ensures { option_copied result ≡ operands_of.scalar_in (given_of given.now) }
{
    match given {
        Given::Scalar(value) => Some(value),
        Given::Parts(_) | Given::At(_) | Given::Nothing => None,
    }
}

/// The place that this is.
pub(crate) fn place_in(given: &Given) -> Option<&Place>
    ensures { option_map (λ p. place_of p.now) result ≡ operands_of.place_in (given_of given.now) }
{
    match given {
        Given::At(place) => Some(place),
        Given::Scalar(_) | Given::Parts(_) | Given::Nothing => None,
    }
}

fn number_in(given: &Given) -> Option<i64>
    ensures { result ≡ operands_of.number_in (given_of given.now) }
{
    match given {
        Given::Scalar(Value::Number(_, value)) => Some(*value),
        _ => None,
    }
}

/// The scalar that is the one operand.
pub(crate) fn one_scalar(operands: &[Given]) -> Option<&Value>
    ensures { option_copied result ≡ operands_of.one_scalar (map given_of operands.now) }
{
    match operands {
        [given] => scalar_in(given),
        _ => None,
    }
}

/// The place that is the one operand.
pub(crate) fn one_place(operands: &[Given]) -> Option<&Place>
    ensures { option_map (λ p. place_of p.now) result ≡ operands_of.one_place (map given_of operands.now) }
{
    match operands {
        [given] => place_in(given),
        _ => None,
    }
}

/// The number that is the one operand.
pub(crate) fn one_number(operands: &[Given]) -> Option<i64>
    ensures { result ≡ operands_of.one_number (map given_of operands.now) }
{
    match operands {
        [given] => number_in(given),
        _ => None,
    }
}

/// The scalar and the place that these are.
pub(crate) fn both_in<'a>(first: &'a Given, second: &'a Given) -> Option<(&'a Value, &'a Place)>
    ensures { option_map (λ both. (both.0.now, place_of both.1.now)) result ≡ operands_of.and_place (operands_of.scalar_in (given_of first.now)) (operands_of.place_in (given_of second.now)) }
{
    match first {
        Given::Scalar(value) => and_place(value, second),
        Given::Parts(_) | Given::At(_) | Given::Nothing => None,
    }
}

fn and_place<'a>(value: &'a Value, given: &'a Given) -> Option<(&'a Value, &'a Place)>
    ensures { option_map (λ both. (both.0.now, place_of both.1.now)) result ≡ operands_of.and_place (Some value.now) (operands_of.place_in (given_of given.now)) }
{
    match given {
        Given::At(place) => Some((value, place)),
        Given::Scalar(_) | Given::Parts(_) | Given::Nothing => None,
    }
}

/// The scalar and the place that are the two operands.
pub(crate) fn scalar_and_place(operands: &[Given]) -> Option<(&Value, &Place)>
    ensures { option_map (λ both. (both.0.now, place_of both.1.now)) result ≡ operands_of.scalar_and_place (map given_of operands.now) }
{
    match operands {
        [first, second] => both_in(first, second),
        _ => None,
    }
}

/// The address that is given back, alone or behind its size.
pub(crate) fn given_back(operands: &[Given]) -> Option<&Value>
    ensures { option_copied result ≡ operands_of.given_back (map given_of operands.now) }
{
    match operands {
        [given] => scalar_in(given),
        [_, given] => scalar_in(given),
        _ => None,
    }
}
