ghost use Rattle.std.specs.Prelude.{◌≡◌};
ghost use Rattle.co_eval_data.specs.Seen.{given_of};
ghost use Rattle.co_meaning_calls.specs.Coroutines as coroutines;
ghost use Rattle.co_meaning_data.specs.Turn as turn;

use co_base::Num;
use co_eval_data::Given;
use co_meaning_data::Value;

/// A value of `bool`.
pub(crate) fn truth(holds: bool) -> Given
    ensures { given_of result ≡ turn.truth holds }
{
    Given::Scalar(Value::Number(Num::Bool, i64::from(holds)))
}

/// Whether an integer is 0, which as a `bool` is `false` [conv.bool].
#[tactic(auto, using(crate::proofs::Zero::other))]
pub(crate) fn is_zero(value: i64) -> bool
    ensures { result ≡ coroutines.is_zero value }
{
    value == 0
}
