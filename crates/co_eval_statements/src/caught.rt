ghost use Rattle.std.specs.Prelude.{◌≡◌, ◌∷◌, [], IfOk};
ghost use Rattle.co_eval_data.specs.Agents.{local_of};
ghost use Rattle.co_meaning.specs.Statements as statements;
ghost use Rattle.co_meaning_data.specs.declared.values.Value.TheVariants as value;
ghost use Rattle.co_types.specs.Types.{head_of};

use co_base::{NoMemory, Num, Thrown};
use co_eval_data::Here;
use co_eval_reads::fields;
use co_meaning_data::Value;
use co_types::{CoType, FieldInfo, Head};
use sqlite_items::Items;
use std::alloc::Global;

fn number_of(of: &CoType) -> Num
    ensures { result ≡ statements.number_of_head (head_of of.now) }
{
    match of.head() {
        Head::Num(num) => num,
        _ => Num::Long,
    }
}

/// The values of the fields of a thrown object.
#[tactic(auto, using(crate::proofs::Members::members_on, crate::proofs::Members::no_fields, crate::proofs::Members::no_numbers))]
fn member_values(
    alloc: Global,
    fields: &[FieldInfo],
    numbers: &[i64],
) -> Result<Items<Value>, NoMemory>
    ensures { IfOk result (λ values. values ≡ statements.member_values fields.now numbers.now) }
{
    let mut values = Items::new(alloc);
    let mut rest = fields;
    let mut left = numbers;
    while let [field, next @ ..] = rest {
        let [number, more @ ..] = left else {
            return Ok(values);
        };
        values.push(Value::Number(number_of(&field.of), *number))?;
        rest = next;
        left = more;
    }
    Ok(values)
}

fn one_number(alloc: Global, num: Num, number: i64) -> Result<Items<Value>, NoMemory>
    ensures { IfOk result (λ values. values ≡ value.Number num number ∷ []) }
{
    let mut values = Items::new(alloc);
    values.push(Value::Number(num, number))?;
    Ok(values)
}

/// The values of the words of an object of the type that has a thrown value [except.handle].
pub(crate) fn thrown_values(
    here: &Here<'_, '_>,
    of: &CoType,
    value: Thrown,
) -> Result<Items<Value>, NoMemory>
    ensures { IfOk result (λ values. values ≡ statements.thrown_values (local_of here.now) of.now value) }
{
    match value {
        Thrown::Int(number) => one_number(here.alloc, Num::Int, number),
        Thrown::Long(number) => one_number(here.alloc, Num::Long, number),
        Thrown::Bool(truth) => one_number(here.alloc, Num::Bool, i64::from(truth)),
        Thrown::Class(_, a, b, c) => member_values(here.alloc, fields(here, of), &[a, b, c]),
        Thrown::None => Ok(Items::new(here.alloc)),
    }
}
