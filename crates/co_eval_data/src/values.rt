ghost use Rattle.std.specs.Prelude.{◌≡◌, IfOk};
ghost use Rattle.co_eval_data.specs.Seen.{place_of};
ghost use Rattle.co_meaning_data.specs.Store as store;
ghost use Rattle.co_meaning_data.specs.Turn as turn;

use co_base::NoMemory;
use co_meaning_data::Value;
use sqlite_items::Items;
use std::alloc::Global;

/// An object that is no part of another, or the part of it to which the fields of these numbers lead, the outermost first.
#[derive(Drop)]
pub struct Place {
    pub object: u64,
    pub path: Items<u32>,
}

impl Place {
    /// The place of a whole object.
    pub fn whole(alloc: Global, object: u64) -> Place
        ensures { place_of result ≡ store.whole object }
    {
        Place {
            object,
            path: Items::new(alloc),
        }
    }

    /// The same place.
    pub fn copy(&self, alloc: Global) -> Result<Place, NoMemory>
        ensures { IfOk result (λ place. place ≡ self.now) }
    {
        let path = Items::from_slice(alloc, self.path.as_slice())?;
        Ok(Place {
            object: self.object,
            path,
        })
    }

    /// The place of the field of this number of the object at this place [expr.ref].
    pub fn field(self, field: u32) -> Result<Place, NoMemory>
        ensures { IfOk result (λ place. place_of place ≡ store.field_of_place (place_of self) field) }
    {
        let Place { object, mut path } = self;
        path.push(field)?;
        Ok(Place { object, path })
    }

    /// A pointer to what is at this place.
    pub fn into_pointer(self) -> Value
        ensures { result ≡ turn.pointer (place_of self) }
    {
        let Place { object, path } = self;
        Value::Pointer(object, path)
    }
}

/// The same value.
pub fn copy_value(alloc: Global, value: &Value) -> Result<Value, NoMemory>
    ensures { IfOk result (λ copied. copied ≡ value.now) }
{
    match value {
        Value::Number(num, v) => Ok(Value::Number(*num, *v)),
        Value::Pointer(object, path) => {
            let path = Items::from_slice(alloc, path.as_slice())?;
            Ok(Value::Pointer(*object, path))
        }
        Value::Block(block) => Ok(Value::Block(*block)),
        Value::Frame(coroutine) => Ok(Value::Frame(*coroutine)),
        Value::NoopFrame => Ok(Value::NoopFrame),
        Value::Handle(coroutine) => Ok(Value::Handle(*coroutine)),
        Value::Noop => Ok(Value::Noop),
        Value::Null => Ok(Value::Null),
        Value::Kind(of) => Ok(Value::Kind(*of)),
        Value::Empty => Ok(Value::Empty),
    }
}

/// The same values.
pub fn copy_values(alloc: Global, values: &[Value]) -> Result<Items<Value>, NoMemory>
    ensures { IfOk result (λ copied. copied ≡ values.now) }
{
    let mut copied = Items::new(alloc);
    for value in values {
        copied.push(copy_value(alloc, value)?)?;
    }
    Ok(copied)
}
