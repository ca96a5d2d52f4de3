ghost use Rattle.std.specs.Prelude.{◌≡◌, ◌≤◌, suc, take, Some, IfOk, OnOk, OnErr};
ghost use Rattle.std.specs.Vec.{vec_len, vec_capacity};
ghost use Rattle.co_eval_data.specs.Seen.{frames_of};
ghost use Rattle.co_meaning_calls.specs.Calls as calls;
ghost use Rattle.co_eval_commit.specs.Fields.{fields_after, fielded_by, with_fields};

use crate::frames::first;
use crate::looked::{Fielded, Looked};
use co_base::NoMemory;
use co_eval_data::{Frame, Step};

/// One more field is made of the object that is made, in the frames of which so many are left [class.base.init]. A number of
/// fields past 32 bits counts as a lack of memory, and then nothing has changed.
pub fn make_field(frames: &mut Vec<Frame<'_>>, left: usize) -> Result<(), NoMemory>
    requires { left ≤ vec_len frames.old }
    ensures ok { OnOk result (frames_of frames.new.items ≡ calls.one_more_field (frames_of (take left frames.old.items))) }
    ensures err { OnErr result (frames.new.items ≡ frames.old.items) }
    ensures len { vec_len frames.new ≤ vec_len frames.old }
    ensures capacity { vec_capacity frames.new ≡ vec_capacity frames.old }
{
    let made = field_in(first(frames.as_slice(), left))?;
    frames.truncate(left);
    if let Some(made) = made {
        set_fields_at(frames, made);
    }
    Ok(())
}

/// The frame whose object has one more field, and how many it has then.
fn field_in(frames: &[Frame<'_>]) -> Result<Option<Fielded>, NoMemory>
    ensures { IfOk result (λ made. frames_of (fielded_by made frames.now) ≡ calls.one_more_field (frames_of frames.now)) }
{
    let Some(at) = Looked::Making.innermost(frames) else {
        return Ok(None);
    };
    let after = fields_in(&frames[at])?;
    match after {
        Some(fields) => Ok(Some(Fielded { at, fields })),
        None => Ok(None),
    }
}

/// How many fields are made after one more, where the frame makes an object.
fn fields_in(frame: &Frame<'_>) -> Result<Option<u32>, NoMemory>
    ensures { IfOk result (λ fields. fields ≡ fields_after frame.now.step) }
{
    fields_next(&frame.step)
}

/// How many fields are made after one more, where an object is made.
fn fields_next(step: &Step) -> Result<Option<u32>, NoMemory>
    ensures { IfOk result (λ fields. fields ≡ fields_after step.now) }
{
    match step {
        Step::Building(_, fields) => one_more(*fields),
        Step::Constructing(_, _, fields, ..) => one_more(*fields),
        _ => Ok(None),
    }
}

/// The next number, where there is one.
fn one_more(fields: u32) -> Result<Option<u32>, NoMemory>
    ensures { IfOk result (λ more. more ≡ Some (suc fields)) }
{
    if fields == u32::MAX {
        return Err(NoMemory);
    }
    Ok(Some(fields + 1))
}

/// So many fields are made in the frame of the number, where it is there.
fn set_fields_at(frames: &mut Vec<Frame<'_>>, made: Fielded)
    ensures items { frames.new.items ≡ fielded_by (Some made) frames.old.items }
    ensures len { vec_len frames.new ≡ vec_len frames.old }
    ensures capacity { vec_capacity frames.new ≡ vec_capacity frames.old }
{
    if let Some(frame) = frames.get_mut(made.at) {
        set_fields(&mut frame.step, made.fields);
    }
}

/// So many fields are made, where an object is made.
fn set_fields(step: &mut Step, fields: u32)
    ensures { step.new ≡ with_fields fields step.old }
{
    match step {
        Step::Building(_, built) => *built = fields,
        Step::Constructing(_, _, built, ..) => *built = fields,
        _ => {}
    }
}
