ghost use Rattle.std.specs.Prelude.{◌≡◌};
ghost use Rattle.std.specs.Vec.{vec_len, vec_capacity};
ghost use Rattle.co_eval_data.specs.Seen.{frames_of};
ghost use Rattle.co_meaning_calls.specs.Coroutines as coroutines;
ghost use Rattle.co_meaning_calls.specs.Objects as objects;

use crate::looked::Looked;
use crate::temporaries::mark_live;
use co_eval_data::{Frame, Step};

/// The temporary of the slot is live in the innermost full-expression, and its mark is set.
pub fn set_mark(frames: &mut Vec<Frame<'_>>, slot: u32)
    ensures seen { frames_of frames.new.items ≡ objects.set_mark slot (frames_of frames.old.items) }
    ensures len { vec_len frames.new ≡ vec_len frames.old }
    ensures capacity { vec_capacity frames.new ≡ vec_capacity frames.old }
{
    let Some(at) = Looked::Full.innermost(frames.as_slice()) else {
        return;
    };
    if let Some(frame) = frames.get_mut(at) {
        if let Step::Full(temporaries) = &mut frame.step {
            mark_live(temporaries, slot);
        }
    }
}

/// The initial `await_resume` is reached: the innermost handler around a body is told.
pub fn reach(frames: &mut Vec<Frame<'_>>)
    ensures seen { frames_of frames.new.items ≡ coroutines.reached (frames_of frames.old.items) }
    ensures len { vec_len frames.new ≡ vec_len frames.old }
    ensures capacity { vec_capacity frames.new ≡ vec_capacity frames.old }
{
    let Some(at) = Looked::Guard.innermost(frames.as_slice()) else {
        return;
    };
    if let Some(frame) = frames.get_mut(at) {
        if let Step::Guards(resumed) = &mut frame.step {
            *resumed = true;
        }
    }
}
