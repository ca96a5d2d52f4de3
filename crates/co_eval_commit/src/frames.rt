ghost use Rattle.std.specs.Prelude.{◌≡◌, ◌+◌, ◌≤◌, ◌++◌, length, take};
ghost use Rattle.std.specs.Vec.{vec_len, vec_capacity};
ghost use Rattle.co_eval_data.specs.Changed.{without_top};
ghost use Rattle.co_eval_data.specs.Seen.{frames_of};

use co_eval_data::Frame;
use sqlite_items::Items;

/// So many frames are taken away from the top, or all where there are no more.
pub fn take_away(frames: &mut Vec<Frame<'_>>, taken: usize)
    ensures seen { frames_of frames.new.items ≡ without_top taken (frames_of frames.old.items) }
    ensures len { vec_len frames.new ≤ vec_len frames.old }
    ensures capacity { vec_capacity frames.new ≡ vec_capacity frames.old }
{
    let left = frames.len().saturating_sub(taken);
    frames.truncate(left);
}

/// The frames are left on top, the innermost last. There is room for them.
pub fn leave_on_top<'u>(frames: &mut Vec<Frame<'u>>, mut more: Items<Frame<'u>>)
    requires { vec_len frames.old + length more ≤ vec_capacity frames.old }
    ensures items { frames.new.items ≡ frames.old.items ++ more.entry }
    ensures seen { frames_of frames.new.items ≡ frames_of more.entry ++ frames_of frames.old.items }
{
    while !more.is_empty() {
        frames.push_reserved(more.remove(0));
    }
}

/// So many of the frames, the oldest ones.
pub fn first<'a, 'u>(frames: &'a [Frame<'u>], left: usize) -> &'a [Frame<'u>]
    requires { left ≤ length frames.now }
    ensures { result.now ≡ take left frames.now }
{
    &frames[..left]
}
