//! What the steps of expressions, statements, calls and coroutines share: copies, the making and the ends of objects, the return
//! of control, storage, and the waking of coroutines.
#![tactic(auto)]

mod births;
mod copies;
mod end_lists;
mod ending;
mod frames;
mod making;
mod returning;
mod storage;
mod waking;

pub use births::{is_born, lives, temporary_made};
pub use copies::{
    copy_endings, copy_given, copy_given_list, copy_going, copy_outcome, copy_place_if,
};
pub use end_lists::{endings, fields_end, temporaries_end, unseen_endings};
pub use ending::{abandon, dies, end_next, ends, has_died};
pub use making::{fills_part, indeterminate_object, raw_object};
pub use returning::{last_frame, returns, throws};
pub use storage::{call_with, release_value, releases, size_given, take_block};
pub use waking::{destroy_handle, resume_handle, transfer};
