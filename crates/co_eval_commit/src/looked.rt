ghost use Rattle.std.specs.Prelude.{◌≡◌, ◌<◌, length, IfSome};
ghost use Rattle.co_eval_data.specs.Seen.{frame_of};
ghost use Rattle.co_eval_commit.specs.Looked as looked;

use co_eval_data::{Frame, Node, Step};

/// The frames that are looked for: the block of a local, the full-expression of a mark, the full-expression or the call of
/// `await_suspend` of a temporary, what stands around the body of a coroutine, the handler around its body, and what is no
/// full-expression.
#[derive(Clone, Copy)]
pub enum Looked {
    Scope,
    Full,
    Temporaries,
    Hold,
    Guard,
    Making,
}

/// What a frame is looked at as: as one of these, or as none of them.
#[derive(Clone, Copy)]
pub enum Sort {
    Scope,
    Full,
    Await,
    Hold,
    Guard,
    Other,
}

/// What the frame of a number does in place of what it did.
#[derive(Drop)]
pub struct Stand {
    pub at: usize,
    pub step: Step,
}

/// So many fields are made in the frame of a number.
#[derive(Drop)]
pub struct Fielded {
    pub at: usize,
    pub fields: u32,
}

/// What a frame is looked at as.
fn sort_of(frame: &Frame<'_>) -> Sort
    ensures { result ≡ looked.sort_of (frame_of frame.now) }
{
    match &frame.step {
        Step::Scope(_) => Sort::Scope,
        Step::Full(_) => Sort::Full,
        Step::AwaitSuspend(..) => match frame.node {
            Node::Await(_) => Sort::Await,
            _ => Sort::Other,
        },
        Step::Holds(_) => Sort::Hold,
        Step::Guards(_) => Sort::Guard,
        _ => Sort::Other,
    }
}

impl Looked {
    /// Whether this is what is looked for.
    fn meets(self, sort: Sort) -> bool
        ensures { result ≡ looked.meets self sort }
    {
        match self {
            Looked::Scope => matches!(sort, Sort::Scope),
            Looked::Full => matches!(sort, Sort::Full),
            Looked::Temporaries => matches!(sort, Sort::Full | Sort::Await),
            Looked::Hold => matches!(sort, Sort::Hold),
            Looked::Guard => matches!(sort, Sort::Guard),
            Looked::Making => !matches!(sort, Sort::Full),
        }
    }

    /// The number of the innermost frame that is looked for.
    pub fn innermost(self, frames: &[Frame<'_>]) -> Option<usize>
        ensures found { looked.IsInnermost self frames.now result }
        ensures within { IfSome result (λ at. at < length frames.now) }
    {
        let mut at = frames.len();
        while at > 0 {
            at -= 1;
            if self.meets(sort_of(&frames[at])) {
                return Some(at);
            }
        }
        None
    }
}
