ghost use Rattle.std.specs.Prelude.{◌≡◌, Some};
ghost use Rattle.std.specs.Option.{option_map};
ghost use Rattle.co_core_tree.specs.Acts.{OfExpr, OfInit};
ghost use Rattle.co_core_types.specs.Seen.{known_type, seen, seen_shape};
ghost use Rattle.co_core_typing.specs.Gives as give;
ghost use Rattle.co_core.specs.Counts as spec;

use co_core_tree::{CoreExpr, Init};
use co_core_typed::{Scene, Wholes, check};
use co_core_types::{Kind, Known, View, is_same_known};
use co_types::{Head, has_same_head};

fn is_same_target(a: Option<Known<'_>>, b: Option<Known<'_>>) -> bool
    ensures { result ≡ give.same_target (option_map known_type a.entry) (option_map known_type b.entry) }
{
    match (a, b) {
        (None, None) => true,
        (Some(x), Some(y)) => is_same_known(x, y),
        _ => false,
    }
}

fn is_same_kind(a: Kind<'_>, b: Kind<'_>) -> bool
    ensures { result ≡ give.same_shape (seen_shape a.entry) (seen_shape b.entry) }
{
    has_same_head(a.head, b.head) && is_same_target(a.target, b.target)
}

fn refers_to(of: Known<'_>, place: Known<'_>) -> bool
    ensures { result ≡ spec.keeps_given (known_type of.entry) (give.Place (known_type place.entry)) }
{
    has_same_head(of.head(), Head::Ref) && is_same_target(of.target(), Some(place))
}

/// Whether a slot of this type keeps what is given: a value as it is, a place by a reference to it.
fn keeps_given(of: Known<'_>, view: View<'_>) -> bool
    ensures { result ≡ spec.keeps_given (known_type of.entry) (seen view.entry) }
{
    match view {
        View::Place(place) => refers_to(of, place),
        View::Value(kind) => is_same_kind(of.kind(), kind),
        View::Nothing | View::Throws | View::Wrong => false,
    }
}

fn is_suspend_type(head: Head) -> bool
    ensures { result ≡ spec.is_suspend_type head }
{
    match head {
        Head::SuspendAlways | Head::SuspendNever => true,
        _ => false,
    }
}

/// Whether a slot of this type keeps what an expression gives.
pub(crate) fn keeps_expr(scene: Scene<'_>, of: Known<'_>, e: &CoreExpr) -> bool
    ensures { result ≡ spec.keeps_part scene.entry.unit.now scene.entry.func.now (known_type of.entry) (OfExpr e.now) }
{
    keeps_given(of, check(scene, e, &Wholes::Outermost).view)
}

/// Whether a slot of this type keeps what an argument makes.
pub(crate) fn keeps_init(scene: Scene<'_>, of: Known<'_>, init: &Init) -> bool
    ensures { result ≡ spec.keeps_part scene.entry.unit.now scene.entry.func.now (known_type of.entry) (OfInit init.now) }
{
    match init {
        Init::Value(e) => keeps_expr(scene, of, e),
        Init::Members(_) => is_suspend_type(of.head()),
        _ => false,
    }
}
