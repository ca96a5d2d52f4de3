ghost use Rattle.std.specs.Prelude.{◌≡◌, slice_get};
ghost use Rattle.co_core_typing.specs.Gives as give;
ghost use Rattle.co_core_types.specs.Seen.{seen};
ghost use Rattle.co_core_typed.specs.Seen.{wholes_of};

use co_base::ClassId;
use co_core_types::{View, class_place};

/// The classes of the objects that the enclosing lists of members are making, the innermost first.
#[derive(Clone, Copy)]
pub enum Wholes<'a> {
    Outermost,
    Inside(ClassId, &'a Wholes<'a>),
}

/// The class of the object that the enclosing list of this number is making.
#[tactic(auto, using(crate::proofs::Opening::opened_wholes))]
fn whole_at(wholes: &Wholes<'_>, at: u32) -> Option<ClassId>
    ensures { result ≡ slice_get (wholes_of wholes.now) at }
{
    match wholes {
        Wholes::Outermost => None,
        Wholes::Inside(class, outer) => {
            if at == 0 {
                Some(*class)
            } else {
                whole_at(outer, at - 1)
            }
        }
    }
}

/// The object that an enclosing list of members is making.
pub(crate) fn whole_place<'a>(wholes: &Wholes<'_>, at: u32) -> View<'a>
    ensures { seen result ≡ give.whole_place (wholes_of wholes.now) at }
{
    class_place(whole_at(wholes, at))
}
