//! Laws of the definitions. Each function does nothing: its clause is the law.
ghost use Rattle.co_types.specs.Laws.{ChoosesOnce, SameIsEqual, SpecialRecurs};

/// A call has one choice.
pub fn chooses_once()
    ensures { ChoosesOnce }
{}

/// The specials of a class follow from its own members and from those of its fields' classes.
pub fn special_recurs()
    ensures { SpecialRecurs }
{}

/// Two types are one exactly where they are equal.
pub fn same_is_equal()
    ensures { SameIsEqual }
{}
