//! Laws of the language's integers. Each function does nothing: its clause is the law.
ghost use Rattle.co_base.specs.Laws.{BitsOfValue, ConvertsByValue, ConvertsOnce, ConvertsToItself, ConvertsToValues, GivesTruth, GivesValues, HoldsItsValue, IsCongruent, IsHeld, ValueOfBits};

/// An i64 that holds a value of a type holds one in its range, and no other i64 holds that one.
pub fn holds_its_value()
    ensures { HoldsItsValue }
{}

/// Each integer in the range of a type is held by an i64.
pub fn is_held()
    ensures { IsHeld }
{}

/// An integer that is reduced lies in the range of the type, and differs by a multiple of 2^N.
pub fn is_congruent()
    ensures { IsCongruent }
{}

/// Each result of an operation is a value of the type in which it is computed.
pub fn gives_values()
    ensures { GivesValues }
{}

/// A comparison gives 0 or 1.
pub fn gives_truth()
    ensures { GivesTruth }
{}

/// What an integer converts to is a value of the type.
pub fn converts_to_values()
    ensures { ConvertsToValues }
{}

/// A value of the type converts to itself.
pub fn converts_to_itself()
    ensures { ConvertsToItself }
{}

/// To convert twice is to convert once.
pub fn converts_once()
    ensures { ConvertsOnce }
{}

/// A conversion goes by the value that an i64 holds in the type from which it converts.
pub fn converts_by_value()
    ensures { ConvertsByValue }
{}

/// The value of the bits of an i64 is that i64.
pub fn value_of_bits()
    ensures { ValueOfBits }
{}

/// The bits of the value of a word are that word.
pub fn bits_of_value()
    ensures { BitsOfValue }
{}
