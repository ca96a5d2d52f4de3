ghost use Rattle.std.specs.Prelude.{◌≡◌};
ghost use Rattle.co_base.specs.Integers.{convert_of, held_by, word_of};

use crate::kinds::Num;

/// The value of the type that `v` converts to, modulo 2^N [conv.integral]; a `bool` is whether it is
/// not 0 [conv.bool]. A `std::size_t`, before or after, is its bit pattern.
pub fn convert(to: Num, v: i64) -> i64
    ensures { result ≡ convert_of to v }
{
    match to {
        Num::Bool => i64::from(v != 0),
        Num::Int => i64::from((v.rem_euclid(1 << 32) as u32).cast_signed()),
        Num::Long | Num::Size => v,
    }
}

/// The word of 64 bits that holds the value.
pub fn bits(v: i64) -> u64
    ensures { result ≡ word_of v }
{
    v.cast_unsigned()
}

/// The value that the word holds.
pub fn value(word: u64) -> i64
    ensures { result ≡ held_by word }
{
    word.cast_signed()
}
