ghost use Rattle.std.specs.Prelude.{◌≡◌, ◌+◌, ◌<◌, ◌≤◌, ◌^◌, length};
ghost use Rattle.co_lex.specs.Place as spec;

use co_base::Span;

/// The place after a byte at `at`.
pub fn after_byte(at: Span, byte: u8) -> Span
    requires { at.line + at.col + 1 < 2 ^ 32 }
    ensures value { result ≡ spec.after_byte at byte }
    ensures near { 1 ≤ at.col → (1 ≤ result.col) × (result.line + result.col ≤ at.line + at.col + 1) }
{
    if byte == b'\n' {
        Span {
            line: at.line + 1,
            col: 1,
        }
    } else {
        Span {
            line: at.line,
            col: at.col + 1,
        }
    }
}

/// The place after these bytes, the first of which stands at `at`.
pub fn position_after(at: Span, bytes: &[u8]) -> Span
    requires begun { 1 ≤ at.col }
    requires room { at.line + at.col + length bytes.now < 2 ^ 32 }
    ensures value { result ≡ spec.position_after at bytes.now }
    ensures near { (1 ≤ result.col) × (result.line + result.col ≤ at.line + at.col + length bytes.now) }
{
    let mut place = at;
    for byte in bytes {
        place = after_byte(place, *byte);
    }
    place
}
