ghost use Rattle.std.specs.Prelude.{◌≡◌, ◌+◌, ◌≤◌, [], ◌++◌, length, decimal};
ghost use Rattle.std.specs.Fmt.{signed_decimal};

use arrayvec::ArrayString;
use itoa::Buffer;
use std::marker::Model;

/// A line under way, of at most 160 bytes, which takes no memory. Contracts see its bytes.
#[derive(Drop)]
pub struct Line {
    text: ArrayString<160>,
}

impl Model for Line {
    ghost use Rattle.std.specs.Prelude.{List, ℕ};

    ghost Value = { List ℕ };

    ghost view = { λ l. l.text.bytes };
}

impl Line {
    pub fn new() -> Line
        ensures { result ≡ [] }
    {
        Line {
            text: ArrayString::new(),
        }
    }

    pub fn as_bytes(&self) -> &[u8]
        ensures { result.now ≡ self.now }
    {
        self.text.as_str().as_bytes()
    }

    /// These words at the end.
    pub fn push(&mut self, words: &str)
        requires { length self.old + length words.now ≤ 160 }
        ensures { self.new ≡ self.old ++ words.now }
    {
        let _ = self.text.try_push_str(words);
    }

    /// This number at the end, in decimal digits.
    pub fn push_unsigned(&mut self, number: u64)
        requires { length self.old + 20 ≤ 160 }
        ensures text { self.new ≡ self.old ++ decimal number }
        ensures short { length self.new ≤ length self.old + 20 }
    {
        let mut buffer = Buffer::new();
        self.push(buffer.format(number));
    }

    /// This number at the end, in decimal digits, with a `-` before it where it is below 0.
    pub fn push_signed(&mut self, number: i64)
        requires { length self.old + 20 ≤ 160 }
        ensures text { self.new ≡ self.old ++ signed_decimal number }
        ensures short { length self.new ≤ length self.old + 20 }
    {
        let mut buffer = Buffer::new();
        self.push(buffer.format(number));
    }
}
