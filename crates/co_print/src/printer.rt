ghost use Rattle.std.specs.Prelude.{◌≡◌, ◌∷◌, ◌++◌, [], OnOk};
ghost use Rattle.co_lex.specs.declared.token.TokenKind.TheVariants as kind;
ghost use Rattle.co_tree.specs.Piece.{if_said, standard, of_corun, token};
ghost use Rattle.co_print.specs.Printed.{gap_text, before_line, put_bytes, put_token, put_line, put_all, start};
ghost use Rattle.co_print.specs.Spelling.{escaped, escaped_all};

use crate::buffer::Buffer;
use crate::spelling::{mark_text, suffix, word_text};
use co_base::{NoMemory, Num};
use co_lex::{Mark, Word};
use itoa::Buffer as Digits;
use std::alloc::Global;

/// What stands between the last token and the next one.
#[derive(Clone, Copy)]
pub enum Gap {
    Nothing,
    Space,
    NewLine,
}

/// The text so far, and what stands before the next token.
#[derive(Drop)]
pub struct Printer {
    pub text: Buffer,
    pub gap: Gap,
}

fn gap_text(gap: Gap) -> &'static [u8]
    ensures { result.now ≡ gap_text gap }
{
    match gap {
        Gap::Nothing => b"",
        Gap::Space => b" ",
        Gap::NewLine => b"\n",
    }
}

fn before_line(gap: Gap) -> Gap
    ensures { result ≡ before_line gap }
{
    match gap {
        Gap::Nothing => Gap::Nothing,
        Gap::Space => Gap::NewLine,
        Gap::NewLine => Gap::NewLine,
    }
}

impl Printer {
    pub fn new(alloc: Global) -> Printer
        ensures { result ≡ start }
    {
        Printer {
            text: Buffer::new(alloc),
            gap: Gap::Nothing,
        }
    }

    /// The next token begins a line.
    #[tactic(auto, unfolding(crate::specs::Printed::put_line))]
    pub fn line(&mut self)
        ensures { self.new ≡ put_line self.old }
    {
        self.gap = before_line(self.gap);
    }

    #[tactic(auto, unfolding(crate::specs::Printed::put_bytes))]
    fn token(&mut self, bytes: &[u8]) -> Result<(), NoMemory>
        ensures { OnOk result (self.new ≡ put_bytes self.old bytes.now) }
    {
        self.text.push_all(gap_text(self.gap))?;
        self.text.push_all(bytes)?;
        self.gap = Gap::Space;
        Ok(())
    }

    #[tactic(auto, unfolding(crate::specs::Printed::put_token))]
    pub fn word(&mut self, word: Word) -> Result<(), NoMemory>
        ensures { OnOk result (self.new ≡ put_token self.old (kind.Word word)) }
    {
        self.token(word_text(word))
    }

    #[tactic(auto, unfolding(crate::specs::Printed::put_token))]
    pub fn mark(&mut self, mark: Mark) -> Result<(), NoMemory>
        ensures { OnOk result (self.new ≡ put_token self.old (kind.Mark mark)) }
    {
        self.token(mark_text(mark))
    }

    #[tactic(auto, unfolding(crate::specs::Printed::put_token))]
    pub fn name(&mut self, name: &[u8]) -> Result<(), NoMemory>
        ensures { OnOk result (self.new ≡ put_token self.old (kind.Name name.now)) }
    {
        self.token(name)
    }

    #[tactic(auto, unfolding(crate::specs::Printed::put_token, crate::specs::Printed::put_bytes))]
    pub fn number(&mut self, num: Num, value: i64) -> Result<(), NoMemory>
        ensures { OnOk result (self.new ≡ put_token self.old (kind.Int num value)) }
    {
        let mut digits = Digits::new();
        self.token(digits.format(value).as_bytes())?;
        self.text.push_all(suffix(num))?;
        Ok(())
    }

    #[tactic(auto, unfolding(crate::specs::Printed::put_token, crate::specs::Printed::put_bytes))]
    pub fn literal(&mut self, text: &[u8]) -> Result<(), NoMemory>
        ensures { OnOk result (self.new ≡ put_token self.old (kind.Lit text.now)) }
    {
        self.token(b"\"")?;
        push_escaped(&mut self.text, text)?;
        self.text.push(b'"')?;
        Ok(())
    }

    /// The end of the file, which only ends the last line.
    #[tactic(auto, unfolding(crate::specs::Printed::put_token))]
    pub fn end(&mut self) -> Result<(), NoMemory>
        ensures { OnOk result (self.new ≡ put_token self.old kind.End) }
    {
        self.token(b"")
    }

    /// The word, where it is said.
    pub fn word_if(&mut self, is_said: bool, word: Word) -> Result<(), NoMemory>
        ensures { OnOk result (self.new ≡ put_all self.old (if_said is_said (token (kind.Word word)))) }
    {
        if is_said {
            self.word(word)?;
        }
        Ok(())
    }

    /// The mark, where it is said.
    pub fn mark_if(&mut self, is_said: bool, mark: Mark) -> Result<(), NoMemory>
        ensures { OnOk result (self.new ≡ put_all self.old (if_said is_said (token (kind.Mark mark)))) }
    {
        if is_said {
            self.mark(mark)?;
        }
        Ok(())
    }

    /// A name after `std ::`.
    pub fn standard(&mut self, name: &[u8]) -> Result<(), NoMemory>
        ensures { OnOk result (self.new ≡ put_all self.old (standard name.now)) }
    {
        self.name(b"std")?;
        self.mark(Mark::Scope)?;
        self.name(name)?;
        Ok(())
    }

    /// A name after `corun ::`.
    pub fn of_corun(&mut self, name: &[u8]) -> Result<(), NoMemory>
        ensures { OnOk result (self.new ≡ put_all self.old (of_corun name.now)) }
    {
        self.name(b"corun")?;
        self.mark(Mark::Scope)?;
        self.name(name)?;
        Ok(())
    }
}

fn push_escaped(text: &mut Buffer, bytes: &[u8]) -> Result<(), NoMemory>
    ensures { OnOk result (text.new ≡ text.old ++ escaped_all bytes.now) }
{
    for byte in bytes {
        push_byte(text, *byte)?;
    }
    Ok(())
}

fn push_byte(text: &mut Buffer, byte: u8) -> Result<(), NoMemory>
    ensures { OnOk result (text.new ≡ text.old ++ escaped byte) }
{
    if byte == b'"' || byte == b'\\' {
        text.push(b'\\')?;
    }
    text.push(byte)?;
    Ok(())
}
