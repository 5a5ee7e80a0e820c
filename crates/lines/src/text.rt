ghost use Rattle.std.specs.Prelude.{ℕ, ◌+◌, ◌^◌, ◌<◌, length};

use crate::reader::{line_width, read_line};
use crate::token::Line;
use refusal::Refusal;

// A text, or what is left of one, and the number of its first line.
#[derive(Clone, Copy, Debug)]
pub struct Text<'a> {
    at: usize,
    rest: &'a [u8],
    // so the lines that are left can all be counted
    ghost room: { at + length rest.now < 2 ^ 64 },
}

// A line, and the text after it.
#[derive(Clone, Copy, Debug)]
pub struct Read<'a> {
    pub line: Line<'a>,
    pub text: Text<'a>,
}

impl<'a> Text<'a> {
    ghost use Rattle.std.specs.Prelude.{◌≡◌, ◌↔◌, ◌==◌, IsSome, IfOk, IfSome};
    ghost use Rattle.refusal.specs.Tellings.{told_as};
    ghost use Rattle.lines.specs.Lines.{first_line, after_line, read_line};
    ghost use Rattle.lines.specs.View.{read as read_as};
    ghost use Rattle.lines.specs.Writing.{ReadAsWritten};

    // A text whose first line has a number.
    pub fn new(first: u32, rest: &'a [u8]) -> Self
        ensures at { result.at ≡ first }
        ensures rest { result.rest.now ≡ rest.now }
    {
        Text {
            at: first as usize,
            rest,
        }
    }

    // The number of the first line.
    pub fn at(self) -> usize
        ensures { result ≡ self.entry.at }
    {
        self.at
    }

    // What the text says.
    pub fn rest(self) -> &'a [u8]
        ensures { result.now ≡ self.entry.rest.now }
    {
        self.rest
    }

    // Whether no line is left.
    pub fn is_empty(self) -> bool
        ensures { result ≡ (length self.entry.rest.now == 0) }
    {
        self.rest.is_empty()
    }

    // Reads the first line. A text with no line left ends early (12); a line that is not of the form is refused with 11.
    pub fn read_line(self) -> Result<Read<'a>, Refusal>
        ensures answer { told_as read_as result ≡ read_line self.entry.at self.entry.rest.now }
        ensures written { ReadAsWritten self.entry.at self.entry.rest.now (told_as read_as result) }
        ensures less { IfOk result (λ x. length x.text.rest.now < length self.entry.rest.now) }
        ensures next { IfOk result (λ x. x.text.at ≡ self.entry.at + 1) }
    {
        let (line, rest) = read_line(self.at, self.rest)?;
        Ok(Read {
            line,
            text: self.past_line(rest),
        })
    }

    // Cuts the first line off, whatever it says. There is none where no line is left.
    pub fn cut_line(self) -> Option<(&'a [u8], Text<'a>)>
        ensures some { IsSome result ↔ (0 < length self.entry.rest.now) }
        ensures first { IfSome result (λ p. p.0.now ≡ first_line self.entry.rest.now) }
        ensures after { IfSome result (λ p. p.1.rest.now ≡ after_line self.entry.rest.now) }
        ensures less { IfSome result (λ p. length p.1.rest.now < length self.entry.rest.now) }
        ensures next { IfSome result (λ p. p.1.at ≡ self.entry.at + 1) }
    {
        if self.is_empty() {
            return None;
        }
        let (line, rest) = self.rest.split_at(line_width(self.rest));
        Some((line, self.past_line(rest)))
    }

    // what is left after one line
    fn past_line(self, rest: &'a [u8]) -> Text<'a>
        requires { length rest.now < length self.rest.now }
        ensures at { result.at ≡ self.entry.at + 1 }
        ensures rest { result.rest.now ≡ rest.now }
    {
        Text {
            at: self.at + 1,
            rest,
        }
    }
}
