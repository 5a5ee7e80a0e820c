ghost use Rattle.std.specs.Prelude.{◌≡◌};
ghost use Rattle.lines.specs.View.{line_at};

// A line with its number. Key and value are parts of the text.
#[derive(Clone, Copy, Debug)]
pub enum Line<'a> {
    // the value is a word
    Word {
        at: usize,
        key: &'a [u8],
        value: &'a [u8],
    },
    // the value is a number, with its digits
    Number {
        at: usize,
        key: &'a [u8],
        value: &'a [u8],
        number: u32,
    },
}

impl Line<'_> {
    // The number of the line.
    pub fn at(self) -> usize
        ensures { result ≡ line_at self.entry }
    {
        match self {
            Line::Word { at, .. } => at,
            Line::Number { at, .. } => at,
        }
    }
}
