ghost use Rattle.std.specs.Prelude.{◌≡◌};
ghost use Rattle.lines.specs.View.{said_by};
ghost use Rattle.vector_text.specs.Machine.{item_of};

use crate::format::Kind;
use lines::Line;

// A line of vector text by what it means there.
#[derive(Clone, Copy, PartialEq, Eq, Debug)]
pub enum Item {
    Vector(Kind),
    Entry(u32),
    End,
    // kept: an `Option` of an item would be no plainer, since `From` gives an item for every line
    Other,
}

impl From<Line<'_>> for Item {
    ghost from_gives = { λ line item. item ≡ item_of (said_by line) };

    fn from(line: Line<'_>) -> Item {
        match line {
            Line::Word {
                key: b"end",
                value: b"vector",
                ..
            } => Item::End,
            Line::Word {
                key: b"vector",
                value,
                ..
            } => match Kind::named(value) {
                Some(kind) => Item::Vector(kind),
                None => Item::Other,
            },
            Line::Number {
                key: b"entry",
                number,
                ..
            } => Item::Entry(number),
            _ => Item::Other,
        }
    }
}
