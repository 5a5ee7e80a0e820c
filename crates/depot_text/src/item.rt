ghost use Rattle.std.specs.Prelude.{◌≡◌};
ghost use Rattle.lines.specs.View.{said_by};
ghost use Rattle.encoding.specs.Writing.{place_number};
ghost use Rattle.depot_text.specs.Items.{word_item, number_item, item_of};
ghost use Rattle.depot_text.specs.Machine.{exists as exists_in};
ghost use Rattle.depot_text.specs.Loading.{place_of};

use lines::Line;

// A place as a text spells it.
#[derive(Clone, Copy, PartialEq, Eq, Debug)]
pub enum Spelled {
    State(u32),
    Target,
    Exit,
}

impl Spelled {
    // whether a depot of so many states has the place
    pub(crate) fn exists(self, states: u32) -> bool
        ensures { result ≡ exists_in states self }
    {
        match self {
            Spelled::State(state) => state < states,
            Spelled::Target | Spelled::Exit => true,
        }
    }
}

// The number that the lists use for a place.
impl From<Spelled> for u32 {
    ghost from_gives = { λ place number. number ≡ place_number (place_of place) };

    fn from(place: Spelled) -> u32 {
        match place {
            Spelled::State(state) => state,
            Spelled::Target => 4096,
            Spelled::Exit => 4097,
        }
    }
}

// A line of depot text by what it means there.
#[derive(Clone, Copy, PartialEq, Eq, Debug)]
pub enum Item {
    Kind,
    States(u32),
    State(u32),
    Choice(u32),
    To(Spelled),
    Weight(u32),
    End,
    Other,
}

fn word_item(key: &[u8], value: &[u8]) -> Item
    ensures { result ≡ word_item key.now value.now }
{
    match (key, value) {
        (b"kind", b"depot") => Item::Kind,
        (b"to", b"target") => Item::To(Spelled::Target),
        (b"to", b"exit") => Item::To(Spelled::Exit),
        (b"end", b"depot") => Item::End,
        _ => Item::Other,
    }
}

fn number_item(key: &[u8], number: u32) -> Item
    ensures { result ≡ number_item key.now number }
{
    match key {
        b"states" => Item::States(number),
        b"state" => Item::State(number),
        b"option" => Item::Choice(number),
        b"to" => Item::To(Spelled::State(number)),
        b"weight" => Item::Weight(number),
        _ => Item::Other,
    }
}

impl From<Line<'_>> for Item {
    ghost from_gives = { λ line item. item ≡ item_of (said_by line) };

    fn from(line: Line<'_>) -> Item {
        match line {
            Line::Word { key, value, .. } => word_item(key, value),
            Line::Number { key, number, .. } => number_item(key, number),
        }
    }
}
