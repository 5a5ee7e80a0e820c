ghost use Rattle.std.specs.Prelude.{◌≡◌, Some};
ghost use Rattle.vector_text.specs.Words.{kind_word, kind_named};

use std::fmt;

// The kinds of vector that a solver proposes.
#[derive(Clone, Copy, PartialEq, Eq, Debug)]
pub enum Kind {
    Cap,
    Floor,
    Delay,
    Hope,
    Risk,
}

impl Kind {
    const ALL: [Kind; 5] = [Kind::Cap, Kind::Floor, Kind::Delay, Kind::Hope, Kind::Risk];

    // The word for a kind, in the text and in what is printed.
    pub fn word(self) -> &'static str
        ensures { result.now ≡ kind_word self }
    {
        match self {
            Kind::Cap => "cap",
            Kind::Floor => "floor",
            Kind::Delay => "delay",
            Kind::Hope => "hope",
            Kind::Risk => "risk",
        }
    }

    // The kind that a word names.
    pub fn named(word: &[u8]) -> Option<Kind>
        ensures { result ≡ kind_named word.now }
    {
        Kind::ALL
            .iter()
            .copied()
            .find(|kind| word == kind.word().as_bytes())
    }
}

impl fmt::Display for Kind {
    ghost output = { λ kind. Some (kind_word kind) };

    fn fmt<W: fmt::Write>(&self, f: &mut fmt::Formatter<W>) -> fmt::Result {
        f.write_str(self.word())
    }
}

// The kind of line that was read last, with what is known after it.
#[derive(Clone, Copy, PartialEq, Eq, Debug)]
pub enum Phase {
    Start,
    Vector(Kind),
    Entry { kind: Kind, entry: u32 },
    End(Kind),
}

// The format of vector text, somewhere in a vector: how many entries the lent list holds, and how many have come.
#[derive(Clone, Copy, PartialEq, Eq, Debug)]
pub struct Vector {
    pub phase: Phase,
    pub room: usize,
    pub count: usize,
}
