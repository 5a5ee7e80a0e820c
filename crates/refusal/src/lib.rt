#![tactic(auto)]

ghost use Rattle.std.specs.Prelude.{◌≡◌, Decides};
ghost use Rattle.refusal.specs.Tellings.{number_of, layer_of, place_of, same_telling, tell};
ghost use Rattle.refusal.specs.declared.reason.Refusal.{Refusal as AnyRefusal};
ghost use Rattle.std.specs.Cmp.Rules.{comparing};
ghost use Rattle.std.proofs.Common.{rules};
ghost use Rattle.std.specs.Cmp as Keys;

mod layer;
mod reason;

pub use layer::Layer;
pub use reason::Refusal;

impl Refusal {
    // The number; with the layer and the place it tells a refusal from every other.
    pub fn number(self) -> u8
        ensures value { result ≡ number_of self }
        ensures apart { (other : AnyRefusal) → tell other ≡ tell self → other ≡ self }
    {
        match self {
            Refusal::TextLine(_) => 11,
            Refusal::TextOrder(_) => 12,
            Refusal::TextValue(_) => 13,
            Refusal::TextRoom(_) => 14,
            Refusal::TextSum(_) => 15,
            Refusal::TableLength(_) => 21,
            Refusal::TableStarts(_) => 22,
            Refusal::TableMove(_) => 23,
            Refusal::TableSum(_) => 24,
            Refusal::LadderTries => 31,
            Refusal::LadderChances(_) => 32,
            Refusal::VectorLength(_) => 41,
            Refusal::VectorEntry(_) => 42,
            Refusal::VectorInequality(_) => 43,
            Refusal::LookAheadReach(_) => 44,
            Refusal::RegisterChance => 45,
            Refusal::PartMarks(_) => 46,
            Refusal::RegisterFull => 51,
        }
    }

    // The layer that refused.
    pub fn layer(self) -> Layer
        ensures { result ≡ layer_of self }
    {
        match self {
            Refusal::TextLine(_)
            | Refusal::TextOrder(_)
            | Refusal::TextValue(_)
            | Refusal::TextRoom(_)
            | Refusal::TextSum(_) => Layer::Text,
            Refusal::TableLength(_)
            | Refusal::TableStarts(_)
            | Refusal::TableMove(_)
            | Refusal::TableSum(_) => Layer::Table,
            Refusal::LadderTries | Refusal::LadderChances(_) => Layer::Ladder,
            Refusal::VectorLength(_) | Refusal::VectorEntry(_) | Refusal::VectorInequality(_) =>
                Layer::Vector,
            Refusal::LookAheadReach(_) => Layer::LookAhead,
            Refusal::RegisterChance | Refusal::RegisterFull => Layer::Register,
            Refusal::PartMarks(_) => Layer::Part,
        }
    }

    // The one place that it names, and 0 where it names none.
    pub fn place(self) -> usize
        ensures { result ≡ place_of self }
    {
        match self {
            Refusal::TextLine(place)
            | Refusal::TextOrder(place)
            | Refusal::TextValue(place)
            | Refusal::TextRoom(place)
            | Refusal::TextSum(place)
            | Refusal::TableLength(place)
            | Refusal::TableStarts(place)
            | Refusal::TableMove(place)
            | Refusal::TableSum(place)
            | Refusal::LadderChances(place)
            | Refusal::VectorLength(place)
            | Refusal::VectorEntry(place)
            | Refusal::VectorInequality(place)
            | Refusal::LookAheadReach(place)
            | Refusal::PartMarks(place) => place,
            Refusal::LadderTries | Refusal::RegisterChance | Refusal::RegisterFull => 0,
        }
    }
}

// Two refusals are the same exactly when they are told alike.
// kept: a derived `==` promises nothing; this one promises that it decides equality
impl PartialEq for Refusal {
    ghost eq = { same_telling };

    ghost laws = { Keys.partial_equiv_from_equiv (Prim.search (comparing, rules)) };

    fn eq(&self, other: &Refusal) -> bool
        ensures value { result ≡ same_telling self.now other.now }
        ensures same { Decides result (self.now ≡ other.now) }
    {
        if self.number() != other.number() || self.place() != other.place() {
            return false;
        }
        self.layer() == other.layer()
    }
}

impl Eq for Refusal {
    ghost laws = { Prim.search (comparing, rules) };
}
