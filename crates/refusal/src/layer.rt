// The part of the product that refused.
#[derive(Clone, Copy, PartialEq, Eq, Debug)]
pub enum Layer {
    Text,
    Table,
    Ladder,
    Vector,
    LookAhead,
    Register,
    Part,
}
