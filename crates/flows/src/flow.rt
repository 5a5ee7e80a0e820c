// What an accepted hope or risk gives: the sum of its entries, each times the weight of its option to the target, not
// yet divided by the scale; and the sum of its entries.
#[derive(Clone, Copy, PartialEq, Eq, Debug)]
pub struct Flow {
    pub sum: u64,
    pub visits: u64,
}
