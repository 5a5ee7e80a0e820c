use refusal::Refusal;

// a refusal's number and its place
// kept: the tables of cases are written in the numbers that users see
pub(crate) fn told(refusal: Refusal) -> (u8, usize) {
    (refusal.number(), refusal.place())
}
