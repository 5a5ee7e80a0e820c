// What came of a call, as the tables of cases write it: a refusal by its number and its place.
// kept: the tables of cases are written in the numbers that users see
use refusal::Refusal;

pub(crate) type Told = Result<(), (u8, usize)>;

pub(crate) fn told(answer: Result<(), Refusal>) -> Told {
    answer.map_err(|refusal| (refusal.number(), refusal.place()))
}
