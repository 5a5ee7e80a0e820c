// A vector with one entry for each option of a model: how often the option is taken, by its number in the whole model.
ghost use Rattle.std.specs.Prelude.{◌≡◌, ℕ, ◌*◌, ◌^◌, ◌<◌, ◌≤◌, true, ◌∷◌, [], length, take, drop, slice_index, slice_index_or, is_ok, ◌==◌, Ok, sum, IfOk, Decides};
ghost use Rattle.std.specs.List.{range_with_len};
ghost use Rattle.refusal.specs.Tellings.{told, told_as, at_vector};
ghost use Rattle.refusal.specs.Tests.{first_bad, first_false, unless};
ghost use Rattle.process.specs.Process.{joined};
ghost use Rattle.bounds.specs.Vectors.{one_at, gain};
ghost use Rattle.kinds.specs.FlowKinds.{state_holds};
ghost use Rattle.flows.specs.Verdicts.{inflows, judgement, spending, tally_after};
ghost use Rattle.flows.specs.Accepts.{Accepted, FirstNamed};

use crate::Flow;
use crate::pouring::pour;
use kinds::FlowKind;
use process::{Model, option_total, span_of};
use refusal::Refusal;
use vectors::first_above;

// A vector of a kind, with as many entries as its model has options.
#[derive(Drop)]
pub(crate) struct Amounts<'a, M: Model> {
    model: &'a M,
    kind: FlowKind,
    entries: &'a [u32],
    ghost one_each: { length entries.now ≡ length (joined (M.Model.meaning model.now)) },
    // what the type of the entries says, for the bounds of sums
    ghost fits: { (o : ℕ) → slice_index entries.now o < 2 ^ 32 },
}

impl<'a, M: Model> Amounts<'a, M> {
    // 41 where the lengths differ
    pub(crate) fn new(
        model: &'a M,
        kind: FlowKind,
        entries: &'a [u32],
    ) -> Result<Amounts<'a, M>, Refusal>
        requires { M.Model.valid model.now }
        ensures answer { told_as (λ y. y.entries.now) result ≡ unless (at_vector 41) (first_false ((length entries.now == length (joined (M.Model.meaning model.now))) ∷ [])) (Ok entries.now) }
        ensures parts { IfOk result (λ y. (y.model.now ≡ model.now) × (y.kind ≡ kind)) }
    {
        if entries.len() != option_total(model) {
            return Err(Refusal::VectorLength(0));
        }
        Ok(Amounts {
            model,
            kind,
            entries,
        })
    }

    // 41 of the tally, 42, 43 or what the vector gives, with the inflows in the tally once 42 has passed
    pub(crate) fn judge(&self, tally: &mut [u64]) -> Result<Flow, Refusal>
        requires { M.Model.valid self.now.model.now }
        ensures answer { told result ≡ unless (at_vector 41) (first_false (true ∷ (true ∷ ((length tally.old == length (M.Model.meaning self.now.model.now)) ∷ [])))) (judgement self.now.kind M.Model.scale (M.Model.meaning self.now.model.now) self.now.entries.now) }
        ensures tally { tally.new ≡ tally_after (told result) (M.Model.meaning self.now.model.now) self.now.entries.now tally.old }
        ensures accepts { Decides (is_ok result) (Accepted self.now.kind M.Model.scale (M.Model.meaning self.now.model.now) self.now.entries.now × (length tally.old ≡ length (M.Model.meaning self.now.model.now))) }
        ensures first { FirstNamed self.now.kind M.Model.scale (M.Model.meaning self.now.model.now) self.now.entries.now (told result) }
    {
        if tally.len() != self.model.states() {
            return Err(Refusal::VectorLength(2));
        }
        if let Some(index) = first_above(self.entries, 1_073_741_824) {
            return Err(Refusal::VectorEntry(index));
        }
        let sum = self.fill_tally(tally);
        if let Some(state) = self.first_unbalanced(tally) {
            return Err(Refusal::VectorInequality(state));
        }
        Ok(Flow {
            sum,
            visits: sum_of(self.entries),
        })
    }

    // fills the tally with the inflows, and tells what comes to the target
    fn fill_tally(&self, tally: &mut [u64]) -> u64
        requires valid { M.Model.valid self.now.model.now }
        requires level { length tally.old ≡ length (M.Model.meaning self.now.model.now) }
        ensures tally { tally.new ≡ inflows (M.Model.meaning self.now.model.now) self.now.entries.now }
        ensures gain { result ≡ gain (M.Model.meaning self.now.model.now) self.now.entries.now }
    {
        tally.fill(0);
        let mut gained = 0;
        // kept: a model answers by the number of the state, so a range is the plainest loop
        for state in 0..self.model.states() {
            for (option, flow) in self.own(state).iter().enumerate() {
                gained += pour(self.model, state, option, *flow, tally);
            }
        }
        gained
    }

    // the first state whose inequality fails
    fn first_unbalanced(&self, tally: &[u64]) -> Option<usize>
        requires valid { M.Model.valid self.now.model.now }
        requires filled { tally.now ≡ inflows (M.Model.meaning self.now.model.now) self.now.entries.now }
        ensures { result ≡ first_bad (state_holds self.now.kind M.Model.scale (M.Model.meaning self.now.model.now) self.now.entries.now) 0 (range_with_len 0 (length (M.Model.meaning self.now.model.now))) }
    {
        (0..self.model.states()).find(|state| !self.balanced_at(tally, *state))
    }

    // whether the inequality of a state holds
    fn balanced_at(&self, tally: &[u64], state: usize) -> bool
        requires valid { M.Model.valid self.now.model.now }
        requires filled { tally.now ≡ inflows (M.Model.meaning self.now.model.now) self.now.entries.now }
        requires state { state < length (M.Model.meaning self.now.model.now) }
        ensures { result ≡ state_holds self.now.kind M.Model.scale (M.Model.meaning self.now.model.now) self.now.entries.now state }
    {
        let scale = u64::from(M::total_weight());
        let spent = sum_of(self.own(state));
        let grant = grant_of(scale, state);
        self.kind.balances(scale * spent, tally[state] + grant)
    }

    // the entries of a state's options
    fn own(&self, state: usize) -> &[u32]
        requires valid { M.Model.valid self.now.model.now }
        requires state { state < length (M.Model.meaning self.now.model.now) }
        ensures entries { result.now ≡ take (length (slice_index_or (M.Model.meaning self.now.model.now) state [])) (drop (length (joined (take state (M.Model.meaning self.now.model.now)))) self.now.entries.now) }
        ensures count { length result.now ≡ length (slice_index_or (M.Model.meaning self.now.model.now) state []) }
        ensures few { length result.now ≤ 16384 }
    {
        let span = span_of(self.model, state);
        &self.entries[span.first..span.first + span.count]
    }

    // Marks the states some entry of which is above 0.
    pub(crate) fn mark_spent(&self, marks: &mut [u8])
        requires valid { M.Model.valid self.now.model.now }
        requires level { length marks.old ≡ length (M.Model.meaning self.now.model.now) }
        ensures { marks.new ≡ spending (M.Model.meaning self.now.model.now) self.now.entries.now }
    {
        for (state, mark) in marks.iter_mut().enumerate() {
            *mark = u8::from(sum_of(self.own(state)) > 0);
        }
    }
}

// the sum of some entries
fn sum_of(entries: &[u32]) -> u64
    requires { length entries.now ≤ 16384 }
    ensures value { result ≡ sum entries.now }
    ensures bound { result ≤ 2 ^ 46 }
{
    entries.iter().map(|entry| u64::from(*entry)).sum()
}

// what the start is granted: certainty, at the scale
fn grant_of(scale: u64, state: usize) -> u64
    requires { scale ≤ 65536 }
    ensures value { result ≡ scale * 1000000 * one_at 0 state }
    ensures bound { result ≤ 2 ^ 36 }
{
    if state == 0 { scale * 1_000_000 } else { 0 }
}
