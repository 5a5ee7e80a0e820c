#![tactic(auto)]

ghost use Rattle.std.specs.Prelude.{◌≡◌, length, is_ok, Decides};
ghost use Rattle.refusal.specs.Tellings.{told};
ghost use Rattle.flows.specs.Verdicts.{hope_verdict, risk_verdict, tally_after, hope_marks};
ghost use Rattle.flows.specs.Accepts.{Accepted, FirstNamed};

mod amounts;
mod flow;
mod pouring;

use amounts::Amounts;
pub use flow::Flow;
use kinds::FlowKind;
use process::Model;
use refusal::Refusal;

// A hope: some order reaches the target with nearly the chance that the sum gives. Acceptance marks the states that
// carry it; the tally holds the inflows once lengths and entries have passed.
// kept: three buffers and no struct, since each is the caller's own and a wrong length of each is told apart
pub fn check_hope<M: Model>(
    model: &M,
    entries: &[u32],
    marks: &mut [u8],
    tally: &mut [u64],
) -> Result<Flow, Refusal>
    requires { M.Model.valid model.now }
    ensures answer { told result ≡ hope_verdict M.Model.scale (M.Model.meaning model.now) entries.now (length marks.old) (length tally.old) }
    ensures marks { marks.new ≡ hope_marks (told result) (M.Model.meaning model.now) entries.now marks.old }
    ensures tally { tally.new ≡ tally_after (told result) (M.Model.meaning model.now) entries.now tally.old }
    ensures accepts { Decides (is_ok result) (Accepted FlowKind.Hope M.Model.scale (M.Model.meaning model.now) entries.now × (length marks.old ≡ length (M.Model.meaning model.now)) × (length tally.old ≡ length (M.Model.meaning model.now))) }
    ensures first { FirstNamed FlowKind.Hope M.Model.scale (M.Model.meaning model.now) entries.now (told result) }
{
    let amounts = Amounts::new(model, FlowKind::Hope, entries)?;
    if marks.len() != model.states() {
        return Err(Refusal::VectorLength(1));
    }
    let flow = amounts.judge(tally)?;
    amounts.mark_spent(marks);
    Ok(flow)
}

// A risk: some order reaches the target with no more than the chance that the sum gives.
pub fn check_risk<M: Model>(model: &M, entries: &[u32], tally: &mut [u64]) -> Result<Flow, Refusal>
    requires { M.Model.valid model.now }
    ensures answer { told result ≡ risk_verdict M.Model.scale (M.Model.meaning model.now) entries.now (length tally.old) }
    ensures tally { tally.new ≡ tally_after (told result) (M.Model.meaning model.now) entries.now tally.old }
    ensures accepts { Decides (is_ok result) (Accepted FlowKind.Risk M.Model.scale (M.Model.meaning model.now) entries.now × (length tally.old ≡ length (M.Model.meaning model.now))) }
    ensures first { FirstNamed FlowKind.Risk M.Model.scale (M.Model.meaning model.now) entries.now (told result) }
{
    Amounts::new(model, FlowKind::Risk, entries)?.judge(tally)
}
