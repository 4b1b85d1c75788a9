// Every test of one move or observation, in their order.
#![tactic(auto)]

ghost use Rattle.paper.specs.Refusal.Verdict.{Verdict};
ghost use Rattle.paper.specs.Panel.Made.{call_of, choices_of};
ghost use Rattle.paper.specs.Refusal.Numbers.{verdict_of};
ghost use Rattle.step_tests.specs.Call.{Measured, call_rules};

use paper::{Lengths, Refusal, Task};

// The refusal of the first test that fails: the panel's, the task's own, and last those on the totals.
pub fn test_call(
    t: Task,
    spins: &[i8],
    totals: &[i64],
    fwd: &[u32],
    bwd: &[u32],
    pins: &[u8],
    couplings: &[i32],
    cuts: &[f32],
    choices: &[u8],
    greys: &[u8],
    l: Lengths,
) -> Result<(), Refusal>
    requires { Measured spins.now fwd.now bwd.now couplings.now choices.now greys.now l }
    ensures { Verdict
        (call_rules t
        (call_of t fwd.now bwd.now pins.now couplings.now cuts.now)
        (choices_of choices.now greys.now)
        spins.now totals.now l)
        (verdict_of result) }
{
    tests::panel::test_panel(t, spins, totals, fwd, bwd, pins, couplings, l)?;
    tests::choices::test_choices(t, spins, cuts, choices, greys)?;
    let keeps = t.keeps;
    let form = t.form;
    let group = t.group;
    if !systems::group_totals_fit(keeps.totals(form), totals, group) {
        return Err(Refusal::Totals);
    }
    Ok(())
}
