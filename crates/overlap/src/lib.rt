// The move that trusts no caller: the tests, then the task.
#![tactic(auto)]

ghost use Rattle.paper.specs.Answer.Totals.{KeepAnswers};
ghost use Rattle.paper.specs.Panel.Made.{call_of, choices_of, buffers_of};
ghost use Rattle.paper.specs.Panel.Takes.{keeps_by};
ghost use Rattle.paper.specs.Answer.Cases.{answer_of};

use paper::{Lengths, Outcome, Refusal, Task};

// One move or observation in any mode and form. An input that the mode and form do not take is ignored, whatever it holds, and so are totals that are
// not kept.
pub fn overlap_step(
    t: Task,
    spins: &mut [i8],
    totals: &mut [i64],
    fwd: &[u32],
    bwd: &[u32],
    pins: &[u8],
    couplings: &[i32],
    cuts: &[f32],
    choices: &[u8],
    greys: &[u8],
    labels: &mut [u32],
    grey_labels: &mut [u32],
    counts: &mut [u32],
    sizes: &mut [u32],
    members: &mut [u8],
    found: &mut [u32],
    grey_found: &mut [u32],
) -> Result<Outcome, Refusal>
    ensures { KeepAnswers
        (keeps_by t.keeps t.form)
        (call_of t fwd.now bwd.now pins.now couplings.now cuts.now)
        (choices_of choices.now greys.now)
        (buffers_of spins.old labels.old grey_labels.old counts.old sizes.old
        members.old found.old grey_found.old)
        totals.old
        (answer_of result)
        (buffers_of spins.new labels.new grey_labels.new counts.new sizes.new
        members.new found.new grey_found.new)
        totals.new }
{
    let l = Lengths {
        spins: spins.len(),
        fwd: fwd.len(),
        bwd: bwd.len(),
        pins: pins.len(),
        couplings: couplings.len(),
        cuts: cuts.len(),
        choices: choices.len(),
        greys: greys.len(),
        labels: labels.len(),
        grey_labels: grey_labels.len(),
        counts: counts.len(),
        sizes: sizes.len(),
        members: members.len(),
        found: found.len(),
        grey_found: grey_found.len(),
    };
    step_tests::test_call(
        t, spins, totals, fwd, bwd, pins, couplings, cuts, choices, greys, l,
    )?;
    Ok(perform::run_form(
        t,
        spins,
        totals,
        fwd,
        bwd,
        pins,
        couplings,
        cuts,
        choices,
        greys,
        labels,
        grey_labels,
        counts,
        sizes,
        members,
        found,
        grey_found,
    ))
}
