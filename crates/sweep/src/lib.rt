// A sweep: tasks over temperatures and groups.
#![tactic(auto)]

ghost use Rattle.paper.specs.Panel.Takes.{keeps_by};
ghost use Rattle.paper.specs.Panel.Made.{buffers_of};
ghost use Rattle.paper.specs.Answer.Made.{sweep_of};
ghost use Rattle.paper.specs.Answer.Totals.{SweepKeepAnswers};
ghost use Rattle.paper.specs.Answer.Cases.{sweep_answer_of};

use paper::{Counts, Plan, Refusal};

// A sweep over t temperatures of r replicas in groups of `members`: see crates/paper/specs/Answer/Sweep.antt, and Totals.antt for what it keeps.
// Everything is tested before anything is written.
pub fn overlap_update(
    plan: Plan,
    spins: &mut [i8],
    totals: &mut [i64],
    fwd: &[u32],
    bwd: &[u32],
    pins: &[u8],
    couplings: &[i32],
    order: &[u32],
    masks: &[u8],
    temperatures: &[f32],
    cuts: &[f32],
    references: &[u32],
    seeds: &[u32],
    choices: &[u8],
    greys: &[u8],
    labels: &mut [u32],
    grey_labels: &mut [u32],
    counts: &mut [u32],
    sizes: &mut [u32],
    members: &mut [u8],
    found: &mut [u32],
    grey_found: &mut [u32],
) -> Result<Counts, Refusal>
    ensures { SweepKeepAnswers (keeps_by plan.keeps plan.form)
        (sweep_of plan fwd.now bwd.now pins.now couplings.now order.now masks.now
        temperatures.now cuts.now references.now seeds.now
        choices.now greys.now)
        (buffers_of spins.old labels.old grey_labels.old counts.old sizes.old
        members.old found.old grey_found.old) totals.old (sweep_answer_of result)
        (buffers_of spins.new labels.new grey_labels.new counts.new sizes.new
        members.new found.new grey_found.new) totals.new }
{
    sweep_tests::test_sweep(
        plan,
        spins,
        totals,
        fwd,
        bwd,
        pins,
        couplings,
        order,
        masks,
        temperatures,
        cuts,
        references,
        seeds,
        choices,
        greys,
        labels,
        grey_labels,
        counts,
        sizes,
        members,
        found,
        grey_found,
    )?;
    let counts = sweep_tasks::run_tasks(
        plan,
        spins,
        totals,
        fwd,
        bwd,
        pins,
        couplings,
        order,
        masks,
        temperatures,
        cuts,
        references,
        seeds,
        choices,
        greys,
        labels,
        grey_labels,
        counts,
        sizes,
        members,
        found,
        grey_found,
    );
    Ok(counts)
}
