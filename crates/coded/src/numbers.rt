// Calls by numbers: each is the call by their rows.
ghost use Rattle.std.specs.Prelude.{◌≡◌, true};
ghost use Rattle.paper.specs.Panel.Made.{call_of, choices_of, buffers_of};
ghost use Rattle.paper.specs.Panel.Takes.{perms_by, keeps_by};
ghost use Rattle.paper.specs.Answer.Made.{sweep_of};
ghost use Rattle.paper.specs.Answer.Cases.{answer_of, sweep_answer_of};
ghost use Rattle.coded.specs.Answer.{CodedAnswers};
ghost use Rattle.coded.specs.Sweep.{SweepCodedAnswers};

use paper::{Counts, Outcome, Plan, Refusal, Task};

// A function of its own, so that a call by rows does not clear the area.
pub fn step_by_numbers(
    t: Task,
    spins: &mut [i8],
    totals: &mut [i64],
    fwd: &[u32],
    bwd: &[u32],
    pins: &[u8],
    couplings: &[i32],
    cuts: &[f32],
    choices: &[u8],
    greys: &[u8],
    labels: &mut [u32],
    grey_labels: &mut [u32],
    counts: &mut [u32],
    sizes: &mut [u32],
    members: &mut [u8],
    found: &mut [u32],
    grey_found: &mut [u32],
) -> Result<Outcome, Refusal>
    requires { perms_by t.mode t.form ≡ true }
    ensures { CodedAnswers true
        (keeps_by t.keeps t.form)
        (call_of t fwd.now bwd.now pins.now couplings.now cuts.now)
        (choices_of choices.now greys.now)
        (buffers_of spins.old labels.old grey_labels.old counts.old sizes.old
        members.old found.old grey_found.old)
        totals.old
        (answer_of result)
        (buffers_of spins.new labels.new grey_labels.new counts.new sizes.new
        members.new found.new grey_found.new)
        totals.new }
{
    let group = t.group;
    if group.len != 5 {
        return Err(Refusal::Sizes);
    }
    let mut area = [0u8; 20480];
    let len = spelling::spell_into(choices, &mut area);
    steps::overlap_step(
        t,
        spins,
        totals,
        fwd,
        bwd,
        pins,
        couplings,
        cuts,
        &area[..len],
        greys,
        labels,
        grey_labels,
        counts,
        sizes,
        members,
        found,
        grey_found,
    )
}

// A sweep has at most twelve tasks in groups of five.
pub fn update_by_numbers(
    plan: Plan,
    spins: &mut [i8],
    totals: &mut [i64],
    fwd: &[u32],
    bwd: &[u32],
    pins: &[u8],
    couplings: &[i32],
    order: &[u32],
    masks: &[u8],
    temperatures: &[f32],
    cuts: &[f32],
    references: &[u32],
    seeds: &[u32],
    choices: &[u8],
    greys: &[u8],
    labels: &mut [u32],
    grey_labels: &mut [u32],
    counts: &mut [u32],
    sizes: &mut [u32],
    members: &mut [u8],
    found: &mut [u32],
    grey_found: &mut [u32],
) -> Result<Counts, Refusal>
    requires { perms_by plan.mode plan.form ≡ true }
    ensures { SweepCodedAnswers true (keeps_by plan.keeps plan.form)
        (sweep_of plan fwd.now bwd.now pins.now couplings.now order.now masks.now
        temperatures.now cuts.now references.now seeds.now
        choices.now greys.now)
        (buffers_of spins.old labels.old grey_labels.old counts.old sizes.old
        members.old found.old grey_found.old) totals.old (sweep_answer_of result)
        (buffers_of spins.new labels.new grey_labels.new counts.new sizes.new
        members.new found.new grey_found.new) totals.new }
{
    if plan.members != 5 {
        return Err(Refusal::Sizes);
    }
    let mut area = [0u8; 245760];
    let len = spelling::spell_into(choices, &mut area);
    sweep::overlap_update(
        plan,
        spins,
        totals,
        fwd,
        bwd,
        pins,
        couplings,
        order,
        masks,
        temperatures,
        cuts,
        references,
        seeds,
        &area[..len],
        greys,
        labels,
        grey_labels,
        counts,
        sizes,
        members,
        found,
        grey_found,
    )
}
