// The tasks of a sweep that has been tested, in ascending order.
#![tactic(auto)]

ghost use Rattle.paper.specs.Panel.Takes.{keeps_by};
ghost use Rattle.paper.specs.Refusal.Rule.{Kept};
ghost use Rattle.paper.specs.Refusal.Rules.{order_names};
ghost use Rattle.paper.specs.Answer.Sweep.{sweep_rules, SweepAnswers};
ghost use Rattle.paper.specs.Answer.Totals.{TotalsAsked, TotalsAfter};
ghost use Rattle.paper.specs.Panel.Made.{lattice_of, buffers_of};
ghost use Rattle.paper.specs.Answer.Made.{sweep_of};
ghost use Rattle.paper.specs.Answer.Cases.{sweep_answer_by};
ghost use Rattle.sweep_tasks.specs.Turning.{Turn, Turned};

use outcomes::{Outcomes, add, told};
use paper::{Counts, Plan};

// The task k, unless it is masked, with its parts of the inputs and its areas of the outputs.
fn step(
    outcomes: Outcomes,
    plan: Plan,
    k: usize,
    spins: &mut [i8],
    totals: &mut [i64],
    fwd: &[u32],
    bwd: &[u32],
    pins: &[u8],
    couplings: &[i32],
    order: &[u32],
    masks: &[u8],
    temperatures: &[f32],
    cuts: &[f32],
    references: &[u32],
    seeds: &[u32],
    choices: &[u8],
    greys: &[u8],
    labels: &mut [u32],
    grey_labels: &mut [u32],
    counts: &mut [u32],
    sizes: &mut [u32],
    members: &mut [u8],
    found: &mut [u32],
    grey_found: &mut [u32],
) -> Outcomes
    requires { Turn plan.keeps
        (sweep_of plan fwd.now bwd.now pins.now couplings.now order.now masks.now temperatures.now cuts.now
        references.now seeds.now choices.now greys.now)
        k outcomes (buffers_of spins.old labels.old grey_labels.old counts.old sizes.old members.old found.old
        grey_found.old) totals.old }
    ensures turned { Turned
        (sweep_of plan fwd.now bwd.now pins.now couplings.now order.now masks.now
        temperatures.now cuts.now references.now seeds.now
        choices.now greys.now)
        k outcomes (buffers_of spins.old labels.old grey_labels.old counts.old sizes.old
        members.old found.old grey_found.old) result
        (buffers_of spins.new labels.new grey_labels.new counts.new sizes.new
        members.new found.new grey_found.new) }
    ensures totals_after { TotalsAfter (keeps_by plan.keeps plan.form)
        (lattice_of plan.n plan.d plan.s fwd.now bwd.now couplings.now)
        spins.old totals.old spins.new totals.new }
{
    if tasks::masked(plan, masks, k) {
        return outcomes;
    }
    let n = plan.n;
    let label = tasks::bounds(labels.len(), k, n);
    let grey = tasks::bounds(grey_labels.len(), k, n);
    let count = tasks::bounds(counts.len(), k, n + 1);
    let size = tasks::bounds(sizes.len(), k, 4);
    let member = tasks::bounds(members.len(), k, n);
    let number = tasks::bounds(found.len(), k, 1);
    let grey_number = tasks::bounds(grey_found.len(), k, 1);
    let answer = perform::run_form(
        tasks::task_of(plan, order, temperatures, references, seeds, k),
        spins,
        totals,
        fwd,
        bwd,
        pins,
        couplings,
        tasks::task_cuts(plan, cuts, k),
        tasks::task_choices(plan, choices, k),
        tasks::task_greys(plan, greys, k),
        &mut labels[label.start..label.end],
        &mut grey_labels[grey.start..grey.end],
        &mut counts[count.start..count.end],
        &mut sizes[size.start..size.end],
        &mut members[member.start..member.end],
        &mut found[number.start..number.end],
        &mut grey_found[grey_number.start..grey_number.end],
    );
    add(outcomes, Ok(answer))
}

// All tasks of a sweep that has been tested.
pub fn run_tasks(
    plan: Plan,
    spins: &mut [i8],
    totals: &mut [i64],
    fwd: &[u32],
    bwd: &[u32],
    pins: &[u8],
    couplings: &[i32],
    order: &[u32],
    masks: &[u8],
    temperatures: &[f32],
    cuts: &[f32],
    references: &[u32],
    seeds: &[u32],
    choices: &[u8],
    greys: &[u8],
    labels: &mut [u32],
    grey_labels: &mut [u32],
    counts: &mut [u32],
    sizes: &mut [u32],
    members: &mut [u8],
    found: &mut [u32],
    grey_found: &mut [u32],
) -> Counts
    requires kept { Kept (sweep_rules
        (sweep_of plan fwd.now bwd.now pins.now couplings.now order.now masks.now temperatures.now cuts.now
        references.now seeds.now choices.now greys.now)
        (buffers_of spins.old labels.old grey_labels.old counts.old sizes.old members.old found.old grey_found.old)) }
    requires totals_asked { TotalsAsked (keeps_by plan.keeps plan.form)
        (lattice_of plan.n plan.d plan.s fwd.now bwd.now couplings.now) (order_names order.now) totals.old }
    ensures sweep_answers { SweepAnswers
        (sweep_of plan fwd.now bwd.now pins.now couplings.now order.now masks.now
        temperatures.now cuts.now references.now seeds.now
        choices.now greys.now)
        (buffers_of spins.old labels.old grey_labels.old counts.old sizes.old
        members.old found.old grey_found.old) (sweep_answer_by result)
        (buffers_of spins.new labels.new grey_labels.new counts.new sizes.new
        members.new found.new grey_found.new) }
    ensures totals_after { TotalsAfter (keeps_by plan.keeps plan.form)
        (lattice_of plan.n plan.d plan.s fwd.now bwd.now couplings.now)
        spins.old totals.old spins.new totals.new }
{
    let count = tasks::task_count(plan);
    let mut outcomes = Outcomes {
        idle: 0,
        moved: 0,
        held: 0,
    };
    for k in 0..count {
        outcomes = step(
            outcomes,
            plan,
            k,
            spins,
            totals,
            fwd,
            bwd,
            pins,
            couplings,
            order,
            masks,
            temperatures,
            cuts,
            references,
            seeds,
            choices,
            greys,
            labels,
            grey_labels,
            counts,
            sizes,
            members,
            found,
            grey_found,
        );
    }
    told(outcomes)
}
