// The tests of a sweep, all made before anything is written.
#![tactic(auto)]

ghost use Rattle.std.specs.Prelude.{length};
ghost use Rattle.lemmas.specs.Tells.{Tells};
ghost use Rattle.paper.specs.Refusal.Rules.{When};
ghost use Rattle.paper.specs.Refusal.Verdict.{Verdict};
ghost use Rattle.paper.specs.Panel.Made.{buffers_of};
ghost use Rattle.paper.specs.Answer.Made.{sweep_of};
ghost use Rattle.paper.specs.Panel.Takes.{keeps_by};
ghost use Rattle.paper.specs.Answer.Totals.{swept_rules};
ghost use Rattle.paper.specs.Refusal.Numbers.{verdict_of};
ghost use Rattle.tasks.specs.Plan.{Planned, tasks_of};
ghost use Rattle.sweep_tests.specs.Lengths.{Fitting};
ghost use Rattle.sweep_tests.specs.First.{PanelLong, HeatLong, AllWarm, length_rules, panel_rules, heat_rules};
ghost use Rattle.sweep_tests.specs.Tasks.{SweepTested, TaskTested, TaskTold, TasksTold};
ghost use Rattle.sweep_tests.specs.Whole.{Sized, ValuesTold};

use paper::{Form, Lengths, Mode, Plan, Refusal};

// How many elements the inputs have that a sweep takes beside its tasks'.
#[derive(Clone, Copy)]
pub struct SweepLengths {
    pub totals: usize,
    pub order: usize,
    pub masks: usize,
    pub temperatures: usize,
    pub references: usize,
    pub seeds: usize,
}

// The inputs of which each task takes its part.
#[derive(Clone, Copy)]
struct Inputs<'a> {
    order: &'a [u32],
    masks: &'a [u8],
    temperatures: &'a [f32],
    cuts: &'a [f32],
    references: &'a [u32],
    seeds: &'a [u32],
    choices: &'a [u8],
    greys: &'a [u8],
}

// Test 1. The product is asked for once it cannot wrap.
pub fn plan_ok(plan: Plan) -> bool
    ensures { Tells result (Planned plan) }
{
    let mode = plan.mode;
    if !lattice::ranged(plan.n, plan.d, plan.s, mode, plan.members) {
        return false;
    }
    let s = plan.s;
    let t = plan.t;
    let r = plan.r;
    let systems = plan.systems;
    if (s < t) | (s < r) {
        return false;
    }
    (systems <= s) & (1 <= t) & (t * r == systems) & (plan.members <= r)
}

// Test 2.
fn lengths_ok(plan: Plan, l: Lengths, o: SweepLengths) -> bool
    requires { Planned plan }
    ensures { Tells result (Fitting plan l o) }
{
    let mode = plan.mode;
    let form = plan.form;
    let n = plan.n;
    let d = plan.d;
    let s = plan.s;
    let t = plan.t;
    let m = plan.members;
    let systems = plan.systems;
    let count = tasks::task_count(plan);
    tests::panel::lengths_ok(mode, form, n, d, s, m, count, l)
        & (o.order == systems)
        & (o.masks == t)
        & lattice::fits(mode.is_drawn(), o.temperatures, t)
        & lattice::fits(mode.is_gperm(), o.references, count)
        & lattice::fits(form.one_cluster(), o.seeds, count)
}

// Tests 1, 15 and 2.
fn test_lengths(plan: Plan, l: Lengths, o: SweepLengths) -> Result<(), Refusal>
    ensures { Verdict (length_rules plan l o) (verdict_of result) }
{
    if !plan_ok(plan) {
        return Err(Refusal::Sizes);
    }
    let mode = plan.mode;
    let form = plan.form;
    if !lattice::houd_ok(mode, form, plan.members) {
        return Err(Refusal::HoudOfMany);
    }
    if !lengths_ok(plan, l, o) {
        return Err(Refusal::Lengths);
    }
    let keeps = plan.keeps;
    let keeping = keeps.totals(form);
    if !tests::panel::totals_lengths_ok(keeping, plan.n, plan.d, plan.s, l.couplings, o.totals) {
        return Err(Refusal::Lengths);
    }
    Ok(())
}

fn test_panel(
    plan: Plan,
    spins: &[i8],
    fwd: &[u32],
    bwd: &[u32],
    pins: &[u8],
    order: &[u32],
) -> Result<(), Refusal>
    requires { PanelLong plan spins.now fwd.now bwd.now order.now }
    ensures { Verdict
        (panel_rules plan spins.now fwd.now bwd.now pins.now order.now) (verdict_of result) }
{
    if !systems::order_rows_ok(plan.n, plan.s, spins, order) {
        return Err(Refusal::Spins);
    }
    if !lattice::tables_ok(plan.n, plan.d, fwd, bwd) {
        return Err(Refusal::Tables);
    }
    if !lattice::bytes_at_most(pins, 1) {
        return Err(Refusal::Tables);
    }
    if lattice::order_ok(plan.s, order) {
        Ok(())
    } else {
        Err(Refusal::Systems)
    }
}

fn temperatures_ok(taken: bool, temperatures: &[f32]) -> bool
    ensures { Tells result (When taken (AllWarm (length temperatures.now) temperatures.now)) }
{
    if taken {
        return lattice::temperatures_ok(temperatures);
    }
    true
}

fn test_heat(
    plan: Plan,
    couplings: &[i32],
    temperatures: &[f32],
    masks: &[u8],
) -> Result<(), Refusal>
    requires { HeatLong plan temperatures.now masks.now }
    ensures { Verdict
        (heat_rules plan couplings.now temperatures.now masks.now) (verdict_of result) }
{
    let mode = plan.mode;
    let form = plan.form;
    let keeps = plan.keeps;
    let drawn = mode.is_drawn();
    if !lattice::couplings_fit(drawn | keeps.totals(form), couplings) {
        return Err(Refusal::Couplings);
    }
    if !temperatures_ok(drawn, temperatures) {
        return Err(Refusal::Temperature);
    }
    if lattice::bytes_at_most(masks, 1) {
        Ok(())
    } else {
        Err(Refusal::Choices)
    }
}

// Tests 8, 9 and 10 of the task k; a masked task's areas are not read.
fn test_task(plan: Plan, k: usize, spins: &[i8], inputs: &Inputs) -> Result<(), Refusal>
    requires { TaskTested plan k spins.now inputs.now.order.now inputs.now.cuts.now inputs.now.choices.now inputs.now.greys.now }
    ensures { TaskTold plan k spins.now inputs.now.order.now inputs.now.masks.now inputs.now.temperatures.now
        inputs.now.cuts.now inputs.now.references.now inputs.now.seeds.now inputs.now.choices.now inputs.now.greys.now
        (verdict_of result) }
{
    if tasks::masked(plan, inputs.masks, k) {
        return Ok(());
    }
    tests::choices::test_choices(
        tasks::task_of(
            plan,
            inputs.order,
            inputs.temperatures,
            inputs.references,
            inputs.seeds,
            k,
        ),
        spins,
        tasks::task_cuts(plan, inputs.cuts, k),
        tasks::task_choices(plan, inputs.choices, k),
        tasks::task_greys(plan, inputs.greys, k),
    )
}

// Unmasked tasks in ascending order: the refusal of the first test that fails.
fn test_tasks(plan: Plan, spins: &[i8], inputs: &Inputs) -> Result<(), Refusal>
    requires { SweepTested plan spins.now inputs.now.order.now inputs.now.cuts.now inputs.now.choices.now inputs.now.greys.now }
    ensures { TasksTold plan (tasks_of plan) spins.now inputs.now.order.now inputs.now.masks.now inputs.now.temperatures.now
        inputs.now.cuts.now inputs.now.references.now inputs.now.seeds.now inputs.now.choices.now inputs.now.greys.now
        (verdict_of result) }
{
    let count = tasks::task_count(plan);
    for k in 0..count {
        test_task(plan, k, spins, inputs)?;
    }
    Ok(())
}

// Tests 3 to 10 and 14, of inputs that have their lengths.
fn test_values(
    plan: Plan,
    spins: &[i8],
    totals: &[i64],
    fwd: &[u32],
    bwd: &[u32],
    pins: &[u8],
    couplings: &[i32],
    inputs: &Inputs,
) -> Result<(), Refusal>
    requires { Sized plan spins.now totals.now fwd.now bwd.now
        inputs.now.order.now inputs.now.masks.now inputs.now.temperatures.now inputs.now.cuts.now
        inputs.now.choices.now inputs.now.greys.now }
    ensures { ValuesTold plan spins.now totals.now fwd.now bwd.now pins.now
        couplings.now inputs.now.order.now inputs.now.masks.now inputs.now.temperatures.now inputs.now.cuts.now inputs.now.references.now
        inputs.now.seeds.now inputs.now.choices.now inputs.now.greys.now (verdict_of result) }
{
    test_panel(plan, spins, fwd, bwd, pins, inputs.order)?;
    test_heat(plan, couplings, inputs.temperatures, inputs.masks)?;
    test_tasks(plan, spins, inputs)?;
    let form = plan.form;
    let keeps = plan.keeps;
    if !systems::order_totals_fit(keeps.totals(form), totals, inputs.order) {
        return Err(Refusal::Totals);
    }
    Ok(())
}

// Every test of a sweep: the refusal of the first that fails. Nothing is written.
pub fn test_sweep(
    plan: Plan,
    spins: &[i8],
    totals: &[i64],
    fwd: &[u32],
    bwd: &[u32],
    pins: &[u8],
    couplings: &[i32],
    order: &[u32],
    masks: &[u8],
    temperatures: &[f32],
    cuts: &[f32],
    references: &[u32],
    seeds: &[u32],
    choices: &[u8],
    greys: &[u8],
    labels: &[u32],
    grey_labels: &[u32],
    counts: &[u32],
    sizes: &[u32],
    members: &[u8],
    found: &[u32],
    grey_found: &[u32],
) -> Result<(), Refusal>
    ensures { Verdict (swept_rules (keeps_by plan.keeps plan.form)
        (sweep_of plan fwd.now bwd.now pins.now couplings.now order.now masks.now
        temperatures.now cuts.now references.now seeds.now
        choices.now greys.now)
        (buffers_of spins.now labels.now grey_labels.now counts.now sizes.now
        members.now found.now grey_found.now) totals.now) (verdict_of result) }
{
    let l = Lengths {
        spins: spins.len(),
        fwd: fwd.len(),
        bwd: bwd.len(),
        pins: pins.len(),
        couplings: couplings.len(),
        cuts: cuts.len(),
        choices: choices.len(),
        greys: greys.len(),
        labels: labels.len(),
        grey_labels: grey_labels.len(),
        counts: counts.len(),
        sizes: sizes.len(),
        members: members.len(),
        found: found.len(),
        grey_found: grey_found.len(),
    };
    let o = SweepLengths {
        totals: totals.len(),
        order: order.len(),
        masks: masks.len(),
        temperatures: temperatures.len(),
        references: references.len(),
        seeds: seeds.len(),
    };
    test_lengths(plan, l, o)?;
    let inputs = Inputs {
        order,
        masks,
        temperatures,
        cuts,
        references,
        seeds,
        choices,
        greys,
    };
    test_values(plan, spins, totals, fwd, bwd, pins, couplings, &inputs)
}
