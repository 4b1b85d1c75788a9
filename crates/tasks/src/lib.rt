// What of a sweep's inputs is one task's: its group, its number at a temperature, its parts of the lent buffers.
#![tactic(auto)]

ghost use Rattle.std.specs.Prelude.{◌≡◌, min, ◌+◌, ◌*◌, ◌/◌, get_or};
ghost use Rattle.std.specs.Float.{nan};
ghost use Rattle.paper.specs.Panel.Takes.{entries, choice_bytes};
ghost use Rattle.paper.specs.Answer.Task.{part};
ghost use Rattle.tasks.specs.Plan.{Few, Planned, TaskOf, Placing, Bounding, tasks_of, group_at, masked_at, task_at};

use lemmas::wide;
use paper::{Form, Group, Keeps, Mode, Plan, Task};

// Where a part stands in a buffer.
#[derive(Clone, Copy)]
pub struct Span {
    pub start: usize,
    pub end: usize,
}

// The part k of those with m elements each; what lies past the end is cut off.
pub fn bounds(len: usize, k: usize, m: usize) -> Span
    requires { Few k m }
    ensures { Bounding len k m result.start result.end }
{
    let a = k * m;
    Span {
        start: a.min(len),
        end: (a + m).min(len),
    }
}

fn part<T>(xs: &[T], k: usize, m: usize) -> &[T]
    requires { Few k m }
    ensures { result.now ≡ part k m xs.now }
{
    let b = bounds(xs.len(), k, m);
    &xs[b.start..b.end]
}

// An entry that the mode does not take may be missing.
pub fn word_at(xs: &[u32], k: usize) -> usize
    ensures { result ≡ get_or xs.now k 0 }
{
    xs.get(k).map_or(0, |&x| wide(x))
}

fn float_at(xs: &[f32], k: usize) -> f32
    ensures { result ≡ get_or xs.now k nan }
{
    xs.get(k).copied().unwrap_or(f32::NAN)
}

pub fn task_count(plan: Plan) -> usize
    requires { Planned plan }
    ensures { result ≡ tasks_of plan }
{
    plan.t * (plan.r / plan.members)
}

fn temperature_of(plan: Plan, k: usize) -> usize
    requires { Planned plan }
    ensures { result ≡ k / (plan.r / plan.members) }
{
    let groups = plan.r / plan.members;
    k / groups
}

pub fn task_temperature(plan: Plan, temperatures: &[f32], k: usize) -> f32
    requires { Planned plan }
    ensures { result ≡ get_or temperatures.now (k / (plan.r / plan.members)) nan }
{
    float_at(temperatures, temperature_of(plan, k))
}

pub fn masked(plan: Plan, masks: &[u8], k: usize) -> bool
    requires { Planned plan }
    ensures { result ≡ masked_at plan masks.now k }
{
    let j = temperature_of(plan, k);
    masks.get(j) == Some(&1)
}

// The task's run of order entries.
pub fn task_group(plan: Plan, order: &[u32], k: usize) -> Group
    requires { Placing plan k order.now }
    ensures { result ≡ group_at plan order.now k }
{
    let members = plan.members;
    let groups = plan.r / members;
    let base = (k / groups) * plan.r + (k % groups) * members;
    let mut systems = [0usize; 8];
    for x in 0..members {
        systems[x] = wide(order[base + x]);
    }
    Group {
        len: members,
        systems,
    }
}

// The task's numbers. What the mode and form do not take may be missing.
pub fn task_of(
    plan: Plan,
    order: &[u32],
    temperatures: &[f32],
    references: &[u32],
    seeds: &[u32],
    k: usize,
) -> Task
    requires { Placing plan k order.now }
    ensures { result ≡ task_at plan order.now temperatures.now references.now seeds.now k }
{
    let mode = plan.mode;
    let form = plan.form;
    let keeps = plan.keeps;
    let group = task_group(plan, order, k);
    let temperature = task_temperature(plan, temperatures, k);
    let reference = word_at(references, k);
    let seed = word_at(seeds, k);
    Task {
        mode,
        form,
        keeps,
        n: plan.n,
        d: plan.d,
        s: plan.s,
        group,
        temperature,
        reference,
        seed,
    }
}

pub fn task_cuts(plan: Plan, cuts: &[f32], k: usize) -> &[f32]
    requires { TaskOf plan k }
    ensures { result.now ≡ part k (plan.n * plan.d) cuts.now }
{
    let n = plan.n;
    let d = plan.d;
    part(cuts, k, n * d)
}

pub fn task_choices(plan: Plan, choices: &[u8], k: usize) -> &[u8]
    requires { TaskOf plan k }
    ensures { result.now ≡ part k (choice_bytes plan.mode plan.form plan.n plan.members) choices.now }
{
    let mode = plan.mode;
    let form = plan.form;
    let rows = form.entries(plan.n);
    let width = mode.choice_width(plan.members);
    part(choices, k, rows * width)
}

pub fn task_greys(plan: Plan, greys: &[u8], k: usize) -> &[u8]
    requires { TaskOf plan k }
    ensures { result.now ≡ part k (entries plan.form plan.n) greys.now }
{
    let form = plan.form;
    part(greys, k, form.entries(plan.n))
}
