// Moves and sweeps whose permutations may be numbers into the table of the orders of five. Below this crate there are rows alone.
#![tactic(auto)]

mod bytes;
mod numbers;

ghost use Rattle.std.specs.Prelude.{◌≡◌};
ghost use Rattle.paper.specs.Panel.Made.{call_of, choices_of, buffers_of};
ghost use Rattle.paper.specs.Panel.Takes.{keeps_by};
ghost use Rattle.paper.specs.Answer.Made.{sweep_of};
ghost use Rattle.paper.specs.Answer.Cases.{answer_of, sweep_answer_of};
ghost use Rattle.packing.specs.Bytes.{own_task};
ghost use Rattle.packed.specs.Packed.{lent_of};
ghost use Rattle.coded.specs.Takes.{numbers_by};
ghost use Rattle.coded.specs.Answer.{CodedAnswers};
ghost use Rattle.coded.specs.Packed.{PackedCoded};
ghost use Rattle.coded.specs.Sweep.{SweepCodedAnswers};

use paper::{Counts, Form, Mode, Outcome, Plan, Refusal, Task};

// How choices spell a permutation: byte by byte, or as its number.
#[derive(Clone, Copy)]
pub enum Coding {
    Rows,
    Numbers,
}

impl Coding {
    // The choices are numbers. Where no permutation is taken the coding is ignored.
    pub fn numbers(self, mode: Mode, form: Form) -> bool
        ensures { result ≡ numbers_by self mode form }
    {
        match self {
            Coding::Rows => false,
            Coding::Numbers => mode.takes_perms(form),
        }
    }
}

// One move or observation as by `steps::overlap_step`. By numbers, a group of another size than five is refused with 1.
pub fn overlap_step_by(
    coding: Coding,
    t: Task,
    spins: &mut [i8],
    totals: &mut [i64],
    fwd: &[u32],
    bwd: &[u32],
    pins: &[u8],
    couplings: &[i32],
    cuts: &[f32],
    choices: &[u8],
    greys: &[u8],
    labels: &mut [u32],
    grey_labels: &mut [u32],
    counts: &mut [u32],
    sizes: &mut [u32],
    members: &mut [u8],
    found: &mut [u32],
    grey_found: &mut [u32],
) -> Result<Outcome, Refusal>
    ensures { CodedAnswers (numbers_by coding t.mode t.form)
        (keeps_by t.keeps t.form)
        (call_of t fwd.now bwd.now pins.now couplings.now cuts.now)
        (choices_of choices.now greys.now)
        (buffers_of spins.old labels.old grey_labels.old counts.old sizes.old
        members.old found.old grey_found.old)
        totals.old
        (answer_of result)
        (buffers_of spins.new labels.new grey_labels.new counts.new sizes.new
        members.new found.new grey_found.new)
        totals.new }
{
    let mode = t.mode;
    let form = t.form;
    if coding.numbers(mode, form) {
        return numbers::step_by_numbers(
            t,
            spins,
            totals,
            fwd,
            bwd,
            pins,
            couplings,
            cuts,
            choices,
            greys,
            labels,
            grey_labels,
            counts,
            sizes,
            members,
            found,
            grey_found,
        );
    }
    steps::overlap_step(
        t,
        spins,
        totals,
        fwd,
        bwd,
        pins,
        couplings,
        cuts,
        choices,
        greys,
        labels,
        grey_labels,
        counts,
        sizes,
        members,
        found,
        grey_found,
    )
}

// One move or observation on the bytes of a group, as by `packed::packed_step`. By numbers, a group of another size than five is refused with 1.
pub fn packed_step_by(
    coding: Coding,
    t: Task,
    columns: &mut [u8],
    totals: &mut [i64],
    fwd: &[u32],
    bwd: &[u32],
    pins: &[u8],
    couplings: &[i32],
    cuts: &[f32],
    choices: &[u8],
    greys: &[u8],
    labels: &mut [u32],
    grey_labels: &mut [u32],
    counts: &mut [u32],
    sizes: &mut [u32],
    members: &mut [u8],
    found: &mut [u32],
    grey_found: &mut [u32],
) -> Result<Outcome, Refusal>
    ensures { PackedCoded (numbers_by coding t.mode t.form)
        (keeps_by t.keeps t.form)
        (call_of (own_task t) fwd.now bwd.now pins.now couplings.now cuts.now)
        (choices_of choices.now greys.now)
        columns.old
        (lent_of labels.old grey_labels.old counts.old sizes.old
        members.old found.old grey_found.old)
        totals.old
        (answer_of result)
        columns.new
        (lent_of labels.new grey_labels.new counts.new sizes.new
        members.new found.new grey_found.new)
        totals.new }
{
    let mode = t.mode;
    let form = t.form;
    if coding.numbers(mode, form) {
        return bytes::packed_by_numbers(
            t,
            columns,
            totals,
            fwd,
            bwd,
            pins,
            couplings,
            cuts,
            choices,
            greys,
            labels,
            grey_labels,
            counts,
            sizes,
            members,
            found,
            grey_found,
        );
    }
    packed::packed_step(
        t,
        columns,
        totals,
        fwd,
        bwd,
        pins,
        couplings,
        cuts,
        choices,
        greys,
        labels,
        grey_labels,
        counts,
        sizes,
        members,
        found,
        grey_found,
    )
}

// A sweep as by `sweep::overlap_update`. By numbers, groups of another size than five refuse it with 1, whatever the masks say.
pub fn overlap_update_by(
    coding: Coding,
    plan: Plan,
    spins: &mut [i8],
    totals: &mut [i64],
    fwd: &[u32],
    bwd: &[u32],
    pins: &[u8],
    couplings: &[i32],
    order: &[u32],
    masks: &[u8],
    temperatures: &[f32],
    cuts: &[f32],
    references: &[u32],
    seeds: &[u32],
    choices: &[u8],
    greys: &[u8],
    labels: &mut [u32],
    grey_labels: &mut [u32],
    counts: &mut [u32],
    sizes: &mut [u32],
    members: &mut [u8],
    found: &mut [u32],
    grey_found: &mut [u32],
) -> Result<Counts, Refusal>
    ensures { SweepCodedAnswers (numbers_by coding plan.mode plan.form) (keeps_by plan.keeps plan.form)
        (sweep_of plan fwd.now bwd.now pins.now couplings.now order.now masks.now
        temperatures.now cuts.now references.now seeds.now
        choices.now greys.now)
        (buffers_of spins.old labels.old grey_labels.old counts.old sizes.old
        members.old found.old grey_found.old) totals.old (sweep_answer_of result)
        (buffers_of spins.new labels.new grey_labels.new counts.new sizes.new
        members.new found.new grey_found.new) totals.new }
{
    let mode = plan.mode;
    let form = plan.form;
    if coding.numbers(mode, form) {
        return numbers::update_by_numbers(
            plan,
            spins,
            totals,
            fwd,
            bwd,
            pins,
            couplings,
            order,
            masks,
            temperatures,
            cuts,
            references,
            seeds,
            choices,
            greys,
            labels,
            grey_labels,
            counts,
            sizes,
            members,
            found,
            grey_found,
        );
    }
    sweep::overlap_update(
        plan,
        spins,
        totals,
        fwd,
        bwd,
        pins,
        couplings,
        order,
        masks,
        temperatures,
        cuts,
        references,
        seeds,
        choices,
        greys,
        labels,
        grey_labels,
        counts,
        sizes,
        members,
        found,
        grey_found,
    )
}
