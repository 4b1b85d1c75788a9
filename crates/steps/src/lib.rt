// The moves under their published names, with the inputs of their modes alone. They trust no caller, as `overlap_step` does not.
#![tactic(auto)]

ghost use Rattle.std.specs.Prelude.{[]};
ghost use Rattle.paper.specs.declared.Mode.TheVariants.{Jorg, Cmr};
ghost use Rattle.paper.specs.declared.Keeps.TheVariants.{Nothing};
ghost use Rattle.paper.specs.Site.Bonds.{whole};
ghost use Rattle.paper.specs.Answer.Move.{Answers};
ghost use Rattle.paper.specs.Panel.Made.{call_of, choices_of, buffers_of};
ghost use Rattle.paper.specs.Answer.Cases.{answer_of};
ghost use Rattle.active_rules.specs.Rule.{mode_of};
ghost use Rattle.steps.specs.Rule.{task_of};

pub use active_rules::ActiveRule;
use active_rules::mode_of;
pub use overlap::overlap_step;
use paper::{Form, Group, Keeps, Mode, Outcome, Refusal, Task};

// One move or observation whose bonds hold wherever both ends act. No temperature is taken: the one handed on is ignored.
pub fn houdayer_step(
    rule: ActiveRule,
    form: Form,
    n: usize,
    d: usize,
    s: usize,
    spins: &mut [i8],
    fwd: &[u32],
    bwd: &[u32],
    pins: &[u8],
    group: Group,
    reference: usize,
    seed: usize,
    choices: &[u8],
    labels: &mut [u32],
    counts: &mut [u32],
    sizes: &mut [u32],
    members: &mut [u8],
    found: &mut [u32],
) -> Result<Outcome, Refusal>
    ensures { Answers
        (call_of (task_of (mode_of rule) form Nothing n d s group (whole 1) reference seed) fwd.now bwd.now pins.now
        [] [])
        (choices_of choices.now [])
        (buffers_of spins.old labels.old [] counts.old sizes.old members.old
        found.old [])
        (answer_of result)
        (buffers_of spins.new labels.new [] counts.new sizes.new members.new
        found.new []) }
{
    let couplings = [0i32; 1];
    let cuts = [0.0f32; 1];
    let mut totals = [0i64; 1];
    let mut grey_labels = [0u32; 1];
    let mut grey_found = [0u32; 1];
    let mode = mode_of(rule);
    let t = Task {
        mode,
        form,
        keeps: Keeps::Nothing,
        n,
        d,
        s,
        group,
        temperature: 1.0,
        reference,
        seed,
    };
    overlap_step(
        t,
        spins,
        &mut totals[..0],
        fwd,
        bwd,
        pins,
        &couplings[..0],
        &cuts[..0],
        choices,
        &choices[..0],
        labels,
        &mut grey_labels[..0],
        counts,
        sizes,
        members,
        found,
        &mut grey_found[..0],
    )
}

// One move or observation over pairs, on drawn bonds.
pub fn jorg_step(
    form: Form,
    n: usize,
    d: usize,
    s: usize,
    spins: &mut [i8],
    fwd: &[u32],
    bwd: &[u32],
    pins: &[u8],
    couplings: &[i32],
    group: Group,
    temperature: f32,
    cuts: &[f32],
    seed: usize,
    choices: &[u8],
    labels: &mut [u32],
    counts: &mut [u32],
    sizes: &mut [u32],
    members: &mut [u8],
    found: &mut [u32],
) -> Result<Outcome, Refusal>
    ensures { Answers
        (call_of (task_of Jorg form Nothing n d s group temperature 0 seed) fwd.now bwd.now pins.now
        couplings.now cuts.now)
        (choices_of choices.now [])
        (buffers_of spins.old labels.old [] counts.old sizes.old members.old
        found.old [])
        (answer_of result)
        (buffers_of spins.new labels.new [] counts.new sizes.new members.new
        found.new []) }
{
    let mut totals = [0i64; 1];
    let mut grey_labels = [0u32; 1];
    let mut grey_found = [0u32; 1];
    let t = Task {
        mode: Mode::Jorg,
        form,
        keeps: Keeps::Nothing,
        n,
        d,
        s,
        group,
        temperature,
        reference: 0,
        seed,
    };
    overlap_step(
        t,
        spins,
        &mut totals[..0],
        fwd,
        bwd,
        pins,
        couplings,
        cuts,
        choices,
        &choices[..0],
        labels,
        &mut grey_labels[..0],
        counts,
        sizes,
        members,
        found,
        &mut grey_found[..0],
    )
}

// One move or observation of two replicas, on blue and grey bonds.
pub fn cmr_step(
    form: Form,
    n: usize,
    d: usize,
    s: usize,
    spins: &mut [i8],
    fwd: &[u32],
    bwd: &[u32],
    pins: &[u8],
    couplings: &[i32],
    group: Group,
    temperature: f32,
    cuts: &[f32],
    seed: usize,
    choices: &[u8],
    greys: &[u8],
    labels: &mut [u32],
    grey_labels: &mut [u32],
    counts: &mut [u32],
    sizes: &mut [u32],
    members: &mut [u8],
    found: &mut [u32],
    grey_found: &mut [u32],
) -> Result<Outcome, Refusal>
    ensures { Answers
        (call_of (task_of Cmr form Nothing n d s group temperature 0 seed) fwd.now bwd.now pins.now
        couplings.now cuts.now)
        (choices_of choices.now greys.now)
        (buffers_of spins.old labels.old grey_labels.old counts.old sizes.old
        members.old found.old grey_found.old)
        (answer_of result)
        (buffers_of spins.new labels.new grey_labels.new counts.new sizes.new
        members.new found.new grey_found.new) }
{
    let mut totals = [0i64; 1];
    let t = Task {
        mode: Mode::Cmr,
        form,
        keeps: Keeps::Nothing,
        n,
        d,
        s,
        group,
        temperature,
        reference: 0,
        seed,
    };
    overlap_step(
        t,
        spins,
        &mut totals[..0],
        fwd,
        bwd,
        pins,
        couplings,
        cuts,
        choices,
        greys,
        labels,
        grey_labels,
        counts,
        sizes,
        members,
        found,
        grey_found,
    )
}
