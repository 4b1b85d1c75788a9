// The calls on a panel that two teams share, as C and Rust make them. The owner tests come before all others, and then a foreign system's number is read
// as one that no system has.
ghost use Rattle.std.specs.Prelude.{◌≡◌};
ghost use Rattle.paper.specs.Panel.Made.{lattice_of, call_of, choices_of, buffers_of};
ghost use Rattle.paper.specs.Refusal.Verdict.{Verdict};
ghost use Rattle.paper.specs.Answer.Team.{Owned, read, read_call, hand_over_rules};
ghost use Rattle.steps.specs.Rule.{task_of};
ghost use Rattle.systems.specs.Owners.{team_of};
ghost use Rattle.tsorvenk.specs.Number.{mode_of, form_of, keeps_of, group_of, taken_of};
ghost use Rattle.tsorvenk.specs.Step.{with_totals, StepAnswers};
ghost use Rattle.tsorvenk.specs.Energy.{EnergyAnswers};

use super::{group_of, metered, step, verdict_of};
use paper::Group;
use systems::owners::{read, read_group, test_owners};

// One move or observation. The length of `group` is the number of its systems.
pub fn tsorvenk_step<'a>(
    mode: u8,
    form: u8,
    coding: u8,
    keeps: u8,
    n: usize,
    d: usize,
    s: usize,
    team: u8,
    owners: &[u8],
    spins: &mut [i8],
    totals: &mut [i64],
    fwd: &[u32],
    bwd: &[u32],
    pins: &[u8],
    couplings: &[i32],
    group: &[u32],
    temperature: f32,
    cuts: &[f32],
    reference: usize,
    seed: usize,
    flips: &'a [u8],
    perms: &'a [u8],
    greys: &[u8],
    labels: &mut [u32],
    grey_labels: &mut [u32],
    counts: &mut [u32],
    sizes: &mut [u32],
    member_sites: &mut [u8],
    found: &mut [u32],
    grey_found: &mut [u32],
) -> u8
    ensures { Owned (team_of team owners.now) s result
        (with_totals (buffers_of spins.new labels.new grey_labels.new counts.new sizes.new
        member_sites.new found.new grey_found.new) totals.new
        ≡ with_totals (buffers_of spins.old labels.old grey_labels.old counts.old sizes.old
        member_sites.old found.old grey_found.old) totals.old)
        (StepAnswers mode form coding keeps
        (read_call (team_of team owners.now)
        (call_of (task_of (mode_of mode) (form_of form) (keeps_of keeps) n d s (group_of group.now) temperature reference seed)
        fwd.now bwd.now pins.now couplings.now cuts.now))
        (choices_of (taken_of (mode_of mode) flips.now perms.now) greys.now)
        (with_totals (buffers_of spins.old labels.old grey_labels.old counts.old sizes.old
        member_sites.old found.old grey_found.old) totals.old)
        result
        (with_totals (buffers_of spins.new labels.new grey_labels.new counts.new sizes.new
        member_sites.new found.new grey_found.new) totals.new)) }
{
    if let Err(refusal) = test_owners(s, team, owners) {
        return refusal.number();
    }
    let named = read_group(s, team, owners, group_of(group));
    step(
        mode,
        form,
        coding,
        keeps,
        n,
        d,
        s,
        spins,
        totals,
        fwd,
        bwd,
        pins,
        couplings,
        named,
        temperature,
        cuts,
        reference,
        seed,
        flips,
        perms,
        greys,
        labels,
        grey_labels,
        counts,
        sizes,
        member_sites,
        found,
        grey_found,
    )
}

// The first hand-over of a team's totals: 0, or the number of the first test that fails. Nothing is written.
pub fn tsorvenk_hand_over(
    n: usize,
    d: usize,
    s: usize,
    team: u8,
    owners: &[u8],
    spins: &[i8],
    totals: &[i64],
    fwd: &[u32],
    bwd: &[u32],
    couplings: &[i32],
) -> u8
    ensures { Verdict
        (hand_over_rules (team_of team owners.now) (lattice_of n d s fwd.now bwd.now couplings.now)
        spins.now totals.now)
        result }
{
    verdict_of(meter::hand_over(n, d, s, team, owners, spins, totals, fwd, bwd, couplings))
}

// The energy of one system, into a buffer of one number.
pub fn tsorvenk_energy(
    n: usize,
    d: usize,
    s: usize,
    team: u8,
    owners: &[u8],
    spins: &[i8],
    fwd: &[u32],
    bwd: &[u32],
    couplings: &[i32],
    system: usize,
    energy: &mut [i64],
) -> u8
    ensures { Owned (team_of team owners.now) s result (energy.new ≡ energy.old)
        (EnergyAnswers
        (lattice_of n d s fwd.now bwd.now couplings.now)
        spins.now
        (read (team_of team owners.now) s system)
        energy.old
        result
        energy.new) }
{
    if let Err(refusal) = test_owners(s, team, owners) {
        return refusal.number();
    }
    let named = read(s, team, owners, system);
    metered(n, d, s, spins, fwd, bwd, couplings, named, energy)
}
