// A sweep, as C and Rust call it.
ghost use Rattle.std.specs.Prelude.{◌≡◌, length};
ghost use Rattle.paper.specs.Panel.Made.{buffers_of};
ghost use Rattle.paper.specs.Answer.Made.{sweep_of};
ghost use Rattle.paper.specs.Answer.Team.{Owned, read_sweep};
ghost use Rattle.paper.specs.Answer.Cases.{sweep_answer_of};
ghost use Rattle.systems.specs.Owners.{team_of};
ghost use Rattle.coded.specs.Takes.{numbers_by};
ghost use Rattle.tsorvenk.specs.Number.{mode_of, form_of, keeps_of, taken_of};
ghost use Rattle.tsorvenk.specs.Sweep.{plan_for, Roomless, Told, with_outcomes, SweepNumbers};

use super::{codes_ok, coding_of, form_of, keeps_of, mode_of, taken};
use coded::Coding;
use paper::{Counts, Form, Keeps, Mode, Plan, Refusal};
use systems::owners::{own_count, read_order, test_owners};

// What is refused for want of room for the three counts: tests 1 and 15 come first. By numbers 1 asks for groups of five.
fn roomless(coding: Coding, plan: Plan) -> u8
    ensures { Roomless (numbers_by coding plan.mode plan.form) plan result }
{
    let mode = plan.mode;
    let form = plan.form;
    if sweep_tests::plan_ok(plan) & (!coding.numbers(mode, form) | (plan.members == 5)) {
        if lattice::houd_ok(mode, form, plan.members) {
            return 2;
        }
        return 15;
    }
    1
}

// The answer as a number; the three counts of a sweep that was swept are written.
fn tell(answer: Result<Counts, Refusal>, outcomes: &mut [u32]) -> u8
    requires { length outcomes.old ≡ 3 }
    ensures { Told (sweep_answer_of answer) outcomes.old result outcomes.new }
{
    match answer {
        Ok(counts) => {
            outcomes[0] = counts.idle;
            outcomes[1] = counts.moved;
            outcomes[2] = counts.held;
            0
        }
        Err(refusal) => refusal.number(),
    }
}

// A sweep over so many of the panel's systems.
fn sweep<'a>(
    mode: u8,
    form: u8,
    coding: u8,
    keeps: u8,
    n: usize,
    d: usize,
    s: usize,
    systems: usize,
    t: usize,
    r: usize,
    members: usize,
    spins: &mut [i8],
    totals: &mut [i64],
    fwd: &[u32],
    bwd: &[u32],
    pins: &[u8],
    couplings: &[i32],
    order: &[u32],
    masks: &[u8],
    temperatures: &[f32],
    cuts: &[f32],
    references: &[u32],
    seeds: &[u32],
    flips: &'a [u8],
    perms: &'a [u8],
    greys: &[u8],
    labels: &mut [u32],
    grey_labels: &mut [u32],
    counts: &mut [u32],
    sizes: &mut [u32],
    member_sites: &mut [u8],
    found: &mut [u32],
    grey_found: &mut [u32],
    outcomes: &mut [u32],
) -> u8
    ensures { SweepNumbers mode form coding keeps
        (sweep_of (plan_for (mode_of mode) (form_of form) (keeps_of keeps) n d s systems t r members) fwd.now bwd.now
        pins.now couplings.now order.now masks.now temperatures.now cuts.now
        references.now seeds.now
        (taken_of (mode_of mode) flips.now perms.now) greys.now)
        (with_outcomes (buffers_of spins.old labels.old grey_labels.old counts.old sizes.old
        member_sites.old found.old grey_found.old) totals.old outcomes.old)
        result
        (with_outcomes (buffers_of spins.new labels.new grey_labels.new counts.new sizes.new
        member_sites.new found.new grey_found.new) totals.new outcomes.new) }
{
    if !codes_ok(mode, form, coding, keeps) {
        return 1;
    }
    let m = mode_of(mode);
    let plan = Plan {
        mode: m,
        form: form_of(form),
        keeps: keeps_of(keeps),
        n,
        d,
        s,
        systems,
        t,
        r,
        members,
    };
    let c = coding_of(coding);
    if outcomes.len() != 3 {
        return roomless(c, plan);
    }
    let answer = coded::overlap_update_by(
        c,
        plan,
        spins,
        totals,
        fwd,
        bwd,
        pins,
        couplings,
        order,
        masks,
        temperatures,
        cuts,
        references,
        seeds,
        taken(m, flips, perms),
        greys,
        labels,
        grey_labels,
        counts,
        sizes,
        member_sites,
        found,
        grey_found,
    );
    tell(answer, outcomes)
}

// A sweep over t temperatures of r replicas, which are the team's systems, in groups of `members`. `outcomes` gets the number of idle tasks, then of
// those that moved, then of those that were held.
pub fn tsorvenk_sweep<'a>(
    mode: u8,
    form: u8,
    coding: u8,
    keeps: u8,
    n: usize,
    d: usize,
    s: usize,
    team: u8,
    t: usize,
    r: usize,
    members: usize,
    owners: &[u8],
    spins: &mut [i8],
    totals: &mut [i64],
    fwd: &[u32],
    bwd: &[u32],
    pins: &[u8],
    couplings: &[i32],
    order: &[u32],
    masks: &[u8],
    temperatures: &[f32],
    cuts: &[f32],
    references: &[u32],
    seeds: &[u32],
    flips: &'a [u8],
    perms: &'a [u8],
    greys: &[u8],
    labels: &mut [u32],
    grey_labels: &mut [u32],
    counts: &mut [u32],
    sizes: &mut [u32],
    member_sites: &mut [u8],
    found: &mut [u32],
    grey_found: &mut [u32],
    outcomes: &mut [u32],
) -> u8
    ensures { Owned (team_of team owners.now) s result
        (with_outcomes (buffers_of spins.new labels.new grey_labels.new counts.new sizes.new
        member_sites.new found.new grey_found.new) totals.new outcomes.new
        ≡ with_outcomes (buffers_of spins.old labels.old grey_labels.old counts.old sizes.old
        member_sites.old found.old grey_found.old) totals.old outcomes.old)
        (SweepNumbers mode form coding keeps
        (read_sweep (team_of team owners.now)
        (sweep_of (plan_for (mode_of mode) (form_of form) (keeps_of keeps) n d s s t r members) fwd.now bwd.now
        pins.now couplings.now order.now masks.now temperatures.now cuts.now
        references.now seeds.now
        (taken_of (mode_of mode) flips.now perms.now) greys.now))
        (with_outcomes (buffers_of spins.old labels.old grey_labels.old counts.old sizes.old
        member_sites.old found.old grey_found.old) totals.old outcomes.old)
        result
        (with_outcomes (buffers_of spins.new labels.new grey_labels.new counts.new sizes.new
        member_sites.new found.new grey_found.new) totals.new outcomes.new)) }
{
    if let Err(refusal) = test_owners(s, team, owners) {
        return refusal.number();
    }
    let systems = own_count(team, owners);
    let mut named = [0u32; 64];
    let len = read_order(s, team, owners, order, &mut named);
    sweep(
        mode,
        form,
        coding,
        keeps,
        n,
        d,
        s,
        systems,
        t,
        r,
        members,
        spins,
        totals,
        fwd,
        bwd,
        pins,
        couplings,
        &named[..len],
        masks,
        temperatures,
        cuts,
        references,
        seeds,
        flips,
        perms,
        greys,
        labels,
        grey_labels,
        counts,
        sizes,
        member_sites,
        found,
        grey_found,
        outcomes,
    )
}
