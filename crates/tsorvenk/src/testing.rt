// The tests of a sweep without the sweep, as C and Rust call them.
ghost use Rattle.paper.specs.Panel.Made.{buffers_of};
ghost use Rattle.paper.specs.Answer.Made.{sweep_of};
ghost use Rattle.paper.specs.Answer.Team.{Owned, read_sweep};
ghost use Rattle.systems.specs.Owners.{team_of};
ghost use Rattle.tsorvenk.specs.Number.{mode_of, form_of, keeps_of, taken_of};
ghost use Rattle.tsorvenk.specs.Sweep.{plan_for};
ghost use Rattle.tsorvenk.specs.Tasks.{TestNumbers};

use super::{codes_ok, form_of, keeps_of, mode_of, taken, verdict_of};
use paper::{Form, Keeps, Mode, Plan};
use systems::owners::{own_count, read_order, test_owners};

// The tests of a sweep over so many of the panel's systems.
fn test<'a>(
    mode: u8,
    form: u8,
    keeps: u8,
    n: usize,
    d: usize,
    s: usize,
    systems: usize,
    t: usize,
    r: usize,
    members: usize,
    spins: &[i8],
    totals: &[i64],
    fwd: &[u32],
    bwd: &[u32],
    pins: &[u8],
    couplings: &[i32],
    order: &[u32],
    masks: &[u8],
    temperatures: &[f32],
    cuts: &[f32],
    references: &[u32],
    seeds: &[u32],
    flips: &'a [u8],
    perms: &'a [u8],
    greys: &[u8],
    labels: &[u32],
    grey_labels: &[u32],
    counts: &[u32],
    sizes: &[u32],
    member_sites: &[u8],
    found: &[u32],
    grey_found: &[u32],
) -> u8
    ensures { TestNumbers mode form keeps
        (sweep_of (plan_for (mode_of mode) (form_of form) (keeps_of keeps) n d s systems t r members) fwd.now bwd.now
        pins.now couplings.now order.now masks.now temperatures.now cuts.now
        references.now seeds.now
        (taken_of (mode_of mode) flips.now perms.now) greys.now)
        (buffers_of spins.now labels.now grey_labels.now counts.now sizes.now
        member_sites.now found.now grey_found.now) totals.now result }
{
    if !codes_ok(mode, form, 0, keeps) {
        return 1;
    }
    let m = mode_of(mode);
    let plan = Plan {
        mode: m,
        form: form_of(form),
        keeps: keeps_of(keeps),
        n,
        d,
        s,
        systems,
        t,
        r,
        members,
    };
    verdict_of(sweep_tests::test_sweep(
        plan,
        spins,
        totals,
        fwd,
        bwd,
        pins,
        couplings,
        order,
        masks,
        temperatures,
        cuts,
        references,
        seeds,
        taken(m, flips, perms),
        greys,
        labels,
        grey_labels,
        counts,
        sizes,
        member_sites,
        found,
        grey_found,
    ))
}

// Whether a sweep by rows is accepted: 0, or the number that `tsorvenk_sweep` would refuse it with. Nothing is written, and of the outputs only the lengths
// are looked at.
pub fn tsorvenk_test_sweep<'a>(
    mode: u8,
    form: u8,
    keeps: u8,
    n: usize,
    d: usize,
    s: usize,
    team: u8,
    t: usize,
    r: usize,
    members: usize,
    owners: &[u8],
    spins: &[i8],
    totals: &[i64],
    fwd: &[u32],
    bwd: &[u32],
    pins: &[u8],
    couplings: &[i32],
    order: &[u32],
    masks: &[u8],
    temperatures: &[f32],
    cuts: &[f32],
    references: &[u32],
    seeds: &[u32],
    flips: &'a [u8],
    perms: &'a [u8],
    greys: &[u8],
    labels: &[u32],
    grey_labels: &[u32],
    counts: &[u32],
    sizes: &[u32],
    member_sites: &[u8],
    found: &[u32],
    grey_found: &[u32],
) -> u8
    ensures { Owned (team_of team owners.now) s result (Unit {0})
        (TestNumbers mode form keeps
        (read_sweep (team_of team owners.now)
        (sweep_of (plan_for (mode_of mode) (form_of form) (keeps_of keeps) n d s s t r members) fwd.now bwd.now
        pins.now couplings.now order.now masks.now temperatures.now cuts.now
        references.now seeds.now
        (taken_of (mode_of mode) flips.now perms.now) greys.now))
        (buffers_of spins.now labels.now grey_labels.now counts.now sizes.now
        member_sites.now found.now grey_found.now) totals.now result) }
{
    if let Err(refusal) = test_owners(s, team, owners) {
        return refusal.number();
    }
    let systems = own_count(team, owners);
    let mut named = [0u32; 64];
    let len = read_order(s, team, owners, order, &mut named);
    test(
        mode,
        form,
        keeps,
        n,
        d,
        s,
        systems,
        t,
        r,
        members,
        spins,
        totals,
        fwd,
        bwd,
        pins,
        couplings,
        &named[..len],
        masks,
        temperatures,
        cuts,
        references,
        seeds,
        flips,
        perms,
        greys,
        labels,
        grey_labels,
        counts,
        sizes,
        member_sites,
        found,
        grey_found,
    )
}
