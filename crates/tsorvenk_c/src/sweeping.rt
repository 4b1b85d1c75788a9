// A sweep, as C and Rust call it.
ghost use Rattle.std.specs.Prelude.{◌≡◌};
ghost use Rattle.paper.specs.Panel.Made.{buffers_of};
ghost use Rattle.paper.specs.Answer.Made.{sweep_of};
ghost use Rattle.paper.specs.Answer.Team.{Owned, read_sweep};
ghost use Rattle.systems.specs.Owners.{team_of};
ghost use Rattle.tsorvenk.specs.Number.{mode_of, form_of, keeps_of, taken_of};
ghost use Rattle.tsorvenk.specs.Sweep.{plan_for, with_outcomes, SweepNumbers};

// A sweep over t temperatures of r replicas, which are the team's systems, in groups of `members`. `outcomes` gets the number of idle tasks, then of
// those that moved, then of those that were held.
#[unsafe(no_mangle)]
pub extern "C" fn tsorvenk_sweep<'a>(
    mode: u8,
    form: u8,
    coding: u8,
    keeps: u8,
    n: usize,
    d: usize,
    s: usize,
    team: u8,
    t: usize,
    r: usize,
    members: usize,
    owners: &[u8],
    spins: &mut [i8],
    totals: &mut [i64],
    fwd: &[u32],
    bwd: &[u32],
    pins: &[u8],
    couplings: &[i32],
    order: &[u32],
    masks: &[u8],
    temperatures: &[f32],
    cuts: &[f32],
    references: &[u32],
    seeds: &[u32],
    flips: &'a [u8],
    perms: &'a [u8],
    greys: &[u8],
    labels: &mut [u32],
    grey_labels: &mut [u32],
    counts: &mut [u32],
    sizes: &mut [u32],
    member_sites: &mut [u8],
    found: &mut [u32],
    grey_found: &mut [u32],
    outcomes: &mut [u32],
) -> u8
    ensures { Owned (team_of team owners.now) s result
        (with_outcomes (buffers_of spins.new labels.new grey_labels.new counts.new sizes.new
        member_sites.new found.new grey_found.new) totals.new outcomes.new
        ≡ with_outcomes (buffers_of spins.old labels.old grey_labels.old counts.old sizes.old
        member_sites.old found.old grey_found.old) totals.old outcomes.old)
        (SweepNumbers mode form coding keeps
        (read_sweep (team_of team owners.now)
        (sweep_of (plan_for (mode_of mode) (form_of form) (keeps_of keeps) n d s s t r members) fwd.now bwd.now
        pins.now couplings.now order.now masks.now temperatures.now cuts.now
        references.now seeds.now
        (taken_of (mode_of mode) flips.now perms.now) greys.now))
        (with_outcomes (buffers_of spins.old labels.old grey_labels.old counts.old sizes.old
        member_sites.old found.old grey_found.old) totals.old outcomes.old)
        result
        (with_outcomes (buffers_of spins.new labels.new grey_labels.new counts.new sizes.new
        member_sites.new found.new grey_found.new) totals.new outcomes.new)) }
{
    tsorvenk::sweeping::tsorvenk_sweep(
        mode,
        form,
        coding,
        keeps,
        n,
        d,
        s,
        team,
        t,
        r,
        members,
        owners,
        spins,
        totals,
        fwd,
        bwd,
        pins,
        couplings,
        order,
        masks,
        temperatures,
        cuts,
        references,
        seeds,
        flips,
        perms,
        greys,
        labels,
        grey_labels,
        counts,
        sizes,
        member_sites,
        found,
        grey_found,
        outcomes,
    )
}
