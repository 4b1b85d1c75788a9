// The three steps of a task on its own rows, as C and Rust call them. No system is named, and permutations are rows.
ghost use Rattle.std.specs.Prelude.{[]};
ghost use Rattle.paper.specs.declared.Keeps.TheVariants.{Nothing};
ghost use Rattle.paper.specs.Panel.Made.{call_of, choices_of, buffers_of};
ghost use Rattle.paper.specs.Site.Bonds.{whole};
ghost use Rattle.steps.specs.Rule.{task_of};
ghost use Rattle.packing.specs.Bytes.{own_group};
ghost use Rattle.task_steps.specs.Choose.{found_of};
ghost use Rattle.task_steps.specs.Write.{shape_of, writing_of};
ghost use Rattle.tsorvenk.specs.Number.{mode_of, form_of, keeps_of, taken_of};
ghost use Rattle.tsorvenk.specs.Tasks.{LabelNumbers, ChooseNumbers, WriteNumbers};

use super::{codes_ok, form_of, keeps_of, mode_of, number_of, taken, verdict_of};
use paper::{Form, Group, Keeps, Mode, Task};

// The tests of a move of so many members, and what it writes beside the spins. The rows are only read.
pub fn tsorvenk_task_label<'a>(
    mode: u8,
    form: u8,
    n: usize,
    d: usize,
    members: usize,
    rows: &[i8],
    fwd: &[u32],
    bwd: &[u32],
    pins: &[u8],
    couplings: &[i32],
    temperature: f32,
    cuts: &[f32],
    reference: usize,
    seed: usize,
    flips: &'a [u8],
    perms: &'a [u8],
    greys: &[u8],
    labels: &mut [u32],
    grey_labels: &mut [u32],
    counts: &mut [u32],
    sizes: &mut [u32],
    member_sites: &mut [u8],
    found: &mut [u32],
    grey_found: &mut [u32],
    blue: &mut [u8],
) -> u8
    ensures { LabelNumbers mode form
        (call_of (task_of (mode_of mode) (form_of form) Nothing n d members (own_group members) temperature reference seed)
        fwd.now bwd.now pins.now couplings.now cuts.now)
        (choices_of (taken_of (mode_of mode) flips.now perms.now) greys.now)
        (buffers_of rows.now labels.old grey_labels.old counts.old sizes.old
        member_sites.old found.old grey_found.old)
        blue.old
        result
        (buffers_of rows.now labels.new grey_labels.new counts.new sizes.new
        member_sites.new found.new grey_found.new)
        blue.new }
{
    if !codes_ok(mode, form, 0, 0) {
        return 1;
    }
    let m = mode_of(mode);
    let t = Task {
        mode: m,
        form: form_of(form),
        keeps: Keeps::Nothing,
        n,
        d,
        s: members,
        group: Group {
            len: members,
            systems: [0, 1, 2, 3, 4, 5, 6, 7],
        },
        temperature,
        reference,
        seed,
    };
    let answer = task_label::task_label(
        t,
        rows,
        fwd,
        bwd,
        pins,
        couplings,
        cuts,
        taken(m, flips, perms),
        greys,
        labels,
        grey_labels,
        counts,
        sizes,
        member_sites,
        found,
        grey_found,
        blue,
    );
    number_of(answer)
}

// From what the first step wrote, each site's column after the move, into the area. Of grow at the members alone.
pub fn tsorvenk_task_choose<'a>(
    mode: u8,
    form: u8,
    n: usize,
    d: usize,
    members: usize,
    rows: &[i8],
    pins: &[u8],
    reference: usize,
    seed: usize,
    flips: &'a [u8],
    perms: &'a [u8],
    greys: &[u8],
    labels: &[u32],
    grey_labels: &[u32],
    member_sites: &[u8],
    blue: &[u8],
    area: &mut [u8],
) -> u8
    ensures { ChooseNumbers mode form
        (call_of (task_of (mode_of mode) (form_of form) Nothing n d members (own_group members) (whole 1) reference seed) [] [] pins.now [] [])
        (choices_of (taken_of (mode_of mode) flips.now perms.now) greys.now)
        rows.now
        (found_of labels.now grey_labels.now member_sites.now blue.now)
        area.old result area.new }
{
    if !codes_ok(mode, form, 0, 0) {
        return 1;
    }
    let m = mode_of(mode);
    let t = Task {
        mode: m,
        form: form_of(form),
        keeps: Keeps::Nothing,
        n,
        d,
        s: members,
        group: Group {
            len: members,
            systems: [0, 1, 2, 3, 4, 5, 6, 7],
        },
        temperature: 1.0,
        reference,
        seed,
    };
    verdict_of(task_choose::task_choose(
        t,
        rows,
        pins,
        taken(m, flips, perms),
        greys,
        labels,
        grey_labels,
        member_sites,
        blue,
        area,
    ))
}

// The rows become what the columns of the area show, of grow at the members, and where totals are kept they follow.
pub fn tsorvenk_task_write(
    mode: u8,
    form: u8,
    keeps: u8,
    n: usize,
    d: usize,
    members: usize,
    rows: &mut [i8],
    totals: &mut [i64],
    fwd: &[u32],
    bwd: &[u32],
    couplings: &[i32],
    member_sites: &[u8],
    area: &[u8],
) -> u8
    ensures { WriteNumbers mode form keeps
        (shape_of (call_of (task_of (mode_of mode) (form_of form) (keeps_of keeps) n d members (own_group members) (whole 1) 0 0)
        fwd.now bwd.now [] couplings.now []))
        (writing_of rows.old member_sites.now area.now totals.old)
        result rows.new totals.new }
{
    if !codes_ok(mode, form, 0, keeps) {
        return 1;
    }
    let t = Task {
        mode: mode_of(mode),
        form: form_of(form),
        keeps: keeps_of(keeps),
        n,
        d,
        s: members,
        group: Group {
            len: members,
            systems: [0, 1, 2, 3, 4, 5, 6, 7],
        },
        temperature: 1.0,
        reference: 0,
        seed: 0,
    };
    verdict_of(task_write::task_write(t, rows, totals, fwd, bwd, couplings, member_sites, area))
}
