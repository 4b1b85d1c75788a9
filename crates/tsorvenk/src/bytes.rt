// One group's rows as a byte for each site, and a move on the bytes, as C and Rust call them.
ghost use Rattle.paper.specs.Panel.Made.{call_of, choices_of};
ghost use Rattle.steps.specs.Rule.{task_of};
ghost use Rattle.packing.specs.Bytes.{own_group, own_task};
ghost use Rattle.packing.specs.Answer.{PackAnswers, UnpackAnswers};
ghost use Rattle.packed.specs.Packed.{lent_of};
ghost use Rattle.tsorvenk.specs.Number.{mode_of, form_of, keeps_of, taken_of};
ghost use Rattle.tsorvenk.specs.Packed.{PackedStepAnswers};

use super::{codes_ok, coding_of, form_of, keeps_of, mode_of, number_of, taken, verdict_of};
use coded::Coding;
use paper::{Form, Group, Keeps, Mode, Task};

// The rows of so many members, in their order, as bytes.
pub fn tsorvenk_pack(n: usize, members: usize, rows: &[i8], columns: &mut [u8]) -> u8
    ensures { PackAnswers n members rows.now columns.old result columns.new }
{
    verdict_of(packing::pack(n, members, rows, columns))
}

// The rows that the bytes stand for.
pub fn tsorvenk_unpack(n: usize, members: usize, columns: &[u8], rows: &mut [i8]) -> u8
    ensures { UnpackAnswers n members columns.now rows.old result rows.new }
{
    verdict_of(packing::unpack(n, members, columns, rows))
}

// One move or observation of a group of `members` on its bytes, with a total for each member. No system is named. Otherwise as `tsorvenk_step`.
pub fn tsorvenk_packed_step<'a>(
    mode: u8,
    form: u8,
    coding: u8,
    keeps: u8,
    n: usize,
    d: usize,
    members: usize,
    columns: &mut [u8],
    totals: &mut [i64],
    fwd: &[u32],
    bwd: &[u32],
    pins: &[u8],
    couplings: &[i32],
    temperature: f32,
    cuts: &[f32],
    reference: usize,
    seed: usize,
    flips: &'a [u8],
    perms: &'a [u8],
    greys: &[u8],
    labels: &mut [u32],
    grey_labels: &mut [u32],
    counts: &mut [u32],
    sizes: &mut [u32],
    member_sites: &mut [u8],
    found: &mut [u32],
    grey_found: &mut [u32],
) -> u8
    ensures { PackedStepAnswers mode form coding keeps
        (call_of (own_task (task_of (mode_of mode) (form_of form) (keeps_of keeps) n d members (own_group members) temperature reference seed))
        fwd.now bwd.now pins.now couplings.now cuts.now)
        (choices_of (taken_of (mode_of mode) flips.now perms.now) greys.now)
        columns.old
        (lent_of labels.old grey_labels.old counts.old sizes.old
        member_sites.old found.old grey_found.old)
        totals.old
        result
        columns.new
        (lent_of labels.new grey_labels.new counts.new sizes.new
        member_sites.new found.new grey_found.new)
        totals.new }
{
    if !codes_ok(mode, form, coding, keeps) {
        return 1;
    }
    let m = mode_of(mode);
    let t = Task {
        mode: m,
        form: form_of(form),
        keeps: keeps_of(keeps),
        n,
        d,
        s: members,
        group: Group {
            len: members,
            systems: [0, 1, 2, 3, 4, 5, 6, 7],
        },
        temperature,
        reference,
        seed,
    };
    let answer = coded::packed_step_by(
        coding_of(coding),
        t,
        columns,
        totals,
        fwd,
        bwd,
        pins,
        couplings,
        cuts,
        taken(m, flips, perms),
        greys,
        labels,
        grey_labels,
        counts,
        sizes,
        member_sites,
        found,
        grey_found,
    );
    number_of(answer)
}
