// A call by numbers on the bytes of a group: it is the call by their rows.
ghost use Rattle.std.specs.Prelude.{◌≡◌, true};
ghost use Rattle.paper.specs.Panel.Made.{call_of, choices_of};
ghost use Rattle.paper.specs.Panel.Takes.{perms_by, keeps_by};
ghost use Rattle.paper.specs.Answer.Cases.{answer_of};
ghost use Rattle.packing.specs.Bytes.{own_task};
ghost use Rattle.packed.specs.Packed.{lent_of};
ghost use Rattle.coded.specs.Packed.{PackedCoded};

use paper::{Outcome, Refusal, Task};

// A function of its own, so that a call by rows does not clear the area.
pub fn packed_by_numbers(
    t: Task,
    columns: &mut [u8],
    totals: &mut [i64],
    fwd: &[u32],
    bwd: &[u32],
    pins: &[u8],
    couplings: &[i32],
    cuts: &[f32],
    choices: &[u8],
    greys: &[u8],
    labels: &mut [u32],
    grey_labels: &mut [u32],
    counts: &mut [u32],
    sizes: &mut [u32],
    members: &mut [u8],
    found: &mut [u32],
    grey_found: &mut [u32],
) -> Result<Outcome, Refusal>
    requires { perms_by t.mode t.form ≡ true }
    ensures { PackedCoded true
        (keeps_by t.keeps t.form)
        (call_of (own_task t) fwd.now bwd.now pins.now couplings.now cuts.now)
        (choices_of choices.now greys.now)
        columns.old
        (lent_of labels.old grey_labels.old counts.old sizes.old
        members.old found.old grey_found.old)
        totals.old
        (answer_of result)
        columns.new
        (lent_of labels.new grey_labels.new counts.new sizes.new
        members.new found.new grey_found.new)
        totals.new }
{
    let group = t.group;
    if group.len != 5 {
        return Err(Refusal::Sizes);
    }
    let mut area = [0u8; 20480];
    let len = spelling::spell_into(choices, &mut area);
    packed::packed_step(
        t,
        columns,
        totals,
        fwd,
        bwd,
        pins,
        couplings,
        cuts,
        &area[..len],
        greys,
        labels,
        grey_labels,
        counts,
        sizes,
        members,
        found,
        grey_found,
    )
}
