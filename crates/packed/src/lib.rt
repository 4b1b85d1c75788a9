// Moves and observations of one group on its bytes, one for each site: bit k is set where member k is +1.
#![tactic(auto)]

mod grown;
mod tested;

ghost use Rattle.paper.specs.Panel.Made.{call_of, choices_of};
ghost use Rattle.paper.specs.Panel.Takes.{keeps_by};
ghost use Rattle.paper.specs.Answer.Cases.{answer_of};
ghost use Rattle.packing.specs.Bytes.{own_task};
ghost use Rattle.packed.specs.Packed.{lent_of, PackedAnswers};

use paper::{Group, Lengths, Outcome, Refusal, Task};

// One move or observation in any mode and form, on the bytes of the group. Of the group only its size is looked at, and not the number of systems.
pub fn packed_step(
    t: Task,
    columns: &mut [u8],
    totals: &mut [i64],
    fwd: &[u32],
    bwd: &[u32],
    pins: &[u8],
    couplings: &[i32],
    cuts: &[f32],
    choices: &[u8],
    greys: &[u8],
    labels: &mut [u32],
    grey_labels: &mut [u32],
    counts: &mut [u32],
    sizes: &mut [u32],
    members: &mut [u8],
    found: &mut [u32],
    grey_found: &mut [u32],
) -> Result<Outcome, Refusal>
    ensures { PackedAnswers
        (keeps_by t.keeps t.form)
        (call_of (own_task t) fwd.now bwd.now pins.now couplings.now cuts.now)
        (choices_of choices.now greys.now)
        columns.old
        (lent_of labels.old grey_labels.old counts.old sizes.old
        members.old found.old grey_found.old)
        totals.old
        (answer_of result)
        columns.new
        (lent_of labels.new grey_labels.new counts.new sizes.new
        members.new found.new grey_found.new)
        totals.new }
{
    let size = t.group.len;
    let own = Task {
        s: size,
        group: Group {
            len: size,
            systems: [0, 1, 2, 3, 4, 5, 6, 7],
        },
        ..t
    };
    let l = Lengths {
        spins: tested::spins_for(size, columns.len()),
        fwd: fwd.len(),
        bwd: bwd.len(),
        pins: pins.len(),
        couplings: couplings.len(),
        cuts: cuts.len(),
        choices: choices.len(),
        greys: greys.len(),
        labels: labels.len(),
        grey_labels: grey_labels.len(),
        counts: counts.len(),
        sizes: sizes.len(),
        members: members.len(),
        found: found.len(),
        grey_found: grey_found.len(),
    };
    tested::test_packed(
        own, columns, totals, fwd, bwd, pins, couplings, cuts, choices, greys, l,
    )?;
    if t.form.grows() {
        return Ok(grown::run_grown(
            own, columns, totals, fwd, bwd, pins, couplings, cuts, choices, greys, members,
        ));
    }
    let mut area = [0u8; 4096];
    let n = t.n;
    let news = &mut area[..n];
    let outcome = perform::run_labelled(
        own,
        columns,
        news,
        totals,
        fwd,
        bwd,
        pins,
        couplings,
        cuts,
        choices,
        greys,
        labels,
        grey_labels,
        counts,
        sizes,
        found,
        grey_found,
    );
    columns::copy(news, columns);
    Ok(outcome)
}
