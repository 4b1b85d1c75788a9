// The first step of a task, on its own rows: what a move tests, and what it writes beside the spins.
#![tactic(auto)]

mod grown;
mod labelled;
mod tested;

ghost use Rattle.paper.specs.Panel.Made.{call_of, choices_of, buffers_of};
ghost use Rattle.paper.specs.Answer.Cases.{answer_of};
ghost use Rattle.packing.specs.Bytes.{own_task};
ghost use Rattle.task_steps.specs.Label.{LabelAnswers};

use paper::{Group, Keeps, Lengths, Outcome, Refusal, Task};

// The tests of a move of the group's rows, in its members' order, then labels, counts and sizes, or of the form that grows the members. The answer is what
// the move will answer. Of the group only its size is looked at, and not what the task keeps; no row is written.
pub fn task_label(
    t: Task,
    rows: &[i8],
    fwd: &[u32],
    bwd: &[u32],
    pins: &[u8],
    couplings: &[i32],
    cuts: &[f32],
    choices: &[u8],
    greys: &[u8],
    labels: &mut [u32],
    grey_labels: &mut [u32],
    counts: &mut [u32],
    sizes: &mut [u32],
    members: &mut [u8],
    found: &mut [u32],
    grey_found: &mut [u32],
    blue: &mut [u8],
) -> Result<Outcome, Refusal>
    ensures { LabelAnswers
        (call_of (own_task t) fwd.now bwd.now pins.now couplings.now cuts.now)
        (choices_of choices.now greys.now)
        (buffers_of rows.now labels.old grey_labels.old counts.old sizes.old
        members.old found.old grey_found.old)
        blue.old
        (answer_of result)
        (buffers_of rows.now labels.new grey_labels.new counts.new sizes.new
        members.new found.new grey_found.new)
        blue.new }
{
    let size = t.group.len;
    let own = Task {
        keeps: Keeps::Nothing,
        s: size,
        group: Group {
            len: size,
            systems: [0, 1, 2, 3, 4, 5, 6, 7],
        },
        ..t
    };
    let l = Lengths {
        spins: rows.len(),
        fwd: fwd.len(),
        bwd: bwd.len(),
        pins: pins.len(),
        couplings: couplings.len(),
        cuts: cuts.len(),
        choices: choices.len(),
        greys: greys.len(),
        labels: labels.len(),
        grey_labels: grey_labels.len(),
        counts: counts.len(),
        sizes: sizes.len(),
        members: members.len(),
        found: found.len(),
        grey_found: grey_found.len(),
    };
    tested::test_label(
        own,
        rows,
        fwd,
        bwd,
        pins,
        couplings,
        cuts,
        choices,
        greys,
        l,
        blue.len(),
    )?;
    if t.form.grows() {
        return Ok(grown::label_grown(own, rows, fwd, bwd, pins, couplings, cuts, members, blue));
    }
    Ok(labelled::label_rows(
        own,
        rows,
        fwd,
        pins,
        couplings,
        cuts,
        labels,
        grey_labels,
        counts,
        sizes,
        found,
        grey_found,
    ))
}
