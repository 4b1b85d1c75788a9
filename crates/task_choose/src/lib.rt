// The second step of a task, on its own rows: the column of each site after the move, from what the first step found. No row is written.
#![tactic(auto)]

mod grown;
mod labelled;
mod tested;

ghost use Rattle.std.specs.Prelude.{[]};
ghost use Rattle.paper.specs.Panel.Made.{call_of, choices_of};
ghost use Rattle.paper.specs.Refusal.Numbers.{verdict_of};
ghost use Rattle.packing.specs.Bytes.{own_task};
ghost use Rattle.task_steps.specs.Choose.{found_of, ChooseAnswers};

use paper::{Group, Refusal, Task};

// The labels, members and blue sites are taken as they are told: the step does not ask whether they are those of the rows. Of the group only its size is
// looked at, and not the number of systems. The form that grows has columns at its members alone.
pub fn task_choose(
    t: Task,
    rows: &[i8],
    pins: &[u8],
    choices: &[u8],
    greys: &[u8],
    labels: &[u32],
    grey_labels: &[u32],
    members: &[u8],
    blue: &[u8],
    area: &mut [u8],
) -> Result<(), Refusal>
    ensures { ChooseAnswers
        (call_of (own_task t) [] [] pins.now [] [])
        (choices_of choices.now greys.now)
        rows.now
        (found_of labels.now grey_labels.now members.now blue.now)
        area.old (verdict_of result) area.new }
{
    let size = t.group.len;
    let own = Task {
        s: size,
        group: Group {
            len: size,
            systems: [0, 1, 2, 3, 4, 5, 6, 7],
        },
        ..t
    };
    tested::test_choose(
        own,
        rows,
        pins,
        choices,
        greys,
        labels,
        grey_labels,
        members,
        blue,
        area,
    )?;
    if t.form.grows() {
        grown::choose_grown(own, rows, pins, choices, greys, members, blue, area);
        return Ok(());
    }
    labelled::choose_labelled(own, rows, pins, choices, greys, labels, grey_labels, area);
    Ok(())
}
