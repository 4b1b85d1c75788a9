// The third step of a task (14/14): its rows become what the columns of the area show, and its totals are brought current.
#![tactic(auto)]

mod grown;
mod labelled;
mod marks;
mod tested;

ghost use Rattle.std.specs.Prelude.{[]};
ghost use Rattle.paper.specs.Panel.Made.{call_of};
ghost use Rattle.paper.specs.Panel.Takes.{keeps_by};
ghost use Rattle.paper.specs.Refusal.Numbers.{verdict_of};
ghost use Rattle.packing.specs.Bytes.{own_task};
ghost use Rattle.task_steps.specs.Write.{shape_of, writing_of, WriteAnswers};

use paper::{Group, Refusal, Task};

// Of the group only its size is looked at, and not the number of systems: the rows are the members' own, in their order. The form that grows reads the
// area at its members alone; where no totals are kept, tables, couplings and totals are not looked at.
pub fn task_write(
    t: Task,
    rows: &mut [i8],
    totals: &mut [i64],
    fwd: &[u32],
    bwd: &[u32],
    couplings: &[i32],
    members: &[u8],
    area: &[u8],
) -> Result<(), Refusal>
    ensures { WriteAnswers
        (keeps_by t.keeps t.form)
        (shape_of (call_of (own_task t) fwd.now bwd.now [] couplings.now []))
        (writing_of rows.old members.now area.now totals.old)
        (verdict_of result) rows.new totals.new }
{
    let size = t.group.len;
    let own = Task {
        s: size,
        group: Group {
            len: size,
            systems: [0, 1, 2, 3, 4, 5, 6, 7],
        },
        ..t
    };
    tested::test_write(own, rows, totals, fwd, bwd, couplings, members, area)?;
    if t.form.grows() {
        grown::write_grown(own, rows, totals, fwd, bwd, couplings, members, area);
        return Ok(());
    }
    labelled::write_labelled(own, rows, totals, fwd, bwd, couplings, area);
    Ok(())
}
