// The form that grows. Its cluster is grown on rows, which it reads only where it reaches.
ghost use Rattle.paper.specs.Panel.Made.{lattice_of, call_of, choices_of};
ghost use Rattle.paper.specs.Panel.Takes.{keeps_by};
ghost use Rattle.paper.specs.Answer.Totals.{TotalsReady};
ghost use Rattle.paper.specs.Answer.Cases.{answer_by};
ghost use Rattle.packed.specs.Grown.{GrownAsks, GrownLeaves};

use paper::{Group, Outcome, Task};

// The rows that the bytes stand for, the task on them, and their bytes.
pub(crate) fn run_grown(
    t: Task,
    columns: &mut [u8],
    totals: &mut [i64],
    fwd: &[u32],
    bwd: &[u32],
    pins: &[u8],
    couplings: &[i32],
    cuts: &[f32],
    choices: &[u8],
    greys: &[u8],
    members: &mut [u8],
) -> Outcome
    requires grown_asks { GrownAsks
        (call_of t fwd.now bwd.now pins.now couplings.now cuts.now) (choices_of choices.now greys.now) columns.old members.old }
    requires totals_ready { TotalsReady (keeps_by t.keeps t.form) (lattice_of t.n t.d t.s fwd.now bwd.now couplings.now) t.group totals.old }
    ensures { GrownLeaves
        (keeps_by t.keeps t.form)
        (call_of t fwd.now bwd.now pins.now couplings.now cuts.now)
        (choices_of choices.now greys.now)
        columns.old members.old totals.old
        (answer_by result)
        columns.new members.new totals.new }
{
    let n = t.n;
    let group = t.group;
    let long = group.len * n;
    let mut area = [0i8; 32768];
    let rows = &mut area[..long];
    columns::write_rows(rows, n, group, columns);
    let answer = grow::run_grow(
        t, rows, totals, fwd, bwd, pins, couplings, cuts, choices, greys, members,
    );
    columns::pack(rows, n, group, columns);
    answer
}
