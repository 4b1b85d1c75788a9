// The forms that label: each row is written whole.
ghost use Rattle.columns.specs.Rows.{Written};
ghost use Rattle.paper.specs.Panel.Takes.{keeps_by};
ghost use Rattle.paper.specs.Answer.Totals.{TotalsAfter};
ghost use Rattle.totals.specs.Contract.{lattice_for};
ghost use Rattle.task_write.specs.Wrote.{Ready, Ahead};

use paper::{Form, Group, Keeps, Task};

// Brings the totals along ahead of the rows, which are still those before, if they are kept.
fn bring_ahead(
    t: Task,
    rows: &[i8],
    totals: &mut [i64],
    fwd: &[u32],
    bwd: &[u32],
    couplings: &[i32],
    area: &[u8],
)
    requires { Ready t fwd.now bwd.now couplings.now rows.now area.now totals.old }
    ensures { Ahead
        (keeps_by t.keeps t.form) (lattice_for t fwd.now bwd.now couplings.now) t.group
        area.now rows.now totals.old totals.new }
{
    let keeps = t.keeps;
    let form = t.form;
    if !keeps.totals(form) {
        return;
    }
    let n = t.n;
    let group = t.group;
    let mut olds = [0u8; 4096];
    let cols = &mut olds[..n];
    columns::pack(rows, n, group, cols);
    totals::bring_all(t, fwd, bwd, couplings, cols, area, totals);
}

pub(crate) fn write_labelled(
    t: Task,
    rows: &mut [i8],
    totals: &mut [i64],
    fwd: &[u32],
    bwd: &[u32],
    couplings: &[i32],
    area: &[u8],
)
    requires { Ready t fwd.now bwd.now couplings.now rows.old area.now totals.old }
    ensures written { Written t.n t.group.len t.group area.now rows.old rows.new }
    ensures totals_after { TotalsAfter
        (keeps_by t.keeps t.form) (lattice_for t fwd.now bwd.now couplings.now)
        rows.old totals.old rows.new totals.new }
{
    bring_ahead(t, rows, totals, fwd, bwd, couplings, area);
    let n = t.n;
    let group = t.group;
    columns::write_rows(rows, n, group, area);
}
