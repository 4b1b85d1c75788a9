// The form that grows: the members' sites alone are read and written.
ghost use Rattle.std.specs.Prelude.{◌≡◌, length};
ghost use Rattle.paper.specs.Panel.Takes.{keeps_by};
ghost use Rattle.paper.specs.Refusal.Rules.{When};
ghost use Rattle.paper.specs.Answer.Totals.{TotalsAfter};
ghost use Rattle.totals.specs.Contract.{lattice_for};
ghost use Rattle.grow.specs.Totals.{OldsRead};
ghost use Rattle.task_write.specs.Sites.{Readable};
ghost use Rattle.task_write.specs.Wrote.{Ready, MembersWritten};

use crate::marks;
use grow::write::write_cluster;
use lemmas::wide;
use paper::{Form, Group, Keeps, Task};

// Reads the columns of the first len sites of the list.
fn read_listed(rows: &[i8], n: usize, group: Group, list: &[u32], len: usize, cols: &mut [u8])
    requires { Readable n group rows.now list.now len (length cols.old) }
    ensures { OldsRead n group rows.now list.now len cols.new }
{
    for &site in &list[..len] {
        let i = wide(site);
        cols[i] = columns::column_at(rows, n, group, i);
    }
}

// The members' columns before, where the task keeps totals.
fn read_kept(t: Task, rows: &[i8], list: &[u32], len: usize, olds: &mut [u8])
    requires { Readable t.n t.group rows.now list.now len (length olds.old) }
    ensures { When
        (keeps_by t.keeps t.form) (OldsRead t.n t.group rows.now list.now len olds.new) }
{
    let keeps = t.keeps;
    let form = t.form;
    if !keeps.totals(form) {
        return;
    }
    let group = t.group;
    read_listed(rows, t.n, group, list, len, olds);
}

// The columns are copied: what writes them overwrites its areas.
pub(crate) fn write_grown(
    t: Task,
    rows: &mut [i8],
    totals: &mut [i64],
    fwd: &[u32],
    bwd: &[u32],
    couplings: &[i32],
    members: &[u8],
    area: &[u8],
)
    requires ready { Ready t fwd.now bwd.now couplings.now rows.old area.now totals.old }
    requires members_len { length members.now ≡ t.n }
    ensures members_written { MembersWritten t.n t.group members.now area.now rows.old rows.new }
    ensures totals_after { TotalsAfter
        (keeps_by t.keeps t.form) (lattice_for t fwd.now bwd.now couplings.now)
        rows.old totals.old rows.new totals.new }
{
    let mut list = [0u32; 4096];
    let len = marks::list_marked(members, &mut list);
    let mut olds = [0u8; 4096];
    read_kept(t, rows, &list, len, &mut olds);
    let mut room = [0u8; 4096];
    let news = &mut room[..t.n];
    columns::copy(area, news);
    write_cluster(
        t, rows, totals, fwd, bwd, couplings, members, &list, len, &mut olds, news,
    );
}
