// The members' columns written, and the totals brought along.
ghost use Rattle.std.specs.Prelude.{length};
ghost use Rattle.paper.specs.Panel.Takes.{keeps_by};
ghost use Rattle.paper.specs.Refusal.Rules.{When};
ghost use Rattle.paper.specs.Answer.Totals.{TotalsAfter};
ghost use Rattle.totals.specs.Contract.{lattice_for, Bringable};
ghost use Rattle.turn.specs.Turned.{ListWritten};
ghost use Rattle.grow.specs.Totals.{Writable, OldsRead};

use paper::Task;

// Writes the group's spins at the members, which are listed, from any new columns, and brings the totals along where the task keeps them. For these
// `olds` has the members' columns before; elsewhere both areas are overwritten.
pub fn write_cluster(
    t: Task,
    spins: &mut [i8],
    totals: &mut [i64],
    fwd: &[u32],
    bwd: &[u32],
    couplings: &[i32],
    members: &[u8],
    list: &[u32],
    len: usize,
    olds: &mut [u8],
    news: &mut [u8],
)
    requires writable { Writable t spins.old members.now list.now len (length news.old) }
    requires bringable { When (keeps_by t.keeps t.form) (Bringable (lattice_for t fwd.now bwd.now couplings.now) t.group totals.old) }
    requires olds_read { When (keeps_by t.keeps t.form) (OldsRead t.n t.group spins.old list.now len olds.old) }
    ensures list_written { ListWritten t.n t.group list.now len news.old spins.old spins.new }
    ensures totals_after { TotalsAfter
        (keeps_by t.keeps t.form) (lattice_for t fwd.now bwd.now couplings.now)
        spins.old totals.old spins.new totals.new }
{
    let group = t.group;
    turn::write_listed(spins, t.n, group, list, len, news);
    let keeps = t.keeps;
    let form = t.form;
    if keeps.totals(form) {
        totals::bring_listed(
            t, spins, fwd, bwd, couplings, members, list, len, olds, news, totals,
        );
    }
}
