// The cluster of a seed, grown from site to site: only what it reaches is looked at.
ghost use Rattle.std.specs.Prelude.{length, get_or, ◌≡◌, List, ℕ};
ghost use Rattle.paper.specs.Panel.Made.{call_of};
ghost use Rattle.judge.specs.Judged.{Ready, BondOf, KnownToAct, column_for};
ghost use Rattle.judge.specs.Drawn.{judged_on};
ghost use Rattle.grow.specs.Kept.{Kept, Keeping};
ghost use Rattle.grow.specs.Growth.{Growing, Met, Visiting};
ghost use Rattle.grow.specs.Spread.{Next, Spreads};
ghost use Rattle.grow.specs.Contract.{graph_for, ruled, Grounds, Meeting, Waiting, Seedable, Grew};

use judge::{Rule, judge, prepare};
use lemmas::wide;
use paper::Task;

// A bond: the site that it starts at, and its direction.
#[derive(Clone, Copy)]
struct Bond(usize, usize);

// A bond is met at one end, which has the column `own`; `found` is its other end, which is not marked. If it holds, that site is marked and listed, and
// its column is kept. The new number of sites. What only the modes that draw read comes last: the first eight arguments need no memory.
fn meet(
    rule: Rule,
    spins: &[i8],
    members: &mut [u8],
    list: &mut [u32],
    cols: &mut [u8],
    len: usize,
    own: u8,
    found: usize,
    bond: Bond,
    couplings: &[i32],
    cuts: &[f32],
) -> usize
    requires ready { Ready rule spins.now couplings.now cuts.now }
    requires bond_of { BondOf rule.task bond.0 bond.1 }
    requires known_to_act { KnownToAct rule own }
    requires meeting { Meeting rule.task.n found members.old list.old len }
    requires kept { Kept rule.task spins.now members.old cols.old }
    ensures { Keeping (Met
        (judged_on rule couplings.now cuts.now bond.0 bond.1 own (column_for rule.task spins.now found))
        found members.old list.old len members.new list.new result)
        rule.task spins.now members.new cols.new }
{
    let t = rule.task;
    let group = t.group;
    let other = columns::quick_column_at(spins, t.n, group, found);
    if judge(rule, couplings, cuts, bond.0, bond.1, own, other) {
        members[found] = 1;
        list[len] = found as u32;
        cols[found] = other;
        return len + 1;
    }
    len
}

// Meets the bonds of site i in both senses that do not lead to a marked site. A bond has the coupling and the cut of the site that it starts at: one
// behind leads from its other end to i.
fn visit(
    rule: Rule,
    spins: &[i8],
    fwd: &[u32],
    bwd: &[u32],
    couplings: &[i32],
    cuts: &[f32],
    members: &mut [u8],
    list: &mut [u32],
    cols: &mut [u8],
    start: usize,
    i: usize,
) -> usize
    requires grounds { Grounds rule fwd.now bwd.now spins.now couplings.now cuts.now }
    requires growing { Growing
        (graph_for rule.task fwd.now) (ruled rule fwd.now spins.now couplings.now cuts.now) rule.task.seed members.old list.old start }
    requires i_value { get_or members.old i 0 ≡ 1 }
    requires kept { Kept rule.task spins.now members.old cols.old }
    ensures { Keeping (Visiting
        (graph_for rule.task fwd.now)
        (ruled rule fwd.now spins.now couplings.now cuts.now)
        rule.task.seed i members.old list.old start rule.task.d members.new list.new result)
        rule.task spins.now members.new cols.new }
{
    let t = rule.task;
    let own = cols[i];
    let d = t.d;
    let base = i * d;
    let mut len = start;
    for e in 0..d {
        let to = wide(fwd[base + e]);
        if members[to] != 1 {
            let ahead = Bond(i, e);
            len = meet(
                rule, spins, members, list, cols, len, own, to, ahead, couplings, cuts,
            );
        }
        let from = wide(bwd[base + e]);
        if members[from] != 1 {
            let back = Bond(from, e);
            len = meet(
                rule, spins, members, list, cols, len, own, from, back, couplings, cuts,
            );
        }
    }
    len
}

// The site to visit at the place head. Of the entries that the list started with each keeps its place; behind them the newest, at the place last, is
// put there, so that the growth goes deep first.
fn next(list: &mut [u32], start: usize, head: usize, last: usize) -> usize
    requires { Waiting head last (length list.old) }
    ensures { Next start head last list.old list.new result }
{
    if head < start {
        return wide(list[head]);
    }
    let newest = list[last];
    list[last] = list[head];
    list[head] = newest;
    wide(newest)
}

// Grows the cluster on from the `start` sites of the list, until none waits. The number of its sites.
fn spread(
    rule: Rule,
    spins: &[i8],
    fwd: &[u32],
    bwd: &[u32],
    couplings: &[i32],
    cuts: &[f32],
    members: &mut [u8],
    list: &mut [u32],
    cols: &mut [u8],
    start: usize,
) -> usize
    requires grounds { Grounds rule fwd.now bwd.now spins.now couplings.now cuts.now }
    requires growing { Growing
        (graph_for rule.task fwd.now) (ruled rule fwd.now spins.now couplings.now cuts.now) rule.task.seed members.old list.old start }
    requires kept { Kept rule.task spins.now members.old cols.old }
    ensures { Keeping (Spreads
        (graph_for rule.task fwd.now)
        (ruled rule fwd.now spins.now couplings.now cuts.now)
        rule.task.seed start list.old members.new list.new result)
        rule.task spins.now members.new cols.new }
{
    let mut len = start;
    let mut head = 0;
    while head < len {
        let i = next(list, start, head, len - 1);
        len = visit(
            rule, spins, fwd, bwd, couplings, cuts, members, list, cols, len, i,
        );
        head += 1;
    }
    len
}

// How many sites of the list the bonds join to the seed, in CMR the blue ones; and how many members there are.
#[derive(Clone, Copy)]
pub(crate) struct Grown {
    pub(crate) blue: usize,
    pub(crate) len: usize,
}

// The cluster of the task's seed, whatever is pinned. In CMR it is the grey one: it grows on from every site of the blue one, which stands first in the
// list.
pub(crate) fn grow_cluster(
    t: Task,
    spins: &[i8],
    fwd: &[u32],
    bwd: &[u32],
    couplings: &[i32],
    cuts: &[f32],
    members: &mut [u8],
    list: &mut [u32],
    cols: &mut [u8],
) -> Grown
    requires { Seedable t fwd.now bwd.now spins.now couplings.now cuts.now (length members.old) (length list.old) (length cols.old) }
    ensures { Keeping ((pins : List ℕ) → Grew
        (call_of t fwd.now bwd.now pins couplings.now cuts.now) spins.now
        members.new list.new result.blue result.len)
        t spins.now members.new cols.new }
{
    let seed = t.seed;
    lemmas::bytes::clear(members);
    members[seed] = 1;
    list[0] = seed as u32;
    let group = t.group;
    cols[seed] = columns::column_at(spins, t.n, group, seed);
    let rule = prepare(t, false, spins);
    let blue = spread(
        rule, spins, fwd, bwd, couplings, cuts, members, list, cols, 1,
    );
    let mode = t.mode;
    if mode.is_cmr() {
        let both = prepare(t, true, spins);
        let len = spread(
            both, spins, fwd, bwd, couplings, cuts, members, list, cols, blue,
        );
        return Grown { blue, len };
    }
    Grown { blue, len: blue }
}
