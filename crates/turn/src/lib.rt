// The members of one cluster turned, from a list of their sites: their new columns are chosen, and then written. No other site is read or written.
#![tactic(auto)]

ghost use Rattle.std.specs.Prelude.{◌≡◌, length};
ghost use Rattle.column_rules.specs.Acted.{choice_column};
ghost use Rattle.turn.specs.Turned.{Chooses, Turns, turned_column, Choosable, ColumnsTurned, ListWritable, ListWritten};

use lemmas::wide;
use paper::{Group, Task};

// What the cluster's choice makes of a member's column.
#[inline(always)]
fn act_column(t: Task, gauge: u8, choices: &[u8], column: u8) -> u8
    requires { Chooses t choices.now }
    ensures { result ≡ choice_column t.mode t.form t.group.len gauge choices.now 0 column }
{
    let mode = t.mode;
    let group = t.group;
    if mode.is_perm() {
        return columns::permute_group_site(column ^ gauge, group, choices) ^ gauge;
    }
    column_rules::flip_group_site(column, group, mode)
}

// A member's new column: where it acts the cluster's choice is made, and in CMR then the grey flips. Without the two hints it, or the choice, may be called
// for each member of a grown cluster, with a copy of the task each time.
#[inline(always)]
pub fn turned_column(t: Task, gauge: u8, choices: &[u8], greys: &[u8], acts: bool, column: u8) -> u8
    requires { Turns t choices.now greys.now column }
    ensures { result ≡ turned_column t gauge choices.now greys.now acts column }
{
    let mut out = column;
    if acts {
        out = act_column(t, gauge, choices, column);
    }
    let mode = t.mode;
    if mode.is_cmr() {
        out = choose::grey_column(greys[0], out);
    }
    out
}

// The new columns of the first `len` sites of the list, from those that they have, both by site. The first `blue` sites take the cluster's choice; in CMR
// all take the grey flips. gperm's gauge is that of the spins before the move: no spin is read.
pub fn turn_columns(
    t: Task,
    gauge: u8,
    choices: &[u8],
    greys: &[u8],
    list: &[u32],
    cols: &[u8],
    blue: usize,
    len: usize,
    news: &mut [u8],
)
    requires { Choosable t choices.now greys.now list.now cols.now len (length news.old) }
    ensures { ColumnsTurned
        t gauge choices.now greys.now list.now cols.now blue len news.old news.new }
{
    for (x, &site) in list[..len].iter().enumerate() {
        let i = wide(site);
        news[i] = turned_column(t, gauge, choices, greys, x < blue, cols[i]);
    }
}

// Writes the group's spins at the first `len` sites of the list from their columns.
pub fn write_listed(spins: &mut [i8], n: usize, group: Group, list: &[u32], len: usize, news: &[u8])
    requires { ListWritable n group spins.old list.now len news.now }
    ensures { ListWritten n group list.now len news.now spins.old spins.new }
{
    let size = group.len;
    let systems = group.systems;
    for &site in &list[..len] {
        let i = wide(site);
        columns::write_site(spins, n, size, &systems, i, news[i]);
    }
}
