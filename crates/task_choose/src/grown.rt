// The form that grows: the new column of each member of the cluster. No other site's column is read, and blocks without a member are passed over.
ghost use Rattle.std.specs.Prelude.{◌≡◌, ◌&&◌, [], ◌<◌, eqb, length, get_or};
ghost use Rattle.lemmas.specs.Tells.{Tells};
ghost use Rattle.paper.specs.Panel.Made.{call_of, choices_of};
ghost use Rattle.paper.specs.Move.Moving.{has_one};
ghost use Rattle.task_choose.specs.Blocks.{Part, NoneMarked, Between};
ghost use Rattle.task_choose.specs.Grown.{member_column, Turning, Listing, GrownAsks, GrownLeaves};

use paper::{Group, Mode, Task};

// Is a marked site pinned? A look at every byte, without an early exit: so it is vector code.
fn some_pinned(pins: &[u8], marks: &[u8]) -> bool
    requires { length pins.now ≡ length marks.now }
    ensures { result ≡ has_one (λ i. eqb (get_or pins.now i 0) 1) marks.now 1 }
{
    let mut found = false;
    for (i, &mark) in marks.iter().enumerate() {
        found |= (mark == 1) & (pins[i] == 1);
    }
    found
}

// Is no site from `from` to below `to` marked? Without an early exit as well.
fn none_marked(marks: &[u8], from: usize, to: usize) -> bool
    requires { Part from to (length marks.now) }
    ensures { Tells result (NoneMarked marks.now from to) }
{
    let mut none = true;
    for &mark in &marks[from..to] {
        none &= mark != 1;
    }
    none
}

// The column of a site after the move, of a cluster whose choice it takes if it acts. In CMR the grey number lent is then made.
fn member_column(
    t: Task,
    gauge: u8,
    rows: &[i8],
    choices: &[u8],
    greys: &[u8],
    takes: bool,
    i: usize,
) -> u8
    requires turning { Turning t rows.now choices.now greys.now }
    requires i_lt_n { i < t.n }
    ensures { result ≡ member_column t gauge rows.now choices.now greys.now takes i }
{
    let mode = t.mode;
    let group = t.group;
    let column = columns::quick_column_at(rows, t.n, group, i);
    let acts = column_rules::acts_column(mode, group, column ^ gauge);
    turn::turned_column(t, gauge, choices, greys, acts & takes, column)
}

// The members from `from` to below `to`. Those that `takers` marks take the cluster's choice, where it is free.
fn choose_sites(
    t: Task,
    gauge: u8,
    rows: &[i8],
    choices: &[u8],
    greys: &[u8],
    takers: &[u8],
    free: bool,
    members: &[u8],
    from: usize,
    to: usize,
    area: &mut [u8],
)
    requires turning { Turning t rows.now choices.now greys.now }
    requires listing { Listing t.n takers.now members.now area.old }
    requires part { Part from to t.n }
    ensures { Between members.now
        (λ i. member_column t gauge rows.now choices.now greys.now (free && eqb (get_or takers.now i 0) 1) i)
        from to area.old area.new }
{
    for i in from..to {
        if members[i] == 1 {
            area[i] = member_column(t, gauge, rows, choices, greys, free & (takers[i] == 1), i);
        }
    }
}

// One block.
fn choose_block(
    t: Task,
    gauge: u8,
    rows: &[i8],
    choices: &[u8],
    greys: &[u8],
    takers: &[u8],
    free: bool,
    members: &[u8],
    from: usize,
    to: usize,
    area: &mut [u8],
)
    requires turning { Turning t rows.now choices.now greys.now }
    requires listing { Listing t.n takers.now members.now area.old }
    requires part { Part from to t.n }
    ensures { Between members.now
        (λ i. member_column t gauge rows.now choices.now greys.now (free && eqb (get_or takers.now i 0) 1) i)
        from to area.old area.new }
{
    if none_marked(members, from, to) {
        return;
    }
    choose_sites(
        t, gauge, rows, choices, greys, takers, free, members, from, to, area,
    );
}

// All members, block by block.
fn choose_members(
    t: Task,
    gauge: u8,
    rows: &[i8],
    choices: &[u8],
    greys: &[u8],
    takers: &[u8],
    free: bool,
    members: &[u8],
    area: &mut [u8],
)
    requires turning { Turning t rows.now choices.now greys.now }
    requires listing { Listing t.n takers.now members.now area.old }
    ensures { Between members.now
        (λ i. member_column t gauge rows.now choices.now greys.now (free && eqb (get_or takers.now i 0) 1) i)
        0 t.n area.old area.new }
{
    let n = t.n;
    for from in (0..n).step_by(64) {
        let to = (from + 64).min(n);
        choose_block(
            t, gauge, rows, choices, greys, takers, free, members, from, to, area,
        );
    }
}

// The new columns of the members. In CMR the blue ones take the cluster's choice, else all, unless one of those that take it is pinned; a pinned member
// holds CMR's grey component, as the grey number 0 would.
pub(crate) fn choose_grown(
    t: Task,
    rows: &[i8],
    pins: &[u8],
    choices: &[u8],
    greys: &[u8],
    members: &[u8],
    blue: &[u8],
    area: &mut [u8],
)
    requires { GrownAsks t rows.now pins.now choices.now greys.now members.now blue.now area.old }
    ensures { GrownLeaves
        (call_of t [] [] pins.now [] []) (choices_of choices.now greys.now) rows.now
        members.now blue.now area.old area.new }
{
    let mode = t.mode;
    let group = t.group;
    let gauge = columns::gauge_at(mode, rows, t.n, group, t.reference);
    if !mode.is_cmr() {
        let free = !some_pinned(pins, members);
        choose_members(t, gauge, rows, choices, greys, members, free, members, area);
        return;
    }
    let free = !some_pinned(pins, blue);
    if some_pinned(pins, members) {
        let none = [0u8; 1];
        choose_members(t, gauge, rows, choices, &none, blue, free, members, area);
    } else {
        choose_members(t, gauge, rows, choices, greys, blue, free, members, area);
    }
}
