// What pins hold, and what is chosen of the rest: they are looked at where a site is listed.
ghost use Rattle.std.specs.Prelude.{◌≤◌, length};
ghost use Rattle.lemmas.specs.Tells.{Tells};
ghost use Rattle.turn.specs.Turned.{Turnable};
ghost use Rattle.grow.specs.Pinned.{PinAmong, Lookable, ChosenFree};

use lemmas::wide;
use paper::Task;

// Is a site pinned that the list has at a place from `from` to below `to`? No other pin is read.
pub(crate) fn some_pinned(pins: &[u8], list: &[u32], from: usize, to: usize) -> bool
    requires { Lookable (length pins.now) list.now from to }
    ensures { Tells result (PinAmong pins.now list.now from to) }
{
    let mut found = false;
    for &site in &list[from..to] {
        found |= pins[wide(site)] == 1;
    }
    found
}

// The members' new columns, in a cluster of which no blue site is pinned. If another member is, which there is in CMR alone, the grey component is held:
// only the blue flip stands, as with the grey number 0. gperm's gauge is read before any spin is written.
pub(crate) fn choose_cluster(
    t: Task,
    spins: &[i8],
    pins: &[u8],
    choices: &[u8],
    greys: &[u8],
    list: &[u32],
    cols: &[u8],
    blue: usize,
    len: usize,
    news: &mut [u8],
)
    requires turnable { Turnable t spins.now choices.now greys.now list.now cols.now len }
    requires lookable { Lookable (length pins.now) list.now blue len }
    requires n_in_bounds { t.n ≤ length news.old }
    ensures { ChosenFree
        t pins.now choices.now greys.now list.now cols.now blue len spins.now
        news.old news.new }
{
    let mode = t.mode;
    let group = t.group;
    let gauge = columns::gauge_at(mode, spins, t.n, group, t.reference);
    if some_pinned(pins, list, blue, len) {
        let none = [0u8; 1];
        turn::turn_columns(t, gauge, choices, &none, list, cols, blue, len, news);
    } else {
        turn::turn_columns(t, gauge, choices, greys, list, cols, blue, len, news);
    }
}
