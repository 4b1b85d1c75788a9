// The choose step of a move: each site's new column, from the labels, the pins and the lent choices.
#![tactic(auto)]

ghost use Rattle.std.specs.Prelude.{◌≡◌, true, cond, ◌&&◌, ◌<◌, eqb, leb, length, get_or};
ghost use Rattle.paper.specs.Panel.Takes.{is_sw, one_cluster, grows_by, entry};
ghost use Rattle.paper.specs.Component.Sizes.{Sized};
ghost use Rattle.paper.specs.Move.Moving.{flip_by, least_size};
ghost use Rattle.lemmas.specs.Tells.{Tells, Each};
ghost use Rattle.choose.specs.Chosen.{
  Becomes,
  Holdable,
  held_back,
  Freed,
  Tallyable,
  Marked,
  Reached,
  Flips,
  flipped_at,
  Grey,
  greyed,
  Greys,
  greyed_at,
  Perms,
  permuted_at,
};

use lemmas::wide;
use lemmas::words::clear;
use paper::{Form, Group, Mode};
use std::hint::select_unpredictable;

// SW moves a component from this size on.
fn least_size(mode: Mode) -> u32
    ensures { result ≡ least_size mode }
{
    match mode {
        Mode::Houd | Mode::Pair | Mode::Jorg | Mode::Cmr => 2,
        Mode::Perm | Mode::Gperm => 1,
    }
}

// The label of the one component that moves. Grow's list has a 1 at its members in place of a label.
fn home(form: Form, seed: usize, labels: &[u32]) -> u32
    requires { one_cluster form ≡ true → seed < length labels.now }
    ensures { result ≡ cond (one_cluster form) (cond (grows_by form) 1 (get_or labels.now seed 0)) 0 }
{
    match form {
        Form::Wolff => labels[seed],
        Form::Grow => 1,
        Form::Sw | Form::Observe => 0,
    }
}

// Is no site pinned? A look at every byte, without an early exit: so it is vector code.
fn none_pinned(pins: &[u8]) -> bool
    ensures { Tells result (Each (length pins.now) (λ i. get_or pins.now i 0 ≡ 1 → ⊥)) }
{
    let mut none = true;
    for &pin in pins {
        none &= pin != 1;
    }
    none
}

// `hold_back`, where some site is pinned.
fn clear_held(pins: &[u8], labels: &[u32], tally: &mut [u32])
    requires { Holdable pins.now labels.now tally.old }
    ensures { Becomes (held_back pins.now labels.now tally.old) tally.old tally.new }
{
    for (i, &pin) in pins.iter().enumerate() {
        if pin == 1 {
            let label = wide(labels[i]);
            tally[label] = 0;
        }
    }
}

// Makes the tally of each component with a pinned site 0: then `reach` finds no site in it.
pub fn hold_back(pins: &[u8], labels: &[u32], tally: &mut [u32])
    requires { Holdable pins.now labels.now tally.old }
    ensures { Becomes (held_back pins.now labels.now tally.old) tally.old tally.new }
{
    if !none_pinned(pins) {
        clear_held(pins, labels, tally);
    }
}

// How many sites have each label.
fn tally_labels(labels: &[u32], tally: &mut [u32])
    requires { Tallyable labels.now labels.now tally.old }
    ensures { Sized labels.now tally.new }
{
    clear(tally);
    for &label in labels {
        tally[wide(label)] += 1;
    }
}

// The sizes that `reach` takes, from labels alone: how many sites have each label, and 0 where one of them is pinned.
pub fn tally_free(pins: &[u8], labels: &[u32], tally: &mut [u32])
    requires { Tallyable pins.now labels.now tally.old }
    ensures { Freed pins.now labels.now tally.new }
{
    tally_labels(labels, tally);
    hold_back(pins, labels, tally);
}

// Does the form move the component with this label and size? One that is held has the size 0.
fn reaches(form: Form, least: u32, size: u32, label: u32, home: u32) -> bool
    ensures { result ≡ cond (is_sw form) (leb least size) (one_cluster form && (eqb label home && leb 1 size)) }
{
    match form {
        Form::Sw => least <= size,
        Form::Wolff | Form::Grow => (label == home) & (1 <= size),
        Form::Observe => false,
    }
}

// Marks the sites that move, by sizes from which `hold_back` took the components that are held.
pub fn reach(
    mode: Mode,
    form: Form,
    seed: usize,
    acts: &[u8],
    labels: &[u32],
    tally: &[u32],
    reached: &mut [u8],
)
    requires { Marked form seed acts.now labels.now tally.now reached.old }
    ensures { Reached form mode seed acts.now labels.now tally.now reached.new }
{
    let least = least_size(mode);
    let own = home(form, seed, labels);
    for i in 0..acts.len() {
        let label = labels[i];
        let size = tally[wide(label)];
        let on = (acts[i] == 1) & reaches(form, least, size, label, own);
        reached[i] = u8::from(on);
    }
}

// Is the component with this label flipped?
fn flip_at(form: Form, flips: &[u8], label: usize) -> bool
    requires { is_sw form ≡ true → label < length flips.now }
    ensures { result ≡ flip_by form flips.now label }
{
    match form {
        Form::Sw => flips[label] == 1,
        Form::Wolff | Form::Grow => true,
        Form::Observe => false,
    }
}

pub fn flip_columns(
    form: Form,
    reached: &[u8],
    labels: &[u32],
    flips: &[u8],
    table: [u8; 256],
    cols: &mut [u8],
)
    requires { Flips form reached.now labels.now flips.now cols.old }
    ensures { Becomes (flipped_at form reached.now labels.now flips.now table cols.old)
        cols.old cols.new }
{
    for i in 0..cols.len() {
        let old = cols[i];
        let label = wide(labels[i]);
        let flip = (reached[i] == 1) & flip_at(form, flips, label);
        cols[i] = select_unpredictable(flip, table[usize::from(old)], old);
    }
}

// Which entry of the choices is this component's?
fn entry_of(form: Form, label: usize) -> usize
    ensures { result ≡ entry form label }
{
    match form {
        Form::Sw => label,
        Form::Wolff | Form::Observe | Form::Grow => 0,
    }
}

// On two bits, the exclusive or is the flip of those that the grey number has.
pub fn grey_column(grey: u8, column: u8) -> u8
    requires { Grey grey column }
    ensures { result ≡ greyed grey column }
{
    column ^ grey
}

pub fn grey_columns(form: Form, reached: &[u8], labels: &[u32], greys: &[u8], cols: &mut [u8])
    requires { Greys form reached.now labels.now greys.now cols.old }
    ensures { Becomes (greyed_at form reached.now labels.now greys.now cols.old)
        cols.old cols.new }
{
    for i in 0..cols.len() {
        let old = cols[i];
        let at = entry_of(form, wide(labels[i]));
        let new = grey_column(greys[at], old);
        cols[i] = select_unpredictable(reached[i] == 1, new, old);
    }
}

// The component's permutation of each reached site, as the gauge shows it.
pub fn permute_columns(
    form: Form,
    group: Group,
    gauge: u8,
    reached: &[u8],
    labels: &[u32],
    perms: &[u8],
    cols: &mut [u8],
)
    requires { Perms form group.len reached.now labels.now perms.now cols.old }
    ensures { Becomes (permuted_at form group.len gauge reached.now labels.now perms.now cols.old)
        cols.old cols.new }
{
    let len = group.len;
    for i in 0..cols.len() {
        if reached[i] == 1 {
            let a = entry_of(form, wide(labels[i])) * len;
            let e = a + len;
            let seen = cols[i] ^ gauge;
            cols[i] = columns::permute_group_site(seen, group, &perms[a..e]) ^ gauge;
        }
    }
}
