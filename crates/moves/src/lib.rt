// The work of one task of a form that labels, on the columns of its group, once its input is tested: its label step, its choose step, and the two as one.
#![tactic(auto)]

ghost use Rattle.std.specs.Prelude.{◌≡◌, true, cond, ◌&&◌, eqb, get_or};
ghost use Rattle.paper.specs.Answer.Cases.{Answer.Held, Answer.Moved, answer_by};
ghost use Rattle.paper.specs.Panel.Takes.{is_cmr, one_cluster};
ghost use Rattle.paper.specs.Panel.Made.{call_of, choices_of};
ghost use Rattle.moves.specs.Leaves.{RunAsks, beside_of, changes, RunLeaves};
ghost use Rattle.moves.specs.Labelling.{GreysAsk, GreysLeave, FreeAsks, FreeLeaves, TaskAsks, TaskFor};
ghost use Rattle.moves.specs.Steps.{
  HoldAsks,
  HoldLeaves,
  LabelAsks,
  LabelsFor,
  ColumnsAsks,
  ColumnsLeave,
  SeedAsks,
  ChooseAsks,
  ChooseLeaves,
};

use lemmas::wide;
use paper::{Form, Outcome, Sampler, Task};

// The table of holding bonds. CMR has two: these are its blue ones, and grey the table of its grey ones.
fn hold(
    t: Task,
    fwd: &[u32],
    couplings: &[i32],
    cuts: &[f32],
    acts: &[u8],
    cols: &[u8],
    holds: &mut [u8],
    grey: &mut [u8],
)
    requires { HoldAsks t fwd.now couplings.now cuts.now acts.now cols.now holds.old grey.old }
    ensures { HoldLeaves t fwd.now couplings.now cuts.now acts.now cols.now
        holds.new grey.new }
{
    let mode = t.mode;
    let sampler = Sampler::new(t.temperature);
    if mode.is_cmr() {
        let form = t.form;
        if form.moves() {
            bonds::cmr_bonds(t.n, t.d, fwd, couplings, cuts, sampler, cols, holds, grey);
        } else {
            bonds::blue_bonds(t.n, t.d, fwd, couplings, cuts, sampler, cols, holds);
        }
    } else if mode.is_drawn() {
        let group = t.group;
        bonds::jorg_bonds(
            t.n, t.d, fwd, couplings, cuts, group, sampler, acts, cols, holds,
        );
    } else {
        bonds::active_bonds(t.n, t.d, fwd, acts, holds);
    }
}

// Labels the components of the group's bonds, writes how many there are, and counts those that act. True where some site acts.
fn label_columns(
    t: Task,
    cols: &[u8],
    fwd: &[u32],
    couplings: &[i32],
    cuts: &[f32],
    acts: &mut [u8],
    holds: &mut [u8],
    grey: &mut [u8],
    tally: &mut [u32],
    labels: &mut [u32],
    counts: &mut [u32],
    sizes: &mut [u32],
    found: &mut [u32],
) -> bool
    requires { LabelAsks t fwd.now couplings.now cuts.now
        cols.now acts.old holds.old grey.old tally.old labels.old counts.old sizes.old found.old }
    ensures { LabelsFor t fwd.now couplings.now cuts.now
        cols.now acts.new grey.new tally.new labels.new counts.new sizes.new
        found.new result }
{
    let mode = t.mode;
    let group = t.group;
    let n = t.n;
    let some = column_rules::look_columns(mode, group, t.reference, cols, acts);
    hold(t, fwd, couplings, cuts, acts, cols, holds, grey);
    let many = label::label(n, t.d, fwd, holds, labels, tally);
    found[0] = many;
    label::count(labels, many, tally, acts, counts, sizes);
    some
}

// Writes each site's new column from the choices of its component, unless the tally says that it is held. In CMR these are the blue flips.
fn choose_columns(
    t: Task,
    acts: &[u8],
    labels: &[u32],
    tally: &[u32],
    choices: &[u8],
    reached: &mut [u8],
    cols: &mut [u8],
)
    requires { ColumnsAsks t acts.now labels.now tally.now choices.now reached.old cols.old }
    ensures { ColumnsLeave t acts.now labels.now tally.now choices.now cols.old
        cols.new }
{
    let mode = t.mode;
    let form = t.form;
    let group = t.group;
    choose::reach(mode, form, t.seed, acts, labels, tally, reached);
    if mode.is_perm() {
        let gauge = columns::gauge(mode, group, t.reference, cols);
        choose::permute_columns(form, group, gauge, reached, labels, choices, cols);
    } else {
        choose::flip_columns(
            form,
            reached,
            labels,
            choices,
            column_rules::flip_table(mode, group),
            cols,
        );
    }
}

// Is the one component that the form would move held?
fn seed_held(form: Form, seed: usize, labels: &[u32], tally: &[u32]) -> bool
    requires { one_cluster form ≡ true → SeedAsks seed labels.now tally.now }
    ensures { result ≡ (one_cluster form && eqb (get_or tally.now (get_or labels.now seed 0) 0) 0) }
{
    form.one_cluster() && tally[wide(labels[seed])] == 0
}

// The answer where some site acts.
fn answered(held: bool) -> Outcome
    ensures { answer_by result ≡ cond held Held Moved }
{
    if held { Outcome::Held } else { Outcome::Moved }
}

// In CMR the grey labels, how many grey components there are, and the sizes of those that are not held.
fn free_greys(
    t: Task,
    fwd: &[u32],
    pins: &[u8],
    grey: &[u8],
    grey_labels: &mut [u32],
    grey_tally: &mut [u32],
    grey_found: &mut [u32],
)
    requires { GreysAsk t fwd.now pins.now grey.now grey_labels.old grey_tally.old grey_found.old }
    ensures { GreysLeave (is_cmr t.mode) t fwd.now pins.now grey.now
        grey_labels.old grey_found.old
        grey_labels.new grey_tally.new grey_found.new }
{
    let mode = t.mode;
    if mode.is_cmr() {
        grey_found[0] = label::label(t.n, t.d, fwd, grey, grey_labels, grey_tally);
        choose::hold_back(pins, grey_labels, grey_tally);
    }
}

// Where some site acts and the form moves: a component with a pinned site is held, and leaves the sizes. The answer is held where the form moves one
// component and that is held.
fn free_task(
    t: Task,
    some: bool,
    fwd: &[u32],
    pins: &[u8],
    grey: &[u8],
    labels: &[u32],
    tally: &mut [u32],
    grey_labels: &mut [u32],
    grey_tally: &mut [u32],
    grey_found: &mut [u32],
) -> Outcome
    requires { FreeAsks t fwd.now pins.now grey.now labels.now tally.old grey_labels.old grey_tally.old grey_found.old }
    ensures { FreeLeaves t some fwd.now pins.now grey.now labels.now
        grey_labels.old grey_found.old
        tally.new grey_labels.new grey_tally.new grey_found.new (answer_by result) }
{
    if !some {
        return Outcome::Idle;
    }
    let form = t.form;
    if form.moves() {
        choose::hold_back(pins, labels, tally);
        free_greys(t, fwd, pins, grey, grey_labels, grey_tally, grey_found);
        let held = seed_held(form, t.seed, labels, tally);
        return answered(held);
    }
    Outcome::Moved
}

// The label step of a task of a form that labels, on the columns of its group, whose input is tested: all that the task writes beside the spins, and the
// answer. The sites that act and the sizes of the components that are not held are for the choose step; the other work arrays are of no use behind it.
pub fn label_task(
    t: Task,
    cols: &[u8],
    fwd: &[u32],
    pins: &[u8],
    couplings: &[i32],
    cuts: &[f32],
    acts: &mut [u8],
    holds: &mut [u8],
    grey: &mut [u8],
    tally: &mut [u32],
    grey_tally: &mut [u32],
    labels: &mut [u32],
    grey_labels: &mut [u32],
    counts: &mut [u32],
    sizes: &mut [u32],
    found: &mut [u32],
    grey_found: &mut [u32],
) -> Outcome
    requires { TaskAsks t fwd.now pins.now couplings.now cuts.now cols.now
        acts.old holds.old grey.old tally.old grey_tally.old
        labels.old grey_labels.old counts.old sizes.old found.old grey_found.old }
    ensures { TaskFor t fwd.now pins.now couplings.now cuts.now cols.now
        (beside_of labels.old grey_labels.old counts.old sizes.old
        found.old grey_found.old)
        acts.new tally.new grey_tally.new
        (beside_of labels.new grey_labels.new counts.new sizes.new
        found.new grey_found.new) (answer_by result) }
{
    let some = label_columns(
        t, cols, fwd, couplings, cuts, acts, holds, grey, tally, labels, counts, sizes, found,
    );
    free_task(
        t,
        some,
        fwd,
        pins,
        grey,
        labels,
        tally,
        grey_labels,
        grey_tally,
        grey_found,
    )
}

// The choose step: the new column of every site, by any labels and the sizes of those that are not held; in CMR the blue flips, then what the grey numbers
// lent for the grey labels do. Nothing is labelled and no row is written.
pub fn choose_task(
    t: Task,
    choices: &[u8],
    greys: &[u8],
    acts: &[u8],
    labels: &[u32],
    tally: &[u32],
    grey_labels: &[u32],
    grey_tally: &[u32],
    reached: &mut [u8],
    cols: &mut [u8],
)
    requires { ChooseAsks t choices.now greys.now acts.now labels.now tally.now grey_labels.now grey_tally.now reached.old
        cols.old }
    ensures { ChooseLeaves t choices.now greys.now acts.now labels.now tally.now
        grey_labels.now grey_tally.now cols.old cols.new }
{
    let mode = t.mode;
    choose_columns(t, acts, labels, tally, choices, reached, cols);
    if mode.is_cmr() {
        let form = t.form;
        choose::reach(mode, form, t.seed, acts, grey_labels, grey_tally, reached);
        choose::grey_columns(form, reached, grey_labels, greys, cols);
    }
}

// May a task of the form that gave this answer have changed columns?
pub fn changed(form: Form, answer: Outcome) -> bool
    ensures { result ≡ changes form (answer_by answer) }
{
    match answer {
        Outcome::Idle => false,
        Outcome::Held => false,
        Outcome::Moved => form.moves(),
    }
}

// One task of a form that labels, on the columns of its group, whose input is tested: labels, how many components there are, counts, sizes and the new
// columns as the paper has them. Components with a pinned site stay; held is the answer where that is the one that the form would move. The work arrays
// are this call's own.
pub fn run_columns(
    t: Task,
    cols: &[u8],
    news: &mut [u8],
    fwd: &[u32],
    bwd: &[u32],
    pins: &[u8],
    couplings: &[i32],
    cuts: &[f32],
    choices: &[u8],
    greys: &[u8],
    labels: &mut [u32],
    grey_labels: &mut [u32],
    counts: &mut [u32],
    sizes: &mut [u32],
    found: &mut [u32],
    grey_found: &mut [u32],
) -> Outcome
    requires { RunAsks
        (call_of t fwd.now bwd.now pins.now couplings.now cuts.now)
        (choices_of choices.now greys.now)
        cols.now news.old labels.old grey_labels.old counts.old sizes.old found.old grey_found.old }
    ensures { RunLeaves
        (call_of t fwd.now bwd.now pins.now couplings.now cuts.now)
        (choices_of choices.now greys.now)
        cols.now
        (beside_of labels.old grey_labels.old counts.old sizes.old
        found.old grey_found.old)
        (answer_by result)
        news.new
        (beside_of labels.new grey_labels.new counts.new sizes.new
        found.new grey_found.new) }
{
    let n = t.n;
    let bonds = n * t.d;
    let mut acts_area = [0u8; 4096];
    let mut holds_area = [0u8; 16384];
    let mut grey_area = [0u8; 16384];
    let mut tally_area = [0u32; 4096];
    let mut grey_tally_area = [0u32; 4096];
    let acts = &mut acts_area[..n];
    let holds = &mut holds_area[..bonds];
    let grey = &mut grey_area[..bonds];
    let tally = &mut tally_area[..n];
    let grey_tally = &mut grey_tally_area[..n];
    let answer = label_task(
        t,
        cols,
        fwd,
        pins,
        couplings,
        cuts,
        acts,
        holds,
        grey,
        tally,
        grey_tally,
        labels,
        grey_labels,
        counts,
        sizes,
        found,
        grey_found,
    );
    columns::copy(cols, news);
    let form = t.form;
    if !changed(form, answer) {
        return answer;
    }
    let mut reached = [0u8; 4096];
    choose_task(
        t,
        choices,
        greys,
        acts,
        labels,
        tally,
        grey_labels,
        grey_tally,
        &mut reached[..n],
        news,
    );
    answer
}
