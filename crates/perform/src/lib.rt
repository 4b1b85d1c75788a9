// One task of any form, once its input is tested, and the totals beside it.
#![tactic(auto)]

ghost use Rattle.std.specs.Prelude.{◌≡◌, ℕ, List};
ghost use Rattle.paper.specs.Panel.Made.{lattice_of, call_of, choices_of, buffers_of};
ghost use Rattle.paper.specs.Panel.Takes.{keeps_by};
ghost use Rattle.paper.specs.Refusal.Kept.{Valid};
ghost use Rattle.paper.specs.Answer.Move.{Answers};
ghost use Rattle.paper.specs.Answer.Totals.{TotalsReady, TotalsAfter};
ghost use Rattle.paper.specs.Answer.Cases.{answer_by};
ghost use Rattle.moves.specs.Leaves.{RunAsks, beside_of, RunLeaves};
ghost use Rattle.perform.specs.Kept.{KeepsFor, RowsAsk};

use paper::{Form, Group, Keeps, Outcome, Task};

// A form that labels, on the columns of its group: those before the task and after it tell which sites changed.
pub fn run_labelled(
    t: Task,
    cols: &[u8],
    news: &mut [u8],
    totals: &mut [i64],
    fwd: &[u32],
    bwd: &[u32],
    pins: &[u8],
    couplings: &[i32],
    cuts: &[f32],
    choices: &[u8],
    greys: &[u8],
    labels: &mut [u32],
    grey_labels: &mut [u32],
    counts: &mut [u32],
    sizes: &mut [u32],
    found: &mut [u32],
    grey_found: &mut [u32],
) -> Outcome
    requires run_asks { RunAsks
        (call_of t fwd.now bwd.now pins.now couplings.now cuts.now)
        (choices_of choices.now greys.now)
        cols.now news.old labels.old grey_labels.old counts.old sizes.old found.old grey_found.old }
    requires totals_ready { TotalsReady
        (keeps_by t.keeps t.form) (lattice_of t.n t.d t.s fwd.now bwd.now couplings.now) t.group totals.old }
    ensures run_leaves { RunLeaves
        (call_of t fwd.now bwd.now pins.now couplings.now cuts.now)
        (choices_of choices.now greys.now)
        cols.now
        (beside_of labels.old grey_labels.old counts.old sizes.old
        found.old grey_found.old)
        (answer_by result)
        news.new
        (beside_of labels.new grey_labels.new counts.new sizes.new
        found.new grey_found.new) }
    ensures keeps_for { KeepsFor
        (keeps_by t.keeps t.form)
        (lattice_of t.n t.d t.s fwd.now bwd.now couplings.now)
        t.group cols.now news.new totals.old totals.new }
{
    let answer = moves::run_columns(
        t,
        cols,
        news,
        fwd,
        bwd,
        pins,
        couplings,
        cuts,
        choices,
        greys,
        labels,
        grey_labels,
        counts,
        sizes,
        found,
        grey_found,
    );
    let keeps = t.keeps;
    let form = t.form;
    if keeps.totals(form) {
        totals::bring_all(t, fwd, bwd, couplings, cols, news, totals);
    }
    answer
}

// The same on rows: they are packed, and written from the columns where these may have changed.
fn run_rows(
    t: Task,
    spins: &mut [i8],
    totals: &mut [i64],
    fwd: &[u32],
    bwd: &[u32],
    pins: &[u8],
    couplings: &[i32],
    cuts: &[f32],
    choices: &[u8],
    greys: &[u8],
    labels: &mut [u32],
    grey_labels: &mut [u32],
    counts: &mut [u32],
    sizes: &mut [u32],
    found: &mut [u32],
    grey_found: &mut [u32],
) -> Outcome
    requires rows_ask { RowsAsk
        (call_of t fwd.now bwd.now pins.now couplings.now cuts.now)
        (choices_of choices.now greys.now)
        spins.old labels.old grey_labels.old counts.old sizes.old found.old grey_found.old }
    requires totals_ready { TotalsReady
        (keeps_by t.keeps t.form) (lattice_of t.n t.d t.s fwd.now bwd.now couplings.now) t.group totals.old }
    ensures by_index { (members : List ℕ) → Answers
        (call_of t fwd.now bwd.now pins.now couplings.now cuts.now)
        (choices_of choices.now greys.now)
        (buffers_of spins.old labels.old grey_labels.old counts.old sizes.old members
        found.old grey_found.old)
        (answer_by result)
        (buffers_of spins.new labels.new grey_labels.new counts.new sizes.new members
        found.new grey_found.new) }
    ensures totals_after { TotalsAfter
        (keeps_by t.keeps t.form)
        (lattice_of t.n t.d t.s fwd.now bwd.now couplings.now)
        spins.old totals.old spins.new totals.new }
{
    let n = t.n;
    let group = t.group;
    let mut old_area = [0u8; 4096];
    let mut new_area = [0u8; 4096];
    let cols = &mut old_area[..n];
    let news = &mut new_area[..n];
    columns::pack(spins, n, group, cols);
    let answer = run_labelled(
        t,
        cols,
        news,
        totals,
        fwd,
        bwd,
        pins,
        couplings,
        cuts,
        choices,
        greys,
        labels,
        grey_labels,
        counts,
        sizes,
        found,
        grey_found,
    );
    let form = t.form;
    if moves::changed(form, answer) {
        columns::write_rows(spins, n, group, news);
    }
    answer
}

// One task of any form. A form that grows is lent the members and brings its totals itself; any other is lent what it labels.
pub fn run_form(
    t: Task,
    spins: &mut [i8],
    totals: &mut [i64],
    fwd: &[u32],
    bwd: &[u32],
    pins: &[u8],
    couplings: &[i32],
    cuts: &[f32],
    choices: &[u8],
    greys: &[u8],
    labels: &mut [u32],
    grey_labels: &mut [u32],
    counts: &mut [u32],
    sizes: &mut [u32],
    members: &mut [u8],
    found: &mut [u32],
    grey_found: &mut [u32],
) -> Outcome
    requires valid { Valid
        (call_of t fwd.now bwd.now pins.now couplings.now cuts.now)
        (choices_of choices.now greys.now)
        (buffers_of spins.old labels.old grey_labels.old counts.old sizes.old members.old
        found.old grey_found.old) }
    requires totals_ready { TotalsReady
        (keeps_by t.keeps t.form) (lattice_of t.n t.d t.s fwd.now bwd.now couplings.now) t.group totals.old }
    ensures answers { Answers
        (call_of t fwd.now bwd.now pins.now couplings.now cuts.now)
        (choices_of choices.now greys.now)
        (buffers_of spins.old labels.old grey_labels.old counts.old sizes.old
        members.old found.old grey_found.old)
        (answer_by result)
        (buffers_of spins.new labels.new grey_labels.new counts.new sizes.new
        members.new found.new grey_found.new) }
    ensures totals_after { TotalsAfter
        (keeps_by t.keeps t.form)
        (lattice_of t.n t.d t.s fwd.now bwd.now couplings.now)
        spins.old totals.old spins.new totals.new }
{
    let form = t.form;
    if form.grows() {
        return grow::run_grow(
            t, spins, totals, fwd, bwd, pins, couplings, cuts, choices, greys, members,
        );
    }
    run_rows(
        t,
        spins,
        totals,
        fwd,
        bwd,
        pins,
        couplings,
        cuts,
        choices,
        greys,
        labels,
        grey_labels,
        counts,
        sizes,
        found,
        grey_found,
    )
}
