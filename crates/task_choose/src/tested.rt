// The tests of the second step of a task, in their order.
ghost use Rattle.std.specs.Prelude.{[], ◌≤◌, ◌<◌, length, get_or};
ghost use Rattle.lemmas.specs.Tells.{Tells, Each};
ghost use Rattle.paper.specs.Panel.Made.{call_of, choices_of};
ghost use Rattle.paper.specs.Refusal.Rules.{When, Ranged};
ghost use Rattle.paper.specs.Refusal.Verdict.{Verdict};
ghost use Rattle.paper.specs.Refusal.Numbers.{verdict_of};
ghost use Rattle.task_steps.specs.Choose.{found_of, ChooseExact, Told, choose_rules};
ghost use Rattle.task_choose.specs.Tested.{FoundLong, EveryPins};

use paper::{Form, Group, Mode, Refusal, Task};

// Test 2.
fn exact(
    t: Task,
    rows: &[i8],
    pins: &[u8],
    choices: &[u8],
    greys: &[u8],
    labels: &[u32],
    grey_labels: &[u32],
    members: &[u8],
    blue: &[u8],
    area: &[u8],
) -> bool
    requires { Ranged t.n t.d t.s t.mode t.group.len }
    ensures { Tells result (ChooseExact
        (call_of t [] [] pins.now [] [])
        (choices_of choices.now greys.now)
        rows.now
        (found_of labels.now grey_labels.now members.now blue.now)
        area.now) }
{
    let mode = t.mode;
    let form = t.form;
    let group = t.group;
    let n = t.n;
    let many = form.entries(n);
    let width = mode.choice_width(group.len);
    let by_choices = mode.takes_choices(form);
    let by_greys = mode.takes_greys(form);
    let grows = form.grows();
    let moves = form.moves();
    (rows.len() == t.s * n)
        & (pins.len() == n)
        & lattice::fits(by_choices, choices.len(), many * width)
        & lattice::fits(by_greys, greys.len(), many)
        & lattice::fits(!grows & moves, labels.len(), n)
        & lattice::fits(!grows & by_greys, grey_labels.len(), n)
        & lattice::fits(grows, members.len(), n)
        & lattice::fits(grows & by_greys, blue.len(), n)
        & (area.len() == n)
}

// A look at every word, without an early exit: so it is vector code.
fn words_below(xs: &[u32], top: u32) -> bool
    ensures { Tells result (Each (length xs.now) (λ i. get_or xs.now i 0 < top)) }
{
    let mut ok = true;
    for &x in xs {
        ok &= x < top;
    }
    ok
}

fn labels_fit(taken: bool, labels: &[u32], n: usize) -> bool
    requires { n ≤ 4096 }
    ensures { Tells result (When taken (Each (length labels.now) (λ i. get_or labels.now i 0 < n))) }
{
    if taken {
        return words_below(labels, n as u32);
    }
    true
}

fn marks_fit(taken: bool, marks: &[u8]) -> bool
    ensures { Tells result (When taken (Each (length marks.now) (λ i. get_or marks.now i 0 ≤ 1))) }
{
    if taken {
        return lattice::bytes_at_most(marks, 1);
    }
    true
}

// Test 9 of what the first step found. Pins are not looked at.
fn told_ok(t: Task, labels: &[u32], grey_labels: &[u32], members: &[u8], blue: &[u8]) -> bool
    requires { FoundLong (call_of t [] [] [] [] []) (found_of labels.now grey_labels.now members.now blue.now) }
    ensures { EveryPins t (λ c. Tells result
        (Told c (found_of labels.now grey_labels.now members.now blue.now))) }
{
    let mode = t.mode;
    let form = t.form;
    let by_greys = mode.takes_greys(form);
    let grows = form.grows();
    let moves = form.moves();
    labels_fit(!grows & moves, labels, t.n)
        & labels_fit(!grows & by_greys, grey_labels, t.n)
        & marks_fit(grows, members)
        & marks_fit(grows & by_greys, blue)
}

// The refusal of the first test that fails.
pub(crate) fn test_choose(
    t: Task,
    rows: &[i8],
    pins: &[u8],
    choices: &[u8],
    greys: &[u8],
    labels: &[u32],
    grey_labels: &[u32],
    members: &[u8],
    blue: &[u8],
    area: &[u8],
) -> Result<(), Refusal>
    ensures { Verdict (choose_rules
        (call_of t [] [] pins.now [] [])
        (choices_of choices.now greys.now)
        rows.now
        (found_of labels.now grey_labels.now members.now blue.now)
        area.now) (verdict_of result) }
{
    let mode = t.mode;
    let form = t.form;
    let group = t.group;
    if !lattice::ranged(t.n, t.d, t.s, mode, group.len) {
        return Err(Refusal::Sizes);
    }
    if !lattice::houd_ok(mode, form, group.len) {
        return Err(Refusal::HoudOfMany);
    }
    if !exact(
        t,
        rows,
        pins,
        choices,
        greys,
        labels,
        grey_labels,
        members,
        blue,
        area,
    ) {
        return Err(Refusal::Lengths);
    }
    if !systems::group_rows_ok(t.n, t.s, rows, group) {
        return Err(Refusal::Spins);
    }
    if !lattice::bytes_at_most(pins, 1) {
        return Err(Refusal::Tables);
    }
    if !tests::choices::chosen_ok(t, choices, greys) {
        return Err(Refusal::Choices);
    }
    if !told_ok(t, labels, grey_labels, members, blue) {
        return Err(Refusal::Choices);
    }
    if !(!form.one_cluster() | (t.seed < t.n)) {
        return Err(Refusal::Seed);
    }
    Ok(())
}
