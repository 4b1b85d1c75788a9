// Tests 8, 9 and 10 of a task.
ghost use Rattle.std.specs.Prelude.{◌≤◌, length, get_or};
ghost use Rattle.lemmas.specs.Tells.{Tells};
ghost use Rattle.paper.specs.Panel.Made.{choices_of};
ghost use Rattle.paper.specs.Refusal.Rules.{When, Cuts, Chosen, Seeded, choice_rules};
ghost use Rattle.paper.specs.Refusal.Verdict.{Verdict};
ghost use Rattle.paper.specs.Refusal.Numbers.{verdict_of};
ghost use Rattle.column_rules.specs.Laws.{SomeSite};
ghost use Rattle.column_rules.specs.Sight.{acts_at};
ghost use Rattle.tests.specs.Choices.{Tested, EveryCall, EveryCut, Long, AtMost, PermRows, RowMoves, Permuted, Seeing, chosen_rules};
ghost use Rattle.tests.specs.Choices.{SeeingColumns, EveryRows};

use paper::{Form, Group, Mode, Refusal, Task};

fn cuts_fit(taken: bool, cuts: &[f32]) -> bool
    ensures { Tells result (When taken (Cuts cuts.now)) }
{
    if taken {
        return lattice::cuts_ok(cuts);
    }
    true
}

fn perms_fit(taken: bool, rows: usize, m: usize, perms: &[u8]) -> bool
    requires { Permuted taken rows m perms.now }
    ensures { Tells result (When taken (PermRows rows m perms.now)) }
{
    if taken {
        return lattice::permutations_ok(rows, m, perms);
    }
    true
}

fn moved_fit(taken: bool, row: &[u8]) -> bool
    ensures { Tells result (When taken (RowMoves row.now)) }
{
    if taken {
        return lattice::not_identity(row);
    }
    true
}

// Flips and grey numbers.
fn bytes_fit(taken: bool, xs: &[u8], top: u8) -> bool
    ensures { Tells result (When taken (AtMost xs.now top)) }
{
    if taken {
        return lattice::bytes_at_most(xs, top);
    }
    true
}

// A single grey number that moves something.
fn grey_fit(taken: bool, greys: &[u8]) -> bool
    requires { When taken (1 ≤ length greys.now) }
    ensures { Tells result (When taken (1 ≤ get_or greys.now 0 0)) }
{
    if taken {
        return 1 <= greys[0];
    }
    true
}

// Test 9: every entry of what is taken, used or not.
pub fn chosen_ok(t: Task, choices: &[u8], greys: &[u8]) -> bool
    requires { Long t choices.now greys.now }
    ensures { EveryCut t (λ c. Tells result (Chosen c (choices_of choices.now greys.now))) }
{
    let mode = t.mode;
    let form = t.form;
    let group = t.group;
    let rows = form.entries(t.n);
    let one = form.one_cluster();
    let by_flips = mode.takes_flips(form);
    let by_perms = mode.takes_perms(form);
    let by_greys = mode.takes_greys(form);
    perms_fit(by_perms, rows, group.len, choices)
        & moved_fit(by_perms & one, choices)
        & bytes_fit(by_flips, choices, 1)
        & bytes_fit(by_greys, greys, 3)
        & grey_fit(by_greys & one, greys)
        & (!mode.is_gperm() | (t.reference < t.n))
}

// Test 10. Where the seed acts no other site is read but, in gperm, the reference; in CMR every site acts.
fn seed_ok(t: Task, spins: &[i8]) -> bool
    requires { Seeing t spins.now }
    ensures { EveryCut t (λ c. Tells result (Seeded c spins.now)) }
{
    let mode = t.mode;
    let form = t.form;
    let group = t.group;
    let n = t.n;
    let seed = t.seed;
    if !form.one_cluster() {
        return true;
    }
    if n <= seed {
        return false;
    }
    if column_rules::acts_at(mode, n, spins, group, t.reference, seed) {
        return true;
    }
    !column_rules::any_acts(mode, n, spins, group, t.reference)
}

// Whether some site acts, on the group's columns.
fn any_column_acts(t: Task, cols: &[u8]) -> bool
    requires { SeeingColumns t cols.now }
    ensures { EveryRows t cols.now
        (λ xs. Tells result (SomeSite t.n (acts_at t.mode t.n t.group t.reference xs))) }
{
    let mode = t.mode;
    let group = t.group;
    let n = t.n;
    let mut acts = [0u8; 4096];
    column_rules::look_columns(mode, group, t.reference, cols, &mut acts[..n])
}

// Test 10 on columns, with `seed_ok`'s answer of the rows that they are the columns of.
pub fn seed_column_ok(t: Task, cols: &[u8]) -> bool
    requires { SeeingColumns t cols.now }
    ensures { EveryCut t (λ c. EveryRows t cols.now (λ xs. Tells result (Seeded c xs))) }
{
    let mode = t.mode;
    let form = t.form;
    let group = t.group;
    let n = t.n;
    let seed = t.seed;
    if !form.one_cluster() {
        return true;
    }
    if n <= seed {
        return false;
    }
    let gauge = columns::gauge(mode, group, t.reference, cols);
    if column_rules::acts_column(mode, group, cols[seed] ^ gauge) {
        return true;
    }
    !any_column_acts(t, cols)
}

// Tests 8 and 9, which read no spin: the refusal of the first that fails.
pub fn test_chosen(t: Task, cuts: &[f32], choices: &[u8], greys: &[u8]) -> Result<(), Refusal>
    requires { Long t choices.now greys.now }
    ensures { EveryCall t cuts.now (λ c. Verdict (chosen_rules c (choices_of choices.now greys.now)) (verdict_of result)) }
{
    let mode = t.mode;
    if !cuts_fit(mode.is_drawn(), cuts) {
        return Err(Refusal::Cuts);
    }
    if !chosen_ok(t, choices, greys) {
        return Err(Refusal::Choices);
    }
    Ok(())
}

// The refusal of the first test that fails.
pub fn test_choices(
    t: Task,
    spins: &[i8],
    cuts: &[f32],
    choices: &[u8],
    greys: &[u8],
) -> Result<(), Refusal>
    requires { Tested t spins.now choices.now greys.now }
    ensures { EveryCall t cuts.now
        (λ c. Verdict (choice_rules c (choices_of choices.now greys.now) spins.now) (verdict_of result)) }
{
    test_chosen(t, cuts, choices, greys)?;
    if !seed_ok(t, spins) {
        return Err(Refusal::Seed);
    }
    Ok(())
}
