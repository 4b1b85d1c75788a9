// The tests of the step that writes, in their order. Where no totals are kept, tables, couplings and totals are not looked at.
ghost use Rattle.std.specs.Prelude.{[], ◌≡◌, true, ℕ, ◌^◌, ◌≤◌, ◌<◌, length, get_or};
ghost use Rattle.lemmas.specs.Tells.{Tells};
ghost use Rattle.neighbours.specs.Tables.{Tabled};
ghost use Rattle.paper.specs.Panel.Made.{call_of};
ghost use Rattle.paper.specs.Panel.Takes.{keeps_by};
ghost use Rattle.paper.specs.Refusal.Rules.{When, Sizes, Inverse};
ghost use Rattle.paper.specs.Refusal.Verdict.{Verdict};
ghost use Rattle.paper.specs.Refusal.Numbers.{verdict_of};
ghost use Rattle.task_steps.specs.Choose.{has_column};
ghost use Rattle.task_steps.specs.Write.{shape_of, writing_of, write_rules};
ghost use Rattle.task_write.specs.Tested.{Measured, measure_rules, AreaLent};

use paper::{Form, Group, Keeps, Refusal, Task};

// Test 2, by the numbers alone.
fn lengths_ok(
    keeping: bool,
    grows: bool,
    n: usize,
    d: usize,
    s: usize,
    rows: usize,
    members: usize,
    area: usize,
    fwd: usize,
    bwd: usize,
    couplings: usize,
    totals: usize,
) -> bool
    requires { Sizes n d s }
    ensures { Tells result (Measured keeping grows n d s rows members area fwd bwd couplings totals) }
{
    let bonds = n * d;
    (rows == s * n)
        & lattice::fits(grows, members, n)
        & (area == n)
        & lattice::fits(keeping, fwd, bonds)
        & lattice::fits(keeping, bwd, bonds)
        & lattice::fits(keeping, couplings, bonds)
        & lattice::fits(keeping, totals, s)
}

// Tests 1, 15 and 2: the refusal of the first that fails.
fn test_lengths(
    t: Task,
    rows: usize,
    members: usize,
    area: usize,
    fwd: usize,
    bwd: usize,
    couplings: usize,
    totals: usize,
) -> Result<(), Refusal>
    ensures { Verdict (measure_rules t rows members area fwd bwd couplings totals) (verdict_of result) }
{
    let mode = t.mode;
    let form = t.form;
    let keeps = t.keeps;
    let group = t.group;
    let m = group.len;
    if !lattice::ranged(t.n, t.d, t.s, mode, m) {
        return Err(Refusal::Sizes);
    }
    if !lattice::houd_ok(mode, form, m) {
        return Err(Refusal::HoudOfMany);
    }
    let keeping = keeps.totals(form);
    let grows = form.grows();
    if !lengths_ok(
        keeping, grows, t.n, t.d, t.s, rows, members, area, fwd, bwd, couplings, totals,
    ) {
        return Err(Refusal::Lengths);
    }
    Ok(())
}

// Is the column of every member at most this? One pass without an exit, which the compiler makes vector code of.
fn marked_at_most(members: &[u8], area: &[u8], top: u8) -> bool
    requires { length members.now ≡ length area.now }
    ensures { Tells result ((k : ℕ) → k < length area.now → get_or members.now k 0 ≡ 1 → get_or area.now k 0 ≤ top) }
{
    let mut ok = true;
    for (i, &column) in area.iter().enumerate() {
        ok &= (members[i] != 1) | (column <= top);
    }
    ok
}

// Test 3 of the area: no column has a bit past the group's. The form that grows has columns at its members alone.
fn area_ok(t: Task, members: &[u8], area: &[u8]) -> bool
    requires { AreaLent t members.now area.now }
    ensures { Tells result ((i : ℕ) → i < t.n → has_column t.form members.now i ≡ true → get_or area.now i 0 < 2 ^ t.group.len) }
{
    let form = t.form;
    let group = t.group;
    let top = packing::highest(group.len);
    if form.grows() {
        return marked_at_most(members, area, top);
    }
    lattice::bytes_at_most(area, top)
}

// Test 4.
fn tables_fit(keeping: bool, n: usize, d: usize, fwd: &[u32], bwd: &[u32]) -> bool
    requires { When keeping (Tabled n d fwd.now bwd.now) }
    ensures { Tells result (When keeping (Inverse n d fwd.now bwd.now)) }
{
    if keeping {
        return lattice::tables_ok(n, d, fwd, bwd);
    }
    true
}

// Test 9.
fn marks_fit(grows: bool, members: &[u8]) -> bool
    ensures { Tells result (When grows ((k : ℕ) → k < length members.now → get_or members.now k 0 ≤ 1)) }
{
    if grows {
        return lattice::bytes_at_most(members, 1);
    }
    true
}

// The refusal of the first test that fails.
pub(crate) fn test_write(
    t: Task,
    rows: &[i8],
    totals: &[i64],
    fwd: &[u32],
    bwd: &[u32],
    couplings: &[i32],
    members: &[u8],
    area: &[u8],
) -> Result<(), Refusal>
    ensures { Verdict
        (write_rules (keeps_by t.keeps t.form)
        (shape_of (call_of t fwd.now bwd.now [] couplings.now []))
        (writing_of rows.now members.now area.now totals.now))
        (verdict_of result) }
{
    test_lengths(
        t,
        rows.len(),
        members.len(),
        area.len(),
        fwd.len(),
        bwd.len(),
        couplings.len(),
        totals.len(),
    )?;
    let form = t.form;
    let group = t.group;
    let keeps = t.keeps;
    let keeping = keeps.totals(form);
    if !systems::group_rows_ok(t.n, t.s, rows, group) {
        return Err(Refusal::Spins);
    }
    if !area_ok(t, members, area) {
        return Err(Refusal::Spins);
    }
    if !tables_fit(keeping, t.n, t.d, fwd, bwd) {
        return Err(Refusal::Tables);
    }
    if !lattice::couplings_fit(keeping, couplings) {
        return Err(Refusal::Couplings);
    }
    if !marks_fit(form.grows(), members) {
        return Err(Refusal::Choices);
    }
    if !systems::group_totals_fit(keeping, totals, group) {
        return Err(Refusal::Totals);
    }
    Ok(())
}
