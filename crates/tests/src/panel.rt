// Tests 1 to 7 of a move.
ghost use Rattle.lemmas.specs.Tells.{Tells};
ghost use Rattle.paper.specs.Refusal.Rules.{Sizes};
ghost use Rattle.paper.specs.Refusal.Verdict.{Verdict};
ghost use Rattle.paper.specs.Refusal.Numbers.{verdict_of};
ghost use Rattle.tests.specs.Lengths.{Small, FitsEach};
ghost use Rattle.tests.specs.Panel.{Measures, TotalsFit, TablesLong, shape_rules, table_rules, panel_rules};

use paper::{Form, Group, Lengths, Mode, Refusal, Task};

// Test 2 of `count` tasks that share the panel: each has its own cuts, choices and outputs.
pub fn lengths_ok(
    mode: Mode,
    form: Form,
    n: usize,
    d: usize,
    s: usize,
    m: usize,
    count: usize,
    l: Lengths,
) -> bool
    requires { Small n d s m count }
    ensures { Tells result (FitsEach mode form n d s m count l) }
{
    let bonds = n * d;
    let sites = count * n;
    let rows = form.entries(n);
    let drawn = mode.is_drawn();
    let choices = mode.takes_choices(form);
    let width = mode.choice_width(m);
    let greys = mode.takes_greys(form);
    let grows = form.grows();
    (l.spins == s * n)
        & (l.fwd == bonds)
        & (l.bwd == bonds)
        & (l.pins == n)
        & lattice::fits(drawn, l.couplings, bonds)
        & lattice::fits(drawn, l.cuts, count * bonds)
        & lattice::fits(choices, l.choices, count * (rows * width))
        & lattice::fits(greys, l.greys, count * rows)
        & lattice::fits(!grows, l.labels, sites)
        & lattice::fits(!grows & greys, l.grey_labels, sites)
        & lattice::fits(!grows, l.counts, count * (n + 1))
        & lattice::fits(!grows, l.sizes, count * 4)
        & lattice::fits(grows, l.members, sites)
        & lattice::fits(!grows, l.found, count)
        & lattice::fits(!grows & greys, l.grey_found, count)
}

// Test 2 of a call that keeps totals: couplings are taken in every mode, and a total for each system.
pub fn totals_lengths_ok(
    keeping: bool,
    n: usize,
    d: usize,
    s: usize,
    couplings: usize,
    totals: usize,
) -> bool
    requires { Sizes n d s }
    ensures { Tells result (TotalsFit keeping n d s couplings totals) }
{
    lattice::fits(keeping, couplings, n * d) & lattice::fits(keeping, totals, s)
}

// Tests 1, 15 and 2: the refusal of the first that fails.
pub fn test_shape(t: Task, totals: usize, l: Lengths) -> Result<(), Refusal>
    ensures { Verdict (shape_rules t totals l) (verdict_of result) }
{
    let mode = t.mode;
    let form = t.form;
    let keeps = t.keeps;
    let group = t.group;
    let m = group.len;
    if !lattice::ranged(t.n, t.d, t.s, mode, m) {
        return Err(Refusal::Sizes);
    }
    if !lattice::houd_ok(mode, form, m) {
        return Err(Refusal::HoudOfMany);
    }
    if !lengths_ok(mode, form, t.n, t.d, t.s, m, 1, l) {
        return Err(Refusal::Lengths);
    }
    if !totals_lengths_ok(keeps.totals(form), t.n, t.d, t.s, l.couplings, totals) {
        return Err(Refusal::Lengths);
    }
    Ok(())
}

// Tests 4 to 7, which read no spin: the refusal of the first that fails.
pub fn test_tables(
    t: Task,
    fwd: &[u32],
    bwd: &[u32],
    pins: &[u8],
    couplings: &[i32],
) -> Result<(), Refusal>
    requires { TablesLong t fwd.now bwd.now }
    ensures { Verdict (table_rules t fwd.now bwd.now pins.now couplings.now) (verdict_of result) }
{
    if !lattice::tables_ok(t.n, t.d, fwd, bwd) {
        return Err(Refusal::Tables);
    }
    if !lattice::bytes_at_most(pins, 1) {
        return Err(Refusal::Tables);
    }
    let group = t.group;
    if !lattice::group_ok(t.s, group) {
        return Err(Refusal::Systems);
    }
    let mode = t.mode;
    let form = t.form;
    let keeps = t.keeps;
    let drawn = mode.is_drawn();
    if !lattice::couplings_fit(drawn | keeps.totals(form), couplings) {
        return Err(Refusal::Couplings);
    }
    if !(!drawn | lattice::temperature_ok(t.temperature)) {
        return Err(Refusal::Temperature);
    }
    Ok(())
}

// The refusal of the first test that fails.
pub fn test_panel(
    t: Task,
    spins: &[i8],
    totals: &[i64],
    fwd: &[u32],
    bwd: &[u32],
    pins: &[u8],
    couplings: &[i32],
    l: Lengths,
) -> Result<(), Refusal>
    requires { Measures spins.now fwd.now bwd.now couplings.now l }
    ensures { Verdict (panel_rules t spins.now totals.now fwd.now bwd.now
        pins.now couplings.now l) (verdict_of result) }
{
    test_shape(t, totals.len(), l)?;
    let group = t.group;
    if !systems::group_rows_ok(t.n, t.s, spins, group) {
        return Err(Refusal::Spins);
    }
    test_tables(t, fwd, bwd, pins, couplings)
}
