// The energy meter, and the hand-over of totals that are held against it.
#![tactic(auto)]

ghost use Rattle.std.specs.Prelude.{◌≡◌, [], ◌*ℤ◌};
ghost use Rattle.lemmas.specs.Tells.{Tells};
ghost use Rattle.paper.specs.Refusal.Rules.{When, Sizes};
ghost use Rattle.paper.specs.Answer.Meter.{MeterAnswers};
ghost use Rattle.paper.specs.Answer.Totals.{Current};
ghost use Rattle.paper.specs.Answer.Team.{own, Ours, hand_over_rules};
ghost use Rattle.paper.specs.Panel.Made.{lattice_of};
ghost use Rattle.paper.specs.Refusal.Verdict.{Verdict};
ghost use Rattle.paper.specs.Site.Energy.{energy};
ghost use Rattle.paper.specs.Refusal.Numbers.{verdict_of};
ghost use Rattle.paper.specs.Answer.Cases.{meter_answer_of};
ghost use Rattle.systems.specs.Owners.{team_of};
ghost use Rattle.meter.specs.Part.{Holding, Handed, CurrentAt, metered};
ghost use Rattle.meter.specs.Row.{Lengths, Row, RowAt, RowSite, RowBond, RowSum, Bond, bond_term, site_term};

use lemmas::wide;
use paper::Refusal;

fn exact(
    n: usize,
    d: usize,
    s: usize,
    spins: usize,
    fwd: usize,
    bwd: usize,
    couplings: usize,
) -> bool
    requires { Sizes n d s }
    ensures { Tells result (Lengths n d s spins fwd bwd couplings) }
{
    let table = n * d;
    (spins == s * n) & (fwd == table) & (bwd == table) & (couplings == table)
}

fn bond(j: i32, s: i8, t: i8) -> i64
    requires { Bond j s t }
    ensures { result ≡ j *ℤ s *ℤ t }
{
    (j as i64) * (s as i64) * (t as i64)
}

fn bond_at(n: usize, d: usize, fwd: &[u32], js: &[i32], row: &[i8], i: usize, e: usize) -> i64
    requires { RowBond n d fwd.now js.now row.now i e }
    ensures { result ≡ bond_term d fwd.now js.now row.now i e }
{
    let at = i * d + e;
    let f = wide(fwd[at]);
    bond(js[at], row[i], row[f])
}

fn site_sum(n: usize, d: usize, fwd: &[u32], js: &[i32], row: &[i8], i: usize) -> i64
    requires { RowSite n d fwd.now js.now row.now i }
    ensures { result ≡ site_term d fwd.now js.now row.now i }
{
    let mut total: i64 = 0;
    for e in 0..d {
        total = total + bond_at(n, d, fwd, js, row, i, e);
    }
    total
}

fn row_sum(n: usize, d: usize, fwd: &[u32], js: &[i32], row: &[i8]) -> i64
    requires { Row n d fwd.now js.now row.now }
    ensures { RowSum n d fwd.now js.now row.now result }
{
    let mut total: i64 = 0;
    for i in 0..n {
        total = total + site_sum(n, d, fwd, js, row, i);
    }
    total
}

fn system_energy(n: usize, d: usize, fwd: &[u32], js: &[i32], spins: &[i8], t: usize) -> i64
    requires { RowAt n d fwd.now js.now spins.now t }
    ensures { result ≡ energy (metered n d fwd.now js.now) spins.now t }
{
    let a = t * n;
    let e = a + n;
    0 - row_sum(n, d, fwd, js, &spins[a..e])
}

pub fn energy(
    n: usize,
    d: usize,
    s: usize,
    spins: &[i8],
    fwd: &[u32],
    bwd: &[u32],
    couplings: &[i32],
    system: usize,
) -> Result<i64, Refusal>
    ensures { MeterAnswers (lattice_of n d s fwd.now bwd.now couplings.now) spins.now system (meter_answer_of result) }
{
    if !lattice::sizes_ok(n, d, s) {
        return Err(Refusal::Sizes);
    }
    if !exact(n, d, s, spins.len(), fwd.len(), bwd.len(), couplings.len()) {
        return Err(Refusal::Lengths);
    }
    if !systems::row_ok(n, s, spins, system) {
        return Err(Refusal::Spins);
    }
    if !lattice::tables_ok(n, d, fwd, bwd) {
        return Err(Refusal::Tables);
    }
    if s <= system {
        return Err(Refusal::Systems);
    }
    if !lattice::couplings_ok(couplings) {
        return Err(Refusal::Couplings);
    }
    Ok(system_energy(n, d, fwd, couplings, spins, system))
}

fn current(
    n: usize,
    d: usize,
    fwd: &[u32],
    js: &[i32],
    spins: &[i8],
    totals: &[i64],
    t: usize,
) -> bool
    requires { Holding n d fwd.now js.now spins.now totals.now t }
    ensures { Tells result (CurrentAt n d fwd.now js.now spins.now totals.now t) }
{
    system_energy(n, d, fwd, js, spins, t) == totals[t]
}

// A foreign system's total may be anything.
fn settled(
    n: usize,
    d: usize,
    team: u8,
    owners: &[u8],
    fwd: &[u32],
    js: &[i32],
    spins: &[i8],
    totals: &[i64],
    t: usize,
) -> bool
    requires { When (own (team_of team owners.now) t) (Holding n d fwd.now js.now spins.now totals.now t) }
    ensures { Tells result (When (own (team_of team owners.now) t)
        (CurrentAt n d fwd.now js.now spins.now totals.now t)) }
{
    if systems::owners::own(team, owners, t) {
        return current(n, d, fwd, js, spins, totals, t);
    }
    true
}

fn all_current(
    n: usize,
    d: usize,
    s: usize,
    team: u8,
    owners: &[u8],
    fwd: &[u32],
    js: &[i32],
    spins: &[i8],
    totals: &[i64],
) -> bool
    requires { Handed n d s (team_of team owners.now) fwd.now js.now spins.now totals.now }
    ensures { Tells result (Current (Ours (team_of team owners.now) s) (lattice_of n d s fwd.now [] js.now)
        spins.now totals.now) }
{
    let mut ok = true;
    for t in 0..s {
        ok = ok & settled(n, d, team, owners, fwd, js, spins, totals, t);
    }
    ok
}

// Whether each total of the team's systems is its system's energy: the refusal of the first test that fails.
pub fn hand_over(
    n: usize,
    d: usize,
    s: usize,
    team: u8,
    owners: &[u8],
    spins: &[i8],
    totals: &[i64],
    fwd: &[u32],
    bwd: &[u32],
    couplings: &[i32],
) -> Result<(), Refusal>
    ensures { Verdict (hand_over_rules (team_of team owners.now)
        (lattice_of n d s fwd.now bwd.now couplings.now) spins.now totals.now) (verdict_of result) }
{
    systems::owners::test_owners(s, team, owners)?;
    if !lattice::sizes_ok(n, d, s) {
        return Err(Refusal::Sizes);
    }
    if !(exact(n, d, s, spins.len(), fwd.len(), bwd.len(), couplings.len()) & (totals.len() == s)) {
        return Err(Refusal::Lengths);
    }
    if !systems::owners::own_rows_ok(n, s, team, owners, spins) {
        return Err(Refusal::Spins);
    }
    if !lattice::tables_ok(n, d, fwd, bwd) {
        return Err(Refusal::Tables);
    }
    if !lattice::couplings_ok(couplings) {
        return Err(Refusal::Couplings);
    }
    if !all_current(n, d, s, team, owners, fwd, couplings, spins, totals) {
        return Err(Refusal::Totals);
    }
    Ok(())
}
