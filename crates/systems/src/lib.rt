// Tests 3 and 14 of the systems that a call names. A number that no system has is passed over: test 5 refuses it.
#![tactic(auto)]

pub mod owners;

ghost use Rattle.std.specs.Prelude.{◌≤◌, length};
ghost use Rattle.lemmas.specs.Tells.{Tells};
ghost use Rattle.paper.specs.Refusal.Rules.{When, group_names, order_names, Named, Spins};
ghost use Rattle.paper.specs.Answer.Totals.{SmallTotals};
ghost use Rattle.systems.specs.Rows.{Rowed, RowSpins, SmallTotal};

use lemmas::wide;
use paper::Group;

// ---- test 3

pub fn row_ok(n: usize, s: usize, spins: &[i8], t: usize) -> bool
    requires { Rowed n s spins.now }
    ensures { Tells result (RowSpins n s spins.now t) }
{
    if t < s {
        let a = t * n;
        let e = a + n;
        return lattice::spins_ok(&spins[a..e]);
    }
    true
}

pub fn group_rows_ok(n: usize, s: usize, spins: &[i8], group: Group) -> bool
    requires rowed { Rowed n s spins.now }
    requires len_bound { group.len ≤ 8 }
    ensures { Tells result (Spins n (Named s (group_names group)) spins.now) }
{
    let mut ok = true;
    for &t in &group.systems[..group.len] {
        ok = ok & row_ok(n, s, spins, t);
    }
    ok
}

pub fn order_rows_ok(n: usize, s: usize, spins: &[i8], order: &[u32]) -> bool
    requires { Rowed n s spins.now }
    ensures { Tells result (Spins n (Named s (order_names order.now)) spins.now) }
{
    let mut ok = true;
    for &t in order {
        ok = ok & row_ok(n, s, spins, wide(t));
    }
    ok
}

// ---- test 14

fn total_ok(totals: &[i64], t: usize) -> bool
    ensures { Tells result (SmallTotal totals.now t) }
{
    if t < totals.len() {
        let x = totals[t];
        return (x <= 16384000000) & (-16384000000 <= x);
    }
    true
}

// Totals that are not kept are not looked at.
pub fn group_totals_fit(keeping: bool, totals: &[i64], group: Group) -> bool
    requires { group.len ≤ 8 }
    ensures { Tells result (When keeping (SmallTotals (Named (length totals.now) (group_names group)) totals.now)) }
{
    if !keeping {
        return true;
    }
    let mut ok = true;
    for &t in &group.systems[..group.len] {
        ok = ok & total_ok(totals, t);
    }
    ok
}

pub fn order_totals_fit(keeping: bool, totals: &[i64], order: &[u32]) -> bool
    ensures { Tells result (When keeping (SmallTotals (Named (length totals.now) (order_names order.now)) totals.now)) }
{
    if !keeping {
        return true;
    }
    let mut ok = true;
    for &t in order {
        ok = ok & total_ok(totals, wide(t));
    }
    ok
}
