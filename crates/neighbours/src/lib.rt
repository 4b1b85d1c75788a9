// The tables of neighbours: test 4, which is true exactly when `Inverse` in crates/paper/specs/Refusal/Rules.antt is kept, and the backward table from
// the forward one.
#![tactic(auto)]

ghost use Rattle.std.specs.Prelude.{◌+◌, ◌*◌};
ghost use Rattle.lemmas.specs.Tells.{Tells, Each};
ghost use Rattle.paper.specs.Refusal.Rules.{Back, Inverse};
ghost use Rattle.neighbours.specs.Backward.{Turnable, Turned, Led, Filling, FillingSite, FillingBond};
ghost use Rattle.neighbours.specs.Tables.{Tabled, TabledSite, TabledBond};

use lemmas::wide;

fn back_ok(n: usize, d: usize, a: &[u32], b: &[u32], i: usize, e: usize) -> bool
    requires { TabledBond n d a.now b.now i e }
    ensures { Tells result (Back n d a.now b.now i e) }
{
    let j = wide(a[i * d + e]);
    if j < n {
        wide(b[j * d + e]) == i
    } else {
        false
    }
}

fn site_ok(n: usize, d: usize, a: &[u32], b: &[u32], i: usize) -> bool
    requires { TabledSite n d a.now b.now i }
    ensures { Tells result (Each d (λ e. Back n d a.now b.now i e)) }
{
    let mut ok = true;
    for e in 0..d {
        ok = ok & back_ok(n, d, a, b, i, e);
    }
    ok
}

// Backward undoes forward at every site and direction. The other sense follows, since the sites are finitely many: `inverse_of`.
pub fn tables_ok(n: usize, d: usize, fwd: &[u32], bwd: &[u32]) -> bool
    requires { Tabled n d fwd.now bwd.now }
    ensures { Tells result (Inverse n d fwd.now bwd.now) }
{
    let mut ok = true;
    for i in 0..n {
        ok = ok & site_ok(n, d, fwd, bwd, i);
    }
    ok
}

// ---- the backward table from the forward one

fn lead_back(n: usize, d: usize, fwd: &[u32], bwd: &mut [u32], i: usize, e: usize)
    requires { FillingBond n d fwd.now bwd.old i e }
    ensures { Led n d fwd.now (i * d + e + 1) bwd.new }
{
    let f = wide(fwd[i * d + e]);
    if f < n {
        bwd[f * d + e] = i as u32;
    }
}

fn lead_site_back(n: usize, d: usize, fwd: &[u32], bwd: &mut [u32], i: usize)
    requires { FillingSite n d fwd.now bwd.old i }
    ensures { Led n d fwd.now (i * d + d) bwd.new }
{
    for e in 0..d {
        lead_back(n, d, fwd, bwd, i, e);
    }
}

fn lead_all_back(n: usize, d: usize, fwd: &[u32], bwd: &mut [u32])
    requires { Filling n d fwd.now 0 bwd.old }
    ensures { Led n d fwd.now (n * d) bwd.new }
{
    for i in 0..n {
        lead_site_back(n, d, fwd, bwd, i);
    }
}

// Every entry is written where there is an inverse, so what stood in the table does not matter.
pub fn backward(n: usize, d: usize, fwd: &[u32], bwd: &mut [u32]) -> bool
    requires { Turnable n d fwd.now bwd.old }
    ensures { Turned n d fwd.now result bwd.new }
{
    lead_all_back(n, d, fwd, bwd);
    if tables_ok(n, d, fwd, bwd) {
        return true;
    }
    bwd.fill(0);
    false
}
