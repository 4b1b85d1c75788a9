// The tests on inputs, each true exactly when its rule in crates/paper/specs/Refusal/Rules.antt is kept. Test 4 is of `neighbours`.
#![tactic(auto)]

ghost use Rattle.std.specs.Prelude.{◌≡◌, ℕ, ◌+◌, ◌-◌, ◌*◌, ◌^◌, ◌≤◌, ◌<◌, length, get_or, nat_abs};
ghost use Rattle.std.specs.Int.Bits.{bit_or};
ghost use Rattle.std.specs.Float.{nan};
ghost use Rattle.lemmas.specs.Tells.{Tells, Each};
ghost use Rattle.paper.specs.Panel.Input.{member};
ghost use Rattle.paper.specs.Refusal.Rules.{
  When,
  Sizes,
  Ranged,
  HoudOfTwo,
  Spin,
  SmallCouplings,
  Warm,
  is_cut,
  Cuts,
  order_names,
  Listed,
  Grouped,
  Permutes,
  NotIdentity,
};
ghost use Rattle.lattice.specs.Groups.{Fresh, Alone, Free};
ghost use Rattle.lattice.specs.Marking.{Marked, MarkedBelow, RowIn, Rows, RowsBelow, row_at, OrderOf};
ghost use Rattle.lattice.specs.Spinning.{AllSpins};

use lemmas::wide;
pub use neighbours::tables_ok;
use paper::{Form, Group, Mode};

// ---- test 1

pub fn sizes_ok(n: usize, d: usize, s: usize) -> bool
    ensures { Tells result (Sizes n d s) }
{
    (1 <= n) & (n <= 4096) & (1 <= d) & (d <= 4) & (1 <= s) & (s <= 64)
}

pub fn ranged(n: usize, d: usize, s: usize, mode: Mode, len: usize) -> bool
    ensures { Tells result (Ranged n d s mode len) }
{
    sizes_ok(n, d, s) & (2 <= len) & (len <= 8) & (!mode.is_cmr() | (len == 2))
}

// ---- test 15

// Houd moves groups of two alone.
pub fn houd_ok(mode: Mode, form: Form, len: usize) -> bool
    ensures { Tells result (HoudOfTwo mode form len) }
{
    !(mode.is_houd() & form.moves()) | (len <= 2)
}

// ---- test 2

// A length is asked of a buffer only if it is taken.
pub fn fits(taken: bool, len: usize, want: usize) -> bool
    ensures { Tells result (When taken (len ≡ want)) }
{
    !taken | (len == want)
}

// ---- test 3

fn spin_ok(x: i8) -> bool
    ensures { Tells result (Spin x) }
{
    (x == 1) | (x == -1)
}

// One pass without an exit, which the compiler makes vector code of.
pub fn spins_ok(spins: &[i8]) -> bool
    ensures { Tells result (AllSpins spins.now) }
{
    let mut ok = true;
    for &x in spins {
        ok = ok & spin_ok(x);
    }
    ok
}

// ---- test 5

fn fresh(group: Group, k: usize) -> bool
    requires { k < 8 }
    ensures { Tells result (Fresh (member group) k) }
{
    let systems = group.systems;
    let x = systems[k];
    let mut ok = true;
    for j in 0..k {
        ok = ok & (systems[j] != x);
    }
    ok
}

fn alone(s: usize, group: Group, k: usize) -> bool
    requires { k < 8 }
    ensures { Tells result (Alone s (member group) k) }
{
    let systems = group.systems;
    (systems[k] < s) & fresh(group, k)
}

pub fn group_ok(s: usize, group: Group) -> bool
    requires { group.len ≤ 8 }
    ensures { Tells result (Grouped s group) }
{
    let len = group.len;
    let mut ok = true;
    for k in 0..len {
        ok = ok & alone(s, group, k);
    }
    ok
}

fn marked_below(s: usize, x: usize, marks: u64) -> u64
    requires { s ≤ 64 }
    ensures { MarkedBelow s x marks result }
{
    if x < s { marks | (1u64 << x) } else { marks }
}

// One of s, and not marked yet.
fn free_below(s: usize, x: usize, marks: u64) -> bool
    requires { s ≤ 64 }
    ensures { Tells result (Free s x marks) }
{
    if x < s {
        return (marks >> x) % 2 == 0;
    }
    false
}

// One pass: each system is marked when it is met.
pub fn order_ok(s: usize, order: &[u32]) -> bool
    requires { OrderOf s order.now }
    ensures { Tells result (Listed s (order_names order.now)) }
{
    let mut ok = true;
    let mut marks = 0u64;
    for &system in order {
        let x = wide(system);
        ok = ok & free_below(s, x, marks);
        marks = marked_below(s, x, marks);
    }
    ok
}

// ---- test 6

fn coupling_ok(j: i32) -> bool
    ensures { Tells result (nat_abs j ≤ 1000000) }
{
    (j <= 1000000) & (-1000000 <= j)
}

pub fn couplings_ok(js: &[i32]) -> bool
    ensures { Tells result (SmallCouplings js.now) }
{
    let mut ok = true;
    for &j in js {
        ok = ok & coupling_ok(j);
    }
    ok
}

pub fn couplings_fit(taken: bool, js: &[i32]) -> bool
    ensures { Tells result (When taken (SmallCouplings js.now)) }
{
    if taken {
        return couplings_ok(js);
    }
    true
}

// ---- test 7

pub fn temperature_ok(t: f32) -> bool
    ensures { Tells result (Warm t) }
{
    (t >= 0.0009765625) & (t <= 1048576.0)
}

pub fn temperatures_ok(ts: &[f32]) -> bool
    ensures { Tells result ((j : ℕ) → j < length ts.now → Warm (get_or ts.now j nan)) }
{
    let mut ok = true;
    for &t in ts {
        ok = ok & temperature_ok(t);
    }
    ok
}

// ---- test 8

// Below infinity: no number is, nor is infinity itself.
fn cut_ok(x: f32) -> bool
    ensures { result ≡ is_cut x }
{
    (x >= 0.0) & (x < 1.0 / 0.0)
}

pub fn cuts_ok(cuts: &[f32]) -> bool
    ensures { Tells result (Cuts cuts.now) }
{
    let mut ok = true;
    for &x in cuts {
        ok = ok & cut_ok(x);
    }
    ok
}

// ---- test 9

pub fn bytes_at_most(xs: &[u8], top: u8) -> bool
    ensures { Tells result ((k : ℕ) → k < length xs.now → get_or xs.now k 0 ≤ top) }
{
    let mut ok = true;
    for &x in xs {
        ok = ok & (x <= top);
    }
    ok
}

fn marked(marks: u32, x: u8) -> u32
    requires { x < 32 }
    ensures { result ≡ bit_or marks (2 ^ x) }
{
    marks | (1u32 << x)
}

// The numbers that stand in the row, as bits.
fn row_marks(m: usize, perms: &[u8], at: usize) -> u32
    requires { RowIn m perms.now at }
    ensures { Marked m (λ k. get_or perms.now (at + k) 0) m result }
{
    let mut marks = 0u32;
    for k in 0..m {
        marks = marked(marks, perms[at + k]);
    }
    marks
}

fn rows_full(rows: usize, m: usize, perms: &[u8]) -> bool
    requires { RowsBelow rows m perms.now }
    ensures { Tells result (Each rows (λ r. Permutes m (row_at m perms.now r))) }
{
    let full = (1u32 << m) - 1;
    let mut ok = true;
    for r in 0..rows {
        ok = ok & (row_marks(m, perms, r * m) == full);
    }
    ok
}

// The bytes are tested first, in vector code, so that marking needs no test.
pub fn permutations_ok(rows: usize, m: usize, perms: &[u8]) -> bool
    requires { Rows rows m perms.now }
    ensures { Tells result ((r : ℕ) → r < rows → Permutes m (λ k. get_or perms.now (r * m + k) 0)) }
{
    if m == 0 {
        return true;
    }
    if !bytes_at_most(perms, (m - 1) as u8) {
        return false;
    }
    rows_full(rows, m, perms)
}

pub fn not_identity(row: &[u8]) -> bool
    ensures { Tells result (NotIdentity (length row.now) (λ k. get_or row.now k 0)) }
{
    let mut moved = false;
    for (k, &x) in row.iter().enumerate() {
        moved = moved | (usize::from(x) != k);
    }
    moved
}
