// Which bonds hold, as a byte a bond: entry i*d+e is 1 where the bond (i, e) holds, and else 0.
#![tactic(auto)]

ghost use Rattle.std.specs.Prelude.{◌≡◌, ◌*◌, ◌≤◌, ◌<◌, length, ◌&&◌, eqb, nat_abs, ◌*ℤ◌};
ghost use Rattle.lemmas.specs.Ints.{eq_z};
ghost use Rattle.lemmas.specs.Sums.{sum};
ghost use Rattle.paper.specs.Site.Bonds.{whole, drawn, pair_term, jorg_holds, kind_of, blue_holds, grey_holds};
ghost use Rattle.paper.specs.Component.Marks.{Marks};
ghost use Rattle.columns.specs.Column.{shown};
ghost use Rattle.bonds.specs.Table.{ActiveIn, JorgIn, BlueIn, CmrIn, CmrOut, Acts, both_acting, jorg_at, blue_at, grey_at};
ghost use Rattle.bonds.specs.Row.{Row, BothRows};

use lemmas::bytes::clear;
use lemmas::wide;
use paper::{BondKind, Group, Sampler};

// The bonds of site i. A test that steers no jump: who acts is unforeseeable.
fn active_site(i: usize, d: usize, fwd: &[u32], acts: &[u8], holds: &mut [u8])
    requires active_in { ActiveIn (length acts.now) d fwd.now acts.now holds.old }
    requires i_in_bounds { i < length acts.now }
    ensures { Row (i * d) d (both_acting d fwd.now acts.now i) holds.old holds.new }
{
    let base = i * d;
    let here = acts[i] == 1;
    for e in 0..d {
        let b = base + e;
        holds[b] = u8::from(here & (acts[wide(fwd[b])] == 1));
    }
}

// Both ends act.
pub fn active_bonds(n: usize, d: usize, fwd: &[u32], acts: &[u8], holds: &mut [u8])
    requires { ActiveIn n d fwd.now acts.now holds.old }
    ensures { Marks n d (both_acting d fwd.now acts.now) holds.new }
{
    for i in 0..n {
        active_site(i, d, fwd, acts, holds);
    }
}

// The size of a whole number, which an f32 holds exactly.
fn size(j: i32) -> f32
    requires { nat_abs j ≤ 4000000 }
    ensures { result ≡ whole (nat_abs j) }
{
    j.abs() as f32
}

// Are the first two spins of a column equal? Their product q is then +1, and else -1.
fn agree(a: u8) -> bool
    ensures { result ≡ eq_z (shown a 0) (shown a 1) }
{
    a % 2 == (a >> 1) % 2
}

// The coupling times the first replica's spins at the two ends.
fn aligned(a: u8, b: u8, coupling: i32) -> i32
    requires { nat_abs coupling ≤ 1000000 }
    ensures { result ≡ coupling *ℤ shown a 0 *ℤ shown b 0 }
{
    if a % 2 == b % 2 { coupling } else { -coupling }
}

// The kind of a bond in CMR, from the columns of its two ends.
pub fn classify(a: u8, b: u8, coupling: i32) -> BondKind
    requires { nat_abs coupling ≤ 1000000 }
    ensures { result ≡ kind_of coupling (shown a) (shown b) }
{
    if agree(a) == agree(b) {
        if aligned(a, b, coupling) > 0 {
            BondKind::Blue(size(coupling))
        } else {
            BondKind::None
        }
    } else if coupling == 0 {
        BondKind::None
    } else {
        BondKind::Red(size(coupling))
    }
}

// Equal is no bond.
fn is_drawn(scale: f32, strength: f32, cut: f32) -> bool
    ensures { result ≡ drawn scale strength cut }
{
    scale * strength > cut
}

pub fn draw_blue(kind: BondKind, sampler: Sampler, cut: f32) -> bool
    ensures { result ≡ blue_holds kind sampler cut }
{
    match kind {
        BondKind::Blue(w) => is_drawn(sampler.four, w, cut),
        BondKind::None | BondKind::Red(_) => false,
    }
}

// Blue and red together.
pub fn draw_grey(kind: BondKind, sampler: Sampler, cut: f32) -> bool
    ensures { result ≡ grey_holds kind sampler cut }
{
    match kind {
        BondKind::None => false,
        BondKind::Blue(_) => draw_blue(kind, sampler, cut),
        BondKind::Red(w) => is_drawn(sampler.two, w, cut),
    }
}

// What `draw_blue` makes of the kind that `classify` tells: tests that steer no jump, which random spins would make unforeseeable.
fn blue_bond(a: u8, b: u8, coupling: i32, sampler: Sampler, cut: f32) -> bool
    requires { nat_abs coupling ≤ 1000000 }
    ensures { result ≡ blue_holds (kind_of coupling (shown a) (shown b)) sampler cut }
{
    let same = agree(a) == agree(b);
    let up = aligned(a, b, coupling) > 0;
    same & up & is_drawn(sampler.four, size(coupling), cut)
}

// What `draw_grey` makes of it, once it is told whether the bond is blue.
fn grey_bond(blue: bool, a: u8, b: u8, coupling: i32, sampler: Sampler, cut: f32) -> bool
    requires coupling_bound { nat_abs coupling ≤ 1000000 }
    requires blue_value { blue ≡ blue_holds (kind_of coupling (shown a) (shown b)) sampler cut }
    ensures { result ≡ grey_holds (kind_of coupling (shown a) (shown b)) sampler cut }
{
    let differ = agree(a) != agree(b);
    let some = coupling != 0;
    blue | (differ & some & is_drawn(sampler.two, size(coupling), cut))
}

// The bonds of site i.
fn cmr_site(
    i: usize,
    d: usize,
    fwd: &[u32],
    couplings: &[i32],
    cuts: &[f32],
    sampler: Sampler,
    cols: &[u8],
    blue: &mut [u8],
    grey: &mut [u8],
)
    requires cmr_in { CmrIn (length cols.now) d fwd.now couplings.now cuts.now cols.now blue.old grey.old }
    requires i_in_bounds { i < length cols.now }
    ensures { BothRows (i * d) d
        (blue_at d fwd.now couplings.now cuts.now sampler cols.now i)
        (grey_at d fwd.now couplings.now cuts.now sampler cols.now i)
        blue.old grey.old blue.new grey.new }
{
    let base = i * d;
    let col = cols[i];
    for e in 0..d {
        let b = base + e;
        let other = cols[wide(fwd[b])];
        let coupling = couplings[b];
        let cut = cuts[b];
        let on = blue_bond(col, other, coupling, sampler, cut);
        blue[b] = u8::from(on);
        grey[b] = u8::from(grey_bond(on, col, other, coupling, sampler, cut));
    }
}

// Every site takes part.
pub fn cmr_bonds(
    n: usize,
    d: usize,
    fwd: &[u32],
    couplings: &[i32],
    cuts: &[f32],
    sampler: Sampler,
    cols: &[u8],
    blue: &mut [u8],
    grey: &mut [u8],
)
    requires { CmrIn n d fwd.now couplings.now cuts.now cols.now blue.old grey.old }
    ensures { CmrOut n d fwd.now couplings.now cuts.now sampler
        cols.now blue.new grey.new }
{
    for i in 0..n {
        cmr_site(i, d, fwd, couplings, cuts, sampler, cols, blue, grey);
    }
}

// The blue bonds of site i.
fn blue_site(
    i: usize,
    d: usize,
    fwd: &[u32],
    couplings: &[i32],
    cuts: &[f32],
    sampler: Sampler,
    cols: &[u8],
    blue: &mut [u8],
)
    requires blue_in { BlueIn (length cols.now) d fwd.now couplings.now cuts.now cols.now blue.old }
    requires i_in_bounds { i < length cols.now }
    ensures { Row (i * d) d
        (blue_at d fwd.now couplings.now cuts.now sampler cols.now i)
        blue.old blue.new }
{
    let base = i * d;
    let col = cols[i];
    for e in 0..d {
        let b = base + e;
        blue[b] = u8::from(blue_bond(col, cols[wide(fwd[b])], couplings[b], sampler, cuts[b]));
    }
}

// The blue bonds alone, which are all that an observation labels.
pub fn blue_bonds(
    n: usize,
    d: usize,
    fwd: &[u32],
    couplings: &[i32],
    cuts: &[f32],
    sampler: Sampler,
    cols: &[u8],
    blue: &mut [u8],
)
    requires { BlueIn n d fwd.now couplings.now cuts.now cols.now blue.old }
    ensures { Marks n d
        (blue_at d fwd.now couplings.now cuts.now sampler cols.now)
        blue.new }
{
    for i in 0..n {
        blue_site(i, d, fwd, couplings, cuts, sampler, cols, blue);
    }
}

// What the first pair of two columns adds to the sum: where it disagrees at both ends, the product of its first spins.
fn pair_term(a: u8, b: u8) -> i32
    ensures { result ≡ pair_term (shown a) (shown b) 0 }
{
    if agree(a) {
        return 0;
    }
    if agree(b) {
        return 0;
    }
    if a % 2 == b % 2 { 1 } else { -1 }
}

fn pair_sum(a: u8, b: u8, pairs: usize) -> i32
    requires { pairs ≤ 4 }
    ensures { result ≡ sum pairs (pair_term (shown a) (shown b)) }
{
    let mut total: i32 = 0;
    let mut x = a;
    let mut y = b;
    for k in 0..pairs {
        total += pair_term(x, y);
        x >>= 2;
        y >>= 2;
    }
    total
}

// Whether a bond of two sites with these columns is drawn.
pub fn jorg_holds(coupling: i32, len: usize, a: u8, b: u8, sampler: Sampler, cut: f32) -> bool
    requires coupling_bound { nat_abs coupling ≤ 1000000 }
    requires len_bound { len ≤ 8 }
    ensures { result ≡ jorg_holds coupling len (shown a) (shown b) sampler cut }
{
    let strength = coupling * pair_sum(a, b, len / 2);
    strength > 0 && is_drawn(sampler.four, size(strength), cut)
}

// A bond of a site that acts: its other end has the byte `act`.
fn jorg_bond(act: u8, coupling: i32, len: usize, a: u8, b: u8, sampler: Sampler, cut: f32) -> bool
    requires coupling_bound { nat_abs coupling ≤ 1000000 }
    requires len_bound { len ≤ 8 }
    ensures { result ≡ (eqb act 1 && jorg_holds coupling len (shown a) (shown b) sampler cut) }
{
    act == 1 && jorg_holds(coupling, len, a, b, sampler, cut)
}

// The bonds of site i, which acts.
fn jorg_site(
    i: usize,
    d: usize,
    fwd: &[u32],
    couplings: &[i32],
    cuts: &[f32],
    len: usize,
    sampler: Sampler,
    acts: &[u8],
    cols: &[u8],
    holds: &mut [u8],
)
    requires jorg_in { JorgIn (length acts.now) d fwd.now couplings.now cuts.now len acts.now cols.now holds.old }
    requires acts { Acts acts.now i }
    ensures { Row (i * d) d
        (jorg_at d fwd.now couplings.now cuts.now len sampler acts.now cols.now i)
        holds.old holds.new }
{
    let base = i * d;
    let col = cols[i];
    for e in 0..d {
        let b = base + e;
        let j = wide(fwd[b]);
        let bond = jorg_bond(acts[j], couplings[b], len, col, cols[j], sampler, cuts[b]);
        holds[b] = u8::from(bond);
    }
}

// Both ends act and the bond is drawn.
pub fn jorg_bonds(
    n: usize,
    d: usize,
    fwd: &[u32],
    couplings: &[i32],
    cuts: &[f32],
    group: Group,
    sampler: Sampler,
    acts: &[u8],
    cols: &[u8],
    holds: &mut [u8],
)
    requires { JorgIn n d fwd.now couplings.now cuts.now group.len acts.now cols.now holds.old }
    ensures { Marks n d
        (jorg_at d fwd.now couplings.now cuts.now group.len sampler acts.now cols.now)
        holds.new }
{
    clear(holds);
    let len = group.len;
    for i in 0..n {
        if acts[i] == 1 {
            jorg_site(i, d, fwd, couplings, cuts, len, sampler, acts, cols, holds);
        }
    }
}
