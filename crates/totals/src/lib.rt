// How the energies of a group's systems change in a move. Only bonds with an end among the sites that changed are looked at.
#![tactic(auto)]

ghost use Rattle.std.specs.Prelude.{pos, ◌-ℤ◌, length, ◌≡◌, ◌<◌, ◌≤◌, ◌/◌, ◌%◌, ◌^◌};
ghost use Rattle.totals.specs.Gain.{bond_gain, bit_gain, at_site, change_of, gain_at, still_at, site_gain};
ghost use Rattle.totals.specs.Gain.{BondIn, Ends, Ground, SiteOf, Added, Sums};
ghost use Rattle.totals.specs.Contract.{lattice_for, Payable, Paid, Bringable, Columned, Spun, BringsAll};
ghost use Rattle.columns.specs.Rows.{SiteIn};
ghost use Rattle.totals.specs.Listed.{SitesIn, NearIn, GatherIn, Areas, Near, NearSome, columns_by, Gathered, Listing, BringsListed};
ghost use Rattle.lemmas.specs.Sums.{sum};

use lemmas::wide;
use paper::{Group, Task};

// Where bit k is set in y and not in x this is 1, where in x and not in y it is -1, and else 0.
fn step(x: u8, y: u8, k: usize) -> i64
    requires { k < 8 }
    ensures { result ≡ pos (y / 2 ^ k % 2) -ℤ pos (x / 2 ^ k % 2) }
{
    (((y >> k) % 2) as i64) - (((x >> k) % 2) as i64)
}

// Adds a bond's change to each member's sum. A bit of x or of y is set where the ends were unlike, or are.
fn add_bond(j: i32, x: u8, y: u8, len: usize, sums: &mut [i64; 8])
    requires { BondIn j len sums.old }
    ensures { Added len (bit_gain j x y) sums.old sums.new }
{
    let w = 2 * (j as i64);
    for k in 0..len {
        sums[k] += w * step(x, y, k);
    }
}

// The same from the columns of the two ends, which were a and b and are now a2 and b2.
fn change_bond(j: i32, a: u8, a2: u8, b: u8, b2: u8, len: usize, sums: &mut [i64; 8])
    requires { BondIn j len sums.old }
    ensures { Added len (bond_gain j a a2 b b2) sums.old sums.new }
{
    let x = a ^ b;
    let y = a2 ^ b2;
    if x != y {
        add_bond(j, x, y, len, sums);
    }
}

// The same of the bond of the number at, between the sites i and j.
fn bond_at(
    n: usize,
    couplings: &[i32],
    olds: &[u8],
    news: &[u8],
    len: usize,
    at: usize,
    i: usize,
    j: usize,
    sums: &mut [i64; 8],
)
    requires { Ends n len couplings.now olds.now news.now at i j sums.old }
    ensures { Added len
        (gain_at couplings.now (at_site olds.now) (at_site news.now) at i j) sums.old sums.new }
{
    change_bond(couplings[at], olds[i], news[i], olds[j], news[j], len, sums);
}

// The same only where the start did not change: a bond with both ends changed is counted at its start.
fn still_at(
    n: usize,
    couplings: &[i32],
    olds: &[u8],
    news: &[u8],
    len: usize,
    at: usize,
    from: usize,
    to: usize,
    sums: &mut [i64; 8],
)
    requires { Ends n len couplings.now olds.now news.now at from to sums.old }
    ensures { Added len
        (still_at couplings.now (at_site olds.now) (at_site news.now) at from to) sums.old sums.new }
{
    if olds[from] == news[from] {
        bond_at(n, couplings, olds, news, len, at, from, to, sums);
    }
}

// Adds the changes of the bonds of the site i in both senses, if it changed.
fn change_site(
    n: usize,
    d: usize,
    fwd: &[u32],
    bwd: &[u32],
    couplings: &[i32],
    olds: &[u8],
    news: &[u8],
    len: usize,
    i: usize,
    sums: &mut [i64; 8],
)
    requires { SiteOf n d len fwd.now bwd.now couplings.now olds.now news.now i sums.old }
    ensures { Added len
        (λ k. site_gain (change_of d fwd.now bwd.now couplings.now olds.now news.now) k i)
        sums.old sums.new }
{
    if olds[i] == news[i] {
        return;
    }
    let base = i * d;
    for e in 0..d {
        let at = base + e;
        let to = wide(fwd[at]);
        bond_at(n, couplings, olds, news, len, at, i, to, sums);
        let from = wide(bwd[at]);
        still_at(n, couplings, olds, news, len, from * d + e, from, i, sums);
    }
}

// The changes of all members' energies.
fn change_all(
    n: usize,
    d: usize,
    fwd: &[u32],
    bwd: &[u32],
    couplings: &[i32],
    olds: &[u8],
    news: &[u8],
    len: usize,
) -> [i64; 8]
    requires ground { Ground n d fwd.now bwd.now couplings.now olds.now news.now }
    requires len_bound { len ≤ 8 }
    ensures { Sums len
        (λ k. sum n (site_gain (change_of d fwd.now bwd.now couplings.now olds.now news.now) k)) result }
{
    let mut sums = [0i64; 8];
    for i in 0..n {
        change_site(n, d, fwd, bwd, couplings, olds, news, len, i, &mut sums);
    }
    sums
}

// Adds each member's sum to the total of its system.
fn add_totals(group: Group, sums: &[i64; 8], totals: &mut [i64])
    requires { Payable group sums.now totals.old }
    ensures { Paid group.len group sums.now totals.old totals.new }
{
    for k in 0..group.len {
        totals[group.systems[k]] += sums[k];
    }
}

// The changes of all members' energies, looked at from the sites that are listed.
fn change_listed(
    n: usize,
    d: usize,
    fwd: &[u32],
    bwd: &[u32],
    couplings: &[i32],
    olds: &[u8],
    news: &[u8],
    len: usize,
    list: &[u32],
    listed: usize,
) -> [i64; 8]
    requires ground { Ground n d fwd.now bwd.now couplings.now olds.now news.now }
    requires len_bound { len ≤ 8 }
    requires sites_in { SitesIn n list.now listed }
    ensures { Sums len
        (λ k. sum listed
        (λ a. site_gain (change_of d fwd.now bwd.now couplings.now olds.now news.now) k
        (at_site list.now a))) result }
{
    let mut sums = [0i64; 8];
    for &site in &list[..listed] {
        change_site(
            n,
            d,
            fwd,
            bwd,
            couplings,
            olds,
            news,
            len,
            wide(site),
            &mut sums,
        );
    }
    sums
}

// Reads the column of the site j into both areas, unless it is a member's.
fn gather_one(
    n: usize,
    group: Group,
    spins: &[i8],
    members: &[u8],
    j: usize,
    olds: &mut [u8],
    news: &mut [u8],
)
    requires site_in { SiteIn n group spins.now j }
    requires areas { Areas n (length members.now) (length olds.old) (length news.old) }
    ensures { Gathered n members.now (columns_by n group spins.now) (λ x. x ≡ j)
        olds.old news.old olds.new news.new }
{
    if members[j] != 1 {
        let c = columns::column_at(spins, n, group, j);
        olds[j] = c;
        news[j] = c;
    }
}

// The same of all sites next to the site i.
fn gather_near(
    n: usize,
    d: usize,
    group: Group,
    spins: &[i8],
    fwd: &[u32],
    bwd: &[u32],
    members: &[u8],
    i: usize,
    olds: &mut [u8],
    news: &mut [u8],
)
    requires near_in { NearIn n d group spins.now fwd.now bwd.now i }
    requires areas { Areas n (length members.now) (length olds.old) (length news.old) }
    ensures { Gathered n members.now (columns_by n group spins.now)
        (Near d fwd.now bwd.now i d) olds.old news.old olds.new news.new }
{
    let base = i * d;
    for e in 0..d {
        let to = wide(fwd[base + e]);
        gather_one(n, group, spins, members, to, olds, news);
        let from = wide(bwd[base + e]);
        gather_one(n, group, spins, members, from, olds, news);
    }
}

// The same of all sites next to those that are listed.
fn gather(
    n: usize,
    d: usize,
    group: Group,
    spins: &[i8],
    fwd: &[u32],
    bwd: &[u32],
    members: &[u8],
    list: &[u32],
    listed: usize,
    olds: &mut [u8],
    news: &mut [u8],
)
    requires gather_in { GatherIn n d group spins.now fwd.now bwd.now list.now listed }
    requires areas { Areas n (length members.now) (length olds.old) (length news.old) }
    ensures { Gathered n members.now (columns_by n group spins.now)
        (NearSome d fwd.now bwd.now list.now listed)
        olds.old news.old olds.new news.new }
{
    for &site in &list[..listed] {
        gather_near(
            n,
            d,
            group,
            spins,
            fwd,
            bwd,
            members,
            wide(site),
            olds,
            news,
        );
    }
}

// Brings the totals along with a move, from the columns of all sites before it and after it.
pub fn bring_all(
    t: Task,
    fwd: &[u32],
    bwd: &[u32],
    couplings: &[i32],
    olds: &[u8],
    news: &[u8],
    totals: &mut [i64],
)
    requires bringable { Bringable (lattice_for t fwd.now bwd.now couplings.now) t.group totals.old }
    requires columned { Columned t.n olds.now news.now }
    ensures { BringsAll
        (lattice_for t fwd.now bwd.now couplings.now) t.group olds.now news.now
        totals.old totals.new }
{
    let group = t.group;
    let sums = change_all(t.n, t.d, fwd, bwd, couplings, olds, news, group.len);
    add_totals(group, &sums, totals);
}

// Brings the totals along with a move of the sites that are listed, the members. The spins are those after it; of the members the areas have the
// columns before and after, and what else they have is overwritten where it is needed.
pub fn bring_listed(
    t: Task,
    spins: &[i8],
    fwd: &[u32],
    bwd: &[u32],
    couplings: &[i32],
    members: &[u8],
    list: &[u32],
    len: usize,
    olds: &mut [u8],
    news: &mut [u8],
    totals: &mut [i64],
)
    requires bringable { Bringable (lattice_for t fwd.now bwd.now couplings.now) t.group totals.old }
    requires spun { Spun (lattice_for t fwd.now bwd.now couplings.now) t.group spins.now }
    requires listing { Listing t.n t.group spins.now members.now list.now len olds.old news.old }
    ensures { BringsListed
        (lattice_for t fwd.now bwd.now couplings.now) t.group spins.now members.now
        olds.old totals.old totals.new }
{
    let group = t.group;
    let n = t.n;
    let d = t.d;
    gather(n, d, group, spins, fwd, bwd, members, list, len, olds, news);
    let sums = change_listed(n, d, fwd, bwd, couplings, olds, news, group.len, list, len);
    add_totals(group, &sums, totals);
}
