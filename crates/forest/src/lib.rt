// Union-find in the lent labels: the ends of every bond that holds are joined, and the components numbered in the order of their smallest sites.
#![tactic(auto)]

ghost use Rattle.std.specs.Prelude.{◌≡◌, ◌≤◌, ◌<◌, length, cond};
ghost use Rattle.paper.specs.Component.Marks.{marked};
ghost use Rattle.forest.specs.Closure.{Only};
ghost use Rattle.forest.specs.Contract.{Given, Labelled};
ghost use Rattle.forest.specs.Forest.{Adds};
ghost use Rattle.forest.specs.Steps.{Own, Climbing, Gathering, Gathered, Listing, Listed, Part, Block, Ends, Bonding, Flattening, Flattened};

use lemmas::wide;

// A select and no branch: of an `if` at the place of the call the compiler makes a jump, and which site is a root is unforeseeable.
fn pick(yes: bool, a: u32, b: u32) -> u32
    ensures { result ≡ cond yes a b }
{
    if yes { a } else { b }
}

// Each site its own parent.
fn start(labels: &mut [u32])
    requires { length labels.old ≤ 4096 }
    ensures { Own (length labels.old) labels.new }
{
    for (i, label) in labels.iter_mut().enumerate() {
        *label = i as u32;
    }
}

// Links `a` and `b`. Climbs from both at once: the one whose parent is larger gets the smaller parent, and goes on from its old one.
fn union(labels: &mut [u32], a: usize, b: usize)
    requires { Climbing labels.old a b }
    ensures { Adds labels.old (Only a b) labels.new }
{
    let mut x = a;
    let mut y = b;
    let mut u = labels[x];
    let mut v = labels[y];
    while u != v {
        if u < v {
            labels[y] = u;
            y = wide(v);
            v = labels[y];
        } else {
            labels[x] = v;
            x = wide(u);
            u = labels[x];
        }
    }
}

// Lists the sites from lo below hi whose bond k holds. A test that steers no jump costs less here than one that a random table makes unforeseeable.
fn gather(d: usize, k: usize, lo: usize, hi: usize, holds: &[u8], list: &mut [u32]) -> usize
    requires { Gathering d k lo hi holds.now (length list.old) }
    ensures { Gathered (λ x. marked d holds.now x k) lo hi list.new result }
{
    let mut len = 0;
    let mut at = lo * d + k;
    for i in lo..hi {
        list[len] = i as u32;
        len += usize::from(holds[at] == 1);
        at += d;
    }
    len
}

// Links each listed site to the end of its bond k.
fn join_listed(d: usize, k: usize, len: usize, fwd: &[u32], list: &[u32], labels: &mut [u32])
    requires { Listing d k len fwd.now list.now labels.old }
    ensures { Adds labels.old (Listed d k fwd.now list.now len) labels.new }
{
    for &site in &list[..len] {
        let x = wide(site);
        union(labels, x, wide(fwd[x * d + k]));
    }
}

// Links the ends of the bonds that hold, of the sites from lo below hi.
fn join_block(
    d: usize,
    lo: usize,
    hi: usize,
    fwd: &[u32],
    holds: &[u8],
    labels: &mut [u32],
    list: &mut [u32],
)
    requires { Block d lo hi fwd.now holds.now labels.old (length list.old) }
    ensures { Adds labels.old (Part d fwd.now (marked d holds.now) lo hi d) labels.new }
{
    for k in 0..d {
        let len = gather(d, k, lo, hi, holds, list);
        join_listed(d, k, len, fwd, list, labels);
    }
}

// The end of the block that starts at lo. Blocks of 64 sites keep the list short and the order of the sites' bonds near that of the sites.
fn block_end(lo: usize, n: usize) -> usize
    requires { lo < n }
    ensures { Ends lo n result }
{
    if n - lo < 64 { n } else { lo + 64 }
}

// Links the ends of every bond that holds. Each block's end is the next one's start: of a `step_by` the compiler makes a pass that is a tenth slower.
fn uf_bonds(d: usize, fwd: &[u32], holds: &[u8], labels: &mut [u32], list: &mut [u32])
    requires { Bonding d fwd.now holds.now labels.old (length list.old) }
    ensures { Adds
        labels.old
        (Part d fwd.now (marked d holds.now) 0 (length labels.old) d)
        labels.new }
{
    let n = labels.len();
    let mut lo = 0;
    while lo < n {
        let hi = block_end(lo, n);
        join_block(d, lo, hi, fwd, holds, labels, list);
        lo = hi;
    }
}

// Numbers the components in the order of their roots, which are their smallest sites, and tallies the sites of each number. A root takes the next
// number; any other site takes that of its parent, which comes before it. Returns how many there are.
fn uf_flatten_counts(labels: &mut [u32], tally: &mut [u32]) -> u32
    requires { Flattening labels.old (length tally.old) }
    ensures { Flattened labels.old labels.new tally.new result }
{
    let mut next: u32 = 0;
    for i in 0..labels.len() {
        let p = wide(labels[i]);
        let own = p == i;
        let r = pick(own, next, labels[p]);
        labels[i] = r;
        tally[i] = 0;
        tally[wide(r)] += 1;
        next += u32::from(own);
    }
    next
}

// Writes the number of each site's component, and at each number that of its sites. Returns how many components there are.
pub fn label(
    n: usize,
    d: usize,
    fwd: &[u32],
    holds: &[u8],
    labels: &mut [u32],
    tally: &mut [u32],
) -> u32
    requires { Given n d fwd.now holds.now (length labels.old) (length tally.old) }
    ensures { Labelled n d fwd.now holds.now labels.new tally.new result }
{
    start(labels);
    uf_bonds(d, fwd, holds, labels, tally);
    uf_flatten_counts(labels, tally)
}
