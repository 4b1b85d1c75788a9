// Components of holding bonds: the number of each site's component, how many components there are in all and of each size, and the four largest sizes.
#![tactic(auto)]

ghost use Rattle.std.specs.Prelude.{◌≤◌, length};
ghost use Rattle.lemmas.specs.Tells.{Tells};
ghost use Rattle.label.specs.Contract.{LabelLent, Seen};
ghost use Rattle.label.specs.Entry.{ExactLengths, Below, Answers};
ghost use Rattle.label.specs.Labelling.{labelling_of};

pub use forest::label;
use lemmas::wide;
use paper::Refusal;
pub use sizes::count;

fn exact(
    n: usize,
    d: usize,
    fwd: usize,
    holds: usize,
    counted: usize,
    labels: usize,
    counts: usize,
    sizes: usize,
    found: usize,
) -> bool
    requires { (n ≤ 4096) × (d ≤ 4) }
    ensures { Tells result (ExactLengths n d fwd holds counted labels counts sizes found) }
{
    let table = n * d;
    (fwd == table)
        & (holds == table)
        & (counted == n)
        & (labels == n)
        & (counts == n + 1)
        & (sizes == 4)
        & (found == 1)
}

// One pass without an exit, which the compiler makes vector code of.
fn all_below(xs: &[u32], n: usize) -> bool
    ensures { Tells result (Below n xs.now) }
{
    let mut ok = true;
    for &x in xs {
        ok &= wide(x) < n;
    }
    ok
}

fn label_and_count(
    n: usize,
    d: usize,
    fwd: &[u32],
    holds: &[u8],
    counted: &[u8],
    labels: &mut [u32],
    counts: &mut [u32],
    sizes: &mut [u32],
    tally: &mut [u32],
) -> u32
    requires { LabelLent n d fwd.now holds.now counted.now
        (length labels.old) (length counts.old) (length sizes.old) (length tally.old) }
    ensures { Seen n d fwd.now holds.now counted.now
        labels.new counts.new sizes.new result }
{
    let found = label(n, d, fwd, holds, labels, &mut tally[..n]);
    count(labels, found, &tally[..n], counted, counts, sizes);
    found
}

// The labels, counts and four largest sizes of any tables, and how many components there are: what is no lattice is refused, and nothing is written.
// A component is counted where the byte of its smallest site is 1; numbered are all.
pub fn components(
    n: usize,
    d: usize,
    fwd: &[u32],
    holds: &[u8],
    counted: &[u8],
    labels: &mut [u32],
    counts: &mut [u32],
    sizes: &mut [u32],
    found: &mut [u32],
) -> Result<(), Refusal>
    ensures { Answers
        (record { n = n; d = d; fwd = fwd.now; holds = holds.now; counted = counted.now })
        (record { labels = labels.old; counts = counts.old; sizes = sizes.old; found = found.old })
        (labelling_of result)
        (record { labels = labels.new; counts = counts.new; sizes = sizes.new; found = found.new }) }
{
    if !lattice::sizes_ok(n, d, 1) {
        return Err(Refusal::Sizes);
    }
    if !exact(
        n,
        d,
        fwd.len(),
        holds.len(),
        counted.len(),
        labels.len(),
        counts.len(),
        sizes.len(),
        found.len(),
    ) {
        return Err(Refusal::Lengths);
    }
    if !all_below(fwd, n) {
        return Err(Refusal::Tables);
    }
    if !lattice::bytes_at_most(holds, 1) {
        return Err(Refusal::Choices);
    }
    if !lattice::bytes_at_most(counted, 1) {
        return Err(Refusal::Choices);
    }
    let mut tally = [0u32; 4096];
    found[0] = label_and_count(n, d, fwd, holds, counted, labels, counts, sizes, &mut tally);
    Ok(())
}
