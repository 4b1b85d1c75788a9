// What is told of numbered components: how many of each size there are, and the four largest sizes, of those that are counted.
#![tactic(auto)]

ghost use Rattle.std.specs.Prelude.{◌≡◌, ◌<◌, length};
ghost use Rattle.lemmas.specs.Counts.{bit};
ghost use Rattle.sizes.specs.Contract.{is_one, Countable, Reported};
ghost use Rattle.sizes.specs.Steps.{Marking, Marked, Picking, Picked, Started, Histogramming, Histogram};

mod top;

use lemmas::wide;
use lemmas::words::clear;
use top::top4_sizes;

// Writes at each number the byte of its component's smallest site. The sites come in falling order, so that what stays is the smallest one's: no turn
// waits for the one before, as it would in a pass that counts the numbers met so far to know a component's first site.
fn component_marks(labels: &[u32], marks: &[u8], bytes: &mut [u8])
    requires { Marking labels.now marks.now (length bytes.old) }
    ensures { Marked labels.now marks.now bytes.new }
{
    for i in (0..labels.len()).rev() {
        let r = wide(labels[i]);
        bytes[r] = marks[i];
    }
}

// How many of the counted components have one site, and how many others are listed.
#[derive(Clone, Copy)]
struct Split {
    ones: u32,
    len: usize,
}

// Counts the counted components of one site, and lists the sizes of the others. Where few sites act most components have one
// site, and to count them size by size is a chain of stores to one place. They are what is counted and not listed: a sum of their own costs more.
fn gather_sizes(found: usize, tally: &[u32], bytes: &[u8], list: &mut [u32]) -> Split
    requires { Picking found tally.now bytes.now (length list.old) }
    ensures { Picked found tally.now bytes.now list.new result.ones result.len }
{
    let mut all = 0;
    let mut len = 0;
    for r in 0..found {
        let size = tally[r];
        list[len] = size;
        let own = bytes[r] == 1;
        all += usize::from(own);
        len += usize::from(own & (size != 1));
    }
    let ones = (all - len) as u32;
    Split { ones, len }
}

// Every count is 0 but that of the size 1.
fn start_counts(ones: u32, counts: &mut [u32])
    requires { ones < length counts.old }
    ensures { Started ones (length counts.old) counts.new }
{
    clear(counts);
    if ones == 0 {
        return;
    }
    counts[1] = ones;
}

// Writes how often each size stands in the list, and the size 1 so often more.
fn uf_histogram(sizes: &[u32], ones: u32, counts: &mut [u32])
    requires { Histogramming sizes.now ones (length counts.old) }
    ensures { Histogram sizes.now ones counts.new (length counts.old) }
{
    start_counts(ones, counts);
    for &size in sizes {
        counts[wide(size)] += 1;
    }
}

// Writes the number of components of each size and the four largest sizes, of those whose smallest site has the mark 1; there are `found` in all.
pub fn count(
    labels: &[u32],
    found: u32,
    tally: &[u32],
    marks: &[u8],
    counts: &mut [u32],
    sizes: &mut [u32],
)
    requires { Countable labels.now found tally.now marks.now (length counts.old) (length sizes.old) }
    ensures { Reported (is_one marks.now) labels.now counts.new sizes.new }
{
    let mut bytes = [0u8; 4096];
    let mut list = [0u32; 4096];
    component_marks(labels, marks, &mut bytes);
    let Split { ones, len } = gather_sizes(wide(found), tally, &bytes, &mut list);
    let several = &list[..len];
    uf_histogram(several, ones, counts);
    let t = top4_sizes(several, ones);
    sizes[0] = t.0;
    sizes[1] = t.1;
    sizes[2] = t.2;
    sizes[3] = t.3;
}
