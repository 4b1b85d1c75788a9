// What C and Rust link: the functions of the crate tsorvenk under their own names, each with its promise.
#![tactic(auto)]

mod bytes;
mod checking;
mod drawing;
mod framing;
mod listing;
mod numbering;
mod owned;
mod stepping;
mod sweeping;
mod testing;

ghost use Rattle.tsorvenk.specs.Label.{LabelAnswers};

// The components of the bonds whose byte in `holds` is 1, and how many there are, into a buffer of one number. Counts and sizes are of those whose
// smallest site has a byte 1 in `counted`.
#[unsafe(no_mangle)]
pub extern "C" fn tsorvenk_label(
    n: usize,
    d: usize,
    fwd: &[u32],
    holds: &[u8],
    counted: &[u8],
    labels: &mut [u32],
    counts: &mut [u32],
    sizes: &mut [u32],
    found: &mut [u32],
) -> u8
    ensures { LabelAnswers
        (record { n = n; d = d; fwd = fwd.now; holds = holds.now; counted = counted.now })
        (record { labels = labels.old; counts = counts.old; sizes = sizes.old; found = found.old })
        result
        (record { labels = labels.new; counts = counts.new; sizes = sizes.new; found = found.new }) }
{
    tsorvenk::tsorvenk_label(n, d, fwd, holds, counted, labels, counts, sizes, found)
}
