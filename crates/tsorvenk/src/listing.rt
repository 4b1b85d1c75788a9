// Edge lists, as C and Rust call them.
ghost use Rattle.edges.specs.Answer.{net_of, ReadAnswers};
ghost use Rattle.tsorvenk.specs.Edges.{lists, ListNumbers};

use super::verdict_of;

// Fills the couplings from the text of a list.
pub fn tsorvenk_read_edges(
    n: usize,
    d: usize,
    fwd: &[u32],
    bwd: &[u32],
    text: &[u8],
    couplings: &mut [i32],
) -> u8
    ensures { ReadAnswers
        (net_of n d fwd.now bwd.now)
        text.now
        couplings.old
        result
        couplings.new }
{
    verdict_of(edges::read_edges(n, d, fwd, bwd, text, couplings))
}

// The list goes to the front of `text`, and its number of bytes to `written`.
pub fn tsorvenk_write_edges(
    n: usize,
    d: usize,
    fwd: &[u32],
    bwd: &[u32],
    couplings: &[i32],
    text: &mut [u8],
    written: &mut [usize],
) -> u8
    ensures { ListNumbers
        (net_of n d fwd.now bwd.now)
        couplings.now
        (lists text.old written.old)
        result
        (lists text.new written.new) }
{
    if written.len() != 1 {
        if lattice::sizes_ok(n, d, 1) {
            return 2;
        }
        return 1;
    }
    match edges::write_edges(n, d, fwd, bwd, couplings, text) {
        Ok(length) => {
            written[0] = length;
            0
        }
        Err(refusal) => refusal.number(),
    }
}
