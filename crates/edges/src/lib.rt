// Couplings from an edge list, and an edge list from couplings.
#![tactic(auto)]

mod fill;
mod list;

ghost use Rattle.lemmas.specs.Tells.{Tells};
ghost use Rattle.paper.specs.Refusal.Numbers.{verdict_of};
ghost use Rattle.edges.specs.Cases.{listing_of};
ghost use Rattle.edges.specs.Answer.{ExactLengths, net_of, ReadAnswers, WriteAnswers};

use edge_text::writing::{head_length, put_head};
use fill::Neighbours;
use list::Table;
use paper::Refusal;

fn exact(m: usize, fwd: usize, bwd: usize, couplings: usize) -> bool
    ensures { Tells result (ExactLengths m fwd bwd couplings) }
{
    (fwd == m) & (bwd == m) & (couplings == m)
}

// Fills the couplings from the text. All of it is read before anything is written.
pub fn read_edges(
    n: usize,
    d: usize,
    fwd: &[u32],
    bwd: &[u32],
    text: &[u8],
    couplings: &mut [i32],
) -> Result<(), Refusal>
    ensures { ReadAnswers
        (net_of n d fwd.now bwd.now)
        text.now
        couplings.old
        (verdict_of result)
        couplings.new }
{
    if !lattice::sizes_ok(n, d, 1) {
        return Err(Refusal::Sizes);
    }
    if !exact(n * d, fwd.len(), bwd.len(), couplings.len()) {
        return Err(Refusal::Lengths);
    }
    if !lattice::tables_ok(n, d, fwd, bwd) {
        return Err(Refusal::Tables);
    }
    let mut cells = [0u32; 16384];
    let neighbours = Neighbours { n, d, fwd };
    if !neighbours.load(text, &mut cells) {
        return Err(Refusal::EdgeList);
    }
    if !fill::all_small(&cells, n * d) {
        return Err(Refusal::Couplings);
    }
    fill::copy(&cells, couplings);
    Ok(())
}

// Writes the list of the nonzero couplings to the front of the text. Its length is known before anything is written.
pub fn write_edges(
    n: usize,
    d: usize,
    fwd: &[u32],
    bwd: &[u32],
    couplings: &[i32],
    text: &mut [u8],
) -> Result<usize, Refusal>
    ensures { WriteAnswers
        (net_of n d fwd.now bwd.now)
        couplings.now
        text.old
        (listing_of result)
        text.new }
{
    if !lattice::sizes_ok(n, d, 1) {
        return Err(Refusal::Sizes);
    }
    if !exact(n * d, fwd.len(), bwd.len(), couplings.len()) {
        return Err(Refusal::Lengths);
    }
    if !lattice::tables_ok(n, d, fwd, bwd) {
        return Err(Refusal::Tables);
    }
    if !lattice::couplings_ok(couplings) {
        return Err(Refusal::Couplings);
    }
    let table = Table {
        n,
        d,
        fwd,
        couplings,
    };
    let m = table.count();
    let size = head_length(n, m) + table.bytes();
    if text.len() < size {
        return Err(Refusal::Lengths);
    }
    let at = put_head(n, m, text);
    Ok(table.put_all(text, at))
}
