// Reading a list: each line into its bond's cell, and the table from the cells.
ghost use Rattle.std.specs.Prelude.{◌≡◌, ◌≤◌, ◌<◌, length, drop};
ghost use Rattle.lemmas.specs.Tells.{Tells};
ghost use Rattle.edges.specs.Filling.{Ways, FirstWay, Pair, Ordered, FirstBond, Readable, FilledAs, LoadedAs};
ghost use Rattle.edges.specs.Filling.{decoded, SmallCodes, Decodable, Decoded};

use edge_text::reading::{head, line};
use lemmas::wide;

// A tested table of neighbours.
#[derive(Clone, Copy)]
pub(crate) struct Neighbours<'a> {
    pub(crate) n: usize,
    pub(crate) d: usize,
    pub(crate) fwd: &'a [u32],
}

impl Neighbours<'_> {
    // The first way from a site to another by a free bond.
    fn scan(&self, cells: &[u32], from: usize, to: usize) -> Option<usize>
        requires { Ways self.now.d self.now.fwd.now cells.now from }
        ensures { FirstWay self.now.d self.now.fwd.now cells.now from to result }
    {
        for way in 0..self.d {
            let b = from * self.d + way;
            if (wide(self.fwd[b]) == to) & (wide(cells[b]) == 0) {
                return Some(way);
            }
        }
        None
    }

    // The lower site's bonds have the lower numbers.
    fn find_rising(&self, cells: &[u32], i: usize, j: usize) -> Option<usize>
        requires { Ordered self.now.n self.now.d self.now.fwd.now cells.now i j }
        ensures { FirstBond self.now.n self.now.d self.now.fwd.now cells.now i j result }
    {
        if let Some(way) = self.scan(cells, i, j) {
            return Some(i * self.d + way);
        }
        let way = self.scan(cells, j, i)?;
        Some(j * self.d + way)
    }

    fn find(&self, cells: &[u32], i: usize, j: usize) -> Option<usize>
        requires { Pair self.now.n self.now.d self.now.fwd.now cells.now i j }
        ensures { FirstBond self.now.n self.now.d self.now.fwd.now cells.now i j result }
    {
        if i <= j {
            return self.find_rising(cells, i, j);
        }
        self.find_rising(cells, j, i)
    }

    // The m lines from a place on, and no byte behind them.
    fn fill(&self, text: &[u8], at: usize, m: usize, cells: &mut [u32]) -> bool
        requires { Readable self.now.n self.now.d self.now.fwd.now text.now at cells.old }
        ensures { FilledAs self.now.n self.now.d self.now.fwd.now (drop at text.now) m result cells.new }
    {
        let mut p = at;
        for _ in 0..m {
            let Some(edge) = line(text, p, self.n) else {
                return false;
            };
            let Some(b) = self.find(cells, edge.from, edge.to) else {
                return false;
            };
            cells[b] = edge.code;
            p = edge.end;
        }
        p == text.len()
    }

    // The whole text.
    pub(crate) fn load(&self, text: &[u8], cells: &mut [u32]) -> bool
        requires { Readable self.now.n self.now.d self.now.fwd.now text.now 0 cells.old }
        ensures { LoadedAs self.now.n self.now.d self.now.fwd.now text.now result cells.new }
    {
        let Some(lines) = head(text, self.n, self.n * self.d) else {
            return false;
        };
        self.fill(text, lines.end, lines.value, cells)
    }
}

// No coupling is too large in size. One pass without an exit, which the compiler makes vector code of.
pub(crate) fn all_small(cells: &[u32], m: usize) -> bool
    requires { m ≤ length cells.now }
    ensures { Tells result (SmallCodes m cells.now) }
{
    let mut ok = true;
    for &code in &cells[..m] {
        ok &= code < 2000002;
    }
    ok
}

fn decode(x: u32) -> i32
    requires { x < 2000002 }
    ensures { result ≡ decoded x }
{
    if x == 0 { 0 } else { x as i32 - 1000001 }
}

pub(crate) fn copy(cells: &[u32], couplings: &mut [i32])
    requires { Decodable (length couplings.old) cells.now }
    ensures { Decoded cells.now couplings.old couplings.new }
{
    for (k, coupling) in couplings.iter_mut().enumerate() {
        *coupling = decode(cells[k]);
    }
}
