// Writing a list: how long it is, and then its lines one by one.
ghost use Rattle.std.specs.Prelude.{◌≡◌, ◌*◌, length, pos};
ghost use Rattle.lemmas.specs.Ints.{eq_z};
ghost use Rattle.edge_text.specs.Form.{lines_of};
ghost use Rattle.edge_text.specs.Writing.{Put, Long};
ghost use Rattle.edges.specs.Listed.{edge_at, entry_at, listed};
ghost use Rattle.edges.specs.Listing.{Tabled, Bond, Told, BondRoom, ListRoom, Counted, Measured};

use edge_text::Edge;
use edge_text::writing::{line_length, put_line};
use lemmas::wide;

// A tested table of neighbours, with a coupling for each bond.
#[derive(Clone, Copy)]
pub(crate) struct Table<'a> {
    pub(crate) n: usize,
    pub(crate) d: usize,
    pub(crate) fwd: &'a [u32],
    pub(crate) couplings: &'a [i32],
}

// A coupling that is 0 has no line.
fn is_zero(j: i32) -> bool
    ensures { result ≡ eq_z j (pos 0) }
{
    j == 0
}

impl Table<'_> {
    fn edge_at(&self, b: usize) -> Edge
        requires { Bond self.now.n self.now.d self.now.fwd.now self.now.couplings.now b }
        ensures { result ≡ edge_at self.now.d self.now.fwd.now self.now.couplings.now b }
    {
        Edge {
            from: b / self.d,
            to: wide(self.fwd[b]),
            coupling: self.couplings[b],
        }
    }

    // Of one bond: 1 where it has a line.
    fn entry_count(&self, b: usize) -> usize
        requires { Bond self.now.n self.now.d self.now.fwd.now self.now.couplings.now b }
        ensures { Told (entry_at self.now.d self.now.fwd.now self.now.couplings.now b) result }
    {
        if is_zero(self.couplings[b]) {
            return 0;
        }
        1
    }

    // Of one bond: the bytes of its line, if it has one.
    fn entry_length(&self, b: usize) -> usize
        requires { Bond self.now.n self.now.d self.now.fwd.now self.now.couplings.now b }
        ensures { Long (lines_of (entry_at self.now.d self.now.fwd.now self.now.couplings.now b)) 25 result }
    {
        if is_zero(self.couplings[b]) {
            return 0;
        }
        line_length(self.edge_at(b))
    }

    fn put_entry(&self, b: usize, out: &mut [u8], at: usize) -> usize
        requires { BondRoom self.now.n self.now.d self.now.fwd.now self.now.couplings.now b at (length out.old) }
        ensures { Put (lines_of (entry_at self.now.d self.now.fwd.now self.now.couplings.now b)) out.old at result out.new }
    {
        if is_zero(self.couplings[b]) {
            return at;
        }
        put_line(self.edge_at(b), out, at)
    }

    pub(crate) fn count(&self) -> usize
        requires { Tabled self.now.n self.now.d self.now.fwd.now self.now.couplings.now }
        ensures { Counted (listed self.now.d self.now.fwd.now self.now.couplings.now (self.now.n * self.now.d)) result }
    {
        let m = self.n * self.d;
        let mut total = 0;
        for b in 0..m {
            total += self.entry_count(b);
        }
        total
    }

    pub(crate) fn bytes(&self) -> usize
        requires { Tabled self.now.n self.now.d self.now.fwd.now self.now.couplings.now }
        ensures { Measured (listed self.now.d self.now.fwd.now self.now.couplings.now (self.now.n * self.now.d)) result }
    {
        let m = self.n * self.d;
        let mut total = 0;
        for b in 0..m {
            total += self.entry_length(b);
        }
        total
    }

    pub(crate) fn put_all(&self, out: &mut [u8], at: usize) -> usize
        requires { ListRoom self.now.n self.now.d self.now.fwd.now self.now.couplings.now at (length out.old) }
        ensures { Put (lines_of (listed self.now.d self.now.fwd.now self.now.couplings.now (self.now.n * self.now.d))) out.old at result out.new }
    {
        let m = self.n * self.d;
        let mut p = at;
        for b in 0..m {
            p = self.put_entry(b, out, p);
        }
        p
    }
}
