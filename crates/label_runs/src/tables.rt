// The tables that the runs are made on. A table has so many bonds a site; where a shape has no bond, it leads to the site itself and does not hold.
ghost use Rattle.std.specs.Prelude.{◌<◌, ◌≤◌};

use std::alloc::{AllocError, Global};

#[derive(Clone, Copy, Debug, PartialEq, Eq)]
pub(crate) struct Bond {
    pub(crate) from: u32,
    pub(crate) to: u32,
    pub(crate) holds: bool,
}

#[derive(Debug, Drop)]
pub(crate) struct Table {
    pub(crate) sites: u32,
    pub(crate) directions: u32,
    pub(crate) bonds: Vec<Bond>,
    // Whether a component counts, at its smallest site.
    pub(crate) counted: Vec<bool>,
}

impl Table {
    // Ends anywhere; so many bonds of eight hold, and so many sites of eight count.
    pub(crate) fn drawn(
        alloc: Global,
        draws: &mut Draws,
        sites: u32,
        directions: u32,
        share: Share,
    ) -> Result<Table, AllocError>
        requires { 0 < sites }
    {
        let mut bonds = Vec::new(alloc);
        for from in 0..sites {
            for _ in 0..directions {
                let to = draws.below(sites);
                bonds.push(Bond {
                    from,
                    to,
                    holds: false,
                })?;
            }
        }
        for bond in bonds.iter_mut() {
            bond.holds = draws.below(8) < share.holding;
        }
        let mut counted = Vec::new(alloc);
        for _ in 0..sites {
            counted.push(draws.below(8) < share.counted)?;
        }
        Ok(Table {
            sites,
            directions,
            bonds,
            counted,
        })
    }

    // The bonds between neighbours in a grid that both lie on a shape. Bond 0 leads on in the row, bond 1 to the row below.
    pub(crate) fn on_grid<F: Fn(Cell) -> bool>(
        alloc: Global,
        grid: Grid,
        is_on: F,
    ) -> Result<Table, AllocError>
        requires { F.IsAlwaysCallable is_on }
    {
        let mut bonds = Vec::new(alloc);
        for y in 0..grid.height {
            for x in 0..grid.width {
                let here = Cell { x, y };
                bonds.push(grid.bond(here, Cell { x: x + 1, y }, &is_on))?;
                bonds.push(grid.bond(here, Cell { x, y: y + 1 }, &is_on))?;
            }
        }
        Table::all_counted(alloc, grid.sites(), 2, bonds)
    }

    // Each site is joined to the one that it leads to.
    pub(crate) fn path<F: Fn(u32) -> u32>(
        alloc: Global,
        sites: u32,
        end: F,
    ) -> Result<Table, AllocError>
        requires { F.IsAlwaysCallable end }
    {
        let mut bonds = Vec::new(alloc);
        for from in 0..sites {
            let to = end(from);
            bonds.push(Bond {
                from,
                to,
                holds: from != to,
            })?;
        }
        Table::all_counted(alloc, sites, 1, bonds)
    }

    fn all_counted(
        alloc: Global,
        sites: u32,
        directions: u32,
        bonds: Vec<Bond>,
    ) -> Result<Table, AllocError> {
        Ok(Table {
            sites,
            directions,
            bonds,
            counted: vec![in alloc; true; sites as usize]?,
        })
    }
}

// Of eight, how many bonds hold and how many sites count.
#[derive(Clone, Copy, Debug)]
pub(crate) struct Share {
    pub(crate) holding: u32,
    pub(crate) counted: u32,
}

// The state of xorshift.
#[derive(Clone, Copy, Debug)]
pub(crate) struct Draws {
    state: u64,
}

impl Draws {
    pub(crate) fn new(seed: u64) -> Draws {
        Draws { state: seed }
    }

    fn next(&mut self) -> u64 {
        let a = self.state ^ (self.state << 13);
        let b = a ^ (a >> 7);
        self.state = b ^ (b << 17);
        self.state
    }

    fn below(&mut self, n: u32) -> u32
        requires { 0 < n }
    {
        let drawn = (self.next() / 65536 % 65536) as u32;
        drawn % n
    }
}

#[derive(Clone, Copy, Debug)]
pub(crate) struct Cell {
    pub(crate) x: u32,
    pub(crate) y: u32,
}

// A grid of up to 64 by 64 sites, numbered row by row.
#[derive(Clone, Copy, Debug)]
pub(crate) struct Grid {
    pub(crate) width: u32,
    pub(crate) height: u32,
    ghost narrow: { width ≤ 64 },
    ghost low: { height ≤ 64 },
}

impl Grid {
    pub(crate) fn sites(self) -> u32
        ensures { result ≤ 4096 }
    {
        self.width * self.height
    }

    fn site(self, cell: Cell) -> u32
        requires x_bound { cell.x < 64 }
        requires y_bound { cell.y < 64 }
    {
        cell.y * self.width + cell.x
    }

    // A bond that leads out of the grid leads to the site itself.
    fn bond<F: Fn(Cell) -> bool>(self, from: Cell, to: Cell, is_on: F) -> Bond
        requires callable { F.IsAlwaysCallable is_on }
        requires x_bound { from.x < 64 }
        requires y_bound { from.y < 64 }
    {
        let here = self.site(from);
        if to.x < self.width && to.y < self.height {
            Bond {
                from: here,
                to: self.site(to),
                holds: is_on(from) && is_on(to),
            }
        } else {
            Bond {
                from: here,
                to: here,
                holds: false,
            }
        }
    }

    // How far a cell is from the border.
    fn ring(self, cell: Cell) -> u32 {
        let right = self.width.saturating_sub(1).saturating_sub(cell.x);
        let below = self.height.saturating_sub(1).saturating_sub(cell.y);
        cell.x.min(right).min(cell.y).min(below)
    }

    // A path that winds inward, one site wide: every second ring, opened below its first corner, where the ring between joins it to the next.
    pub(crate) fn is_on_spiral(self, cell: Cell) -> bool {
        let ring = self.ring(cell);
        let is_opening = ring == cell.x && cell.y.saturating_sub(cell.x) == 1;
        (ring % 2 == 0) != is_opening
    }

    // Every second column, joined only by the last row, so that all teeth meet late.
    pub(crate) fn is_on_comb(self, cell: Cell) -> bool {
        cell.x % 2 == 0 || cell.y == self.height.saturating_sub(1)
    }
}

// The site before.
pub(crate) fn before(site: u32) -> u32 {
    site.saturating_sub(1)
}

// A path through the first, the last, the second, the last but one, and so on.
pub(crate) fn leap(sites: u32, site: u32) -> u32 {
    let last = sites.saturating_sub(1);
    if site < sites / 2 {
        last.saturating_sub(site)
    } else {
        sites.saturating_sub(site).min(last)
    }
}
