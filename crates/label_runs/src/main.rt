// Runs `components` against a labelling that shares nothing with it, on pseudo-random tables and on the shapes that make a labelling work hardest,
// and writes how many runs agree and how many do not.
#![tactic(auto)]

mod referee;
mod tables;

ghost use Rattle.std.specs.Prelude.{◌<◌, ◌≤◌};

use referee::Components;
use std::alloc::{AllocError, Global};
use std::{fmt, io};
use tables::{Draws, Grid, Share, Table, before, leap};

// What the port finds; no answer where it refuses the table.
fn labelled(alloc: Global, table: &Table) -> Result<Option<Components>, AllocError> {
    let n = table.sites as usize;
    let ends: Vec<u32> = table.bonds.iter().map(|bond| bond.to).collect(alloc)?;
    let holds: Vec<u8> = table
        .bonds
        .iter()
        .map(|bond| u8::from(bond.holds))
        .collect(alloc)?;
    let counted: Vec<u8> = table
        .counted
        .iter()
        .map(|&counts| u8::from(counts))
        .collect(alloc)?;
    let mut labels = vec![in alloc; 0u32; n]?;
    let mut counts = vec![in alloc; 0u32; n + 1]?;
    let mut sizes = [0u32; 4];
    let mut found = [0u32; 1];
    let labelling = label::components(
        n,
        table.directions as usize,
        &ends,
        &holds,
        &counted,
        &mut labels,
        &mut counts,
        &mut sizes,
        &mut found,
    );
    if labelling.is_err() {
        return Ok(None);
    }
    Ok(Some(Components {
        labels,
        counts,
        sizes,
        found: found[0],
    }))
}

fn agrees(alloc: Global, table: &Table) -> Result<bool, AllocError> {
    let port = labelled(alloc, table)?;
    let referee = referee::expected(alloc, table)?;
    Ok(port.is_some() && port == referee)
}

// The draws, and how many runs agreed and how many did not.
#[derive(Debug, Drop)]
struct Runs {
    alloc: Global,
    draws: Draws,
    agree: u32,
    differ: u32,
}

impl fmt::Display for Runs {
    fn fmt<W: fmt::Write>(&self, f: &mut fmt::Formatter<W>) -> fmt::Result {
        write!(f, "{} agree, {} differ", self.agree, self.differ)
    }
}

impl Runs {
    fn new(alloc: Global, seed: u64) -> Runs {
        Runs {
            alloc,
            draws: Draws::new(seed),
            agree: 0,
            differ: 0,
        }
    }

    fn run(&mut self, table: &Table) -> Result<(), AllocError> {
        if agrees(self.alloc, table)? {
            self.agree = self.agree.saturating_add(1);
        } else {
            self.differ = self.differ.saturating_add(1);
        }
        Ok(())
    }

    // The more bonds hold, the fewer components count.
    fn densities(&mut self, sites: u32, directions: u32) -> Result<(), AllocError>
        requires { 0 < sites }
    {
        for holding in 0..=8u32 {
            let share = Share {
                holding,
                counted: 8 - holding,
            };
            let table = Table::drawn(self.alloc, &mut self.draws, sites, directions, share)?;
            self.run(&table)?;
        }
        Ok(())
    }

    fn directions(&mut self, sites: u32) -> Result<(), AllocError>
        requires { 0 < sites }
    {
        for directions in 1..=4 {
            self.densities(sites, directions)?;
        }
        Ok(())
    }

    // The shapes on a grid's sites. All their components count.
    fn shapes(&mut self, grid: Grid) -> Result<(), AllocError> {
        let alloc = self.alloc;
        let n = grid.sites();
        self.run(&Table::on_grid(alloc, grid, |cell| grid.is_on_spiral(cell))?)?;
        self.run(&Table::on_grid(alloc, grid, |cell| grid.is_on_comb(cell))?)?;
        self.run(&Table::path(alloc, n, before)?)?;
        self.run(&Table::path(alloc, n, |site| leap(n, site))?)
    }
}

const SEED: u64 = 88172645463325252;

fn small(alloc: Global) -> Result<Runs, AllocError> {
    let mut runs = Runs::new(alloc, SEED);
    for sites in 1..=64 {
        runs.directions(sites)?;
    }
    Ok(runs)
}

fn large(alloc: Global) -> Result<Runs, AllocError> {
    let mut runs = Runs::new(alloc, SEED);
    runs.directions(4096)?;
    Ok(runs)
}

// Every grid of up to 8 by 8 sites, and one of 64 by 64.
fn grids(alloc: Global) -> Result<Runs, AllocError> {
    let mut runs = Runs::new(alloc, 1);
    for width in 1..=8 {
        for height in 1..=8 {
            runs.shapes(Grid { width, height })?;
        }
    }
    runs.shapes(Grid {
        width: 64,
        height: 64,
    })?;
    Ok(runs)
}

fn main(rt: HostRuntime) -> io::Result<()> {
    let alloc = rt.alloc();
    println!(rt; "random, 1 to 64 sites: {}", small(alloc)?)?;
    println!(rt;
        "spirals, combs and paths, 1 to 64 and 4096 sites: {}",
        grids(alloc)?
    )?;
    println!(rt; "random, 4096 sites: {}", large(alloc)?)
}
