// What the labels, counts and sizes of a table must be, found in another way: each end of a bond takes the smaller mark until no mark changes. The sites
// that keep their own marks are numbered in their order, and the sites of each mark counted.
ghost use Rattle.std.specs.Prelude.{◌≤◌};

use crate::tables::{Bond, Table};
use std::alloc::{AllocError, Global};

#[derive(Debug, PartialEq, Eq, Drop)]
pub(crate) struct Components {
    pub(crate) labels: Vec<u32>,
    // How many of the components that count have each number of sites.
    pub(crate) counts: Vec<u32>,
    // The four largest of them; 0 where there are fewer.
    pub(crate) sizes: [u32; 4],
    pub(crate) found: u32,
}

fn mark_of(marks: &[u32], site: u32) -> u32 {
    marks.get(site as usize).copied().unwrap_or(0)
}

fn set_mark(marks: &mut [u32], site: u32, mark: u32) {
    if let Some(place) = marks.get_mut(site as usize) {
        *place = mark;
    }
}

// Both ends of each bond that holds get the smaller mark. True where that changes one.
fn pass(bonds: &[Bond], marks: &mut [u32]) -> bool {
    let mut changed = false;
    for bond in bonds {
        let from = mark_of(marks, bond.from);
        let to = mark_of(marks, bond.to);
        if bond.holds && from != to {
            set_mark(marks, bond.from, from.min(to));
            set_mark(marks, bond.to, from.min(to));
            changed = true;
        }
    }
    changed
}

// Each site takes its mark's mark, so that a long path settles in a few passes.
fn leap(marks: &mut [u32]) {
    for i in 0..marks.len() {
        marks[i] = mark_of(marks, marks[i]);
    }
}

// The marks once a pass changes nothing: then the ends of every bond have one mark. There are never more passes than sites.
fn settled(alloc: Global, table: &Table) -> Result<Option<Vec<u32>>, AllocError> {
    let mut marks: Vec<u32> = (0..table.sites).collect(alloc)?;
    for _ in 0..=table.sites {
        if !pass(&table.bonds, &mut marks) {
            return Ok(Some(marks));
        }
        leap(&mut marks);
    }
    Ok(None)
}

// Each site that is its own mark has the next number, any other the number of its mark; and how many numbers there are.
fn numbered(alloc: Global, marks: &[u32]) -> Result<(Vec<u32>, u32), AllocError> {
    let mut labels = Vec::new(alloc);
    let mut found = 0u32;
    for (site, &mark) in marks.iter().enumerate() {
        if mark as usize == site {
            labels.push(found)?;
            found = found.saturating_add(1);
        } else {
            labels.push(mark_of(&labels, mark))?;
        }
    }
    Ok((labels, found))
}

// One more of `k`.
fn count(counts: &mut [u32], k: u32) {
    if let Some(count) = counts.get_mut(k as usize) {
        *count = count.saturating_add(1);
    }
}

// The number of sites of each component that counts.
fn counted_sizes(alloc: Global, counted: &[bool], marks: &[u32]) -> Result<Vec<u32>, AllocError> {
    let mut tally = vec![in alloc; 0u32; marks.len()]?;
    for &mark in marks {
        count(&mut tally, mark);
    }
    let mut sizes = Vec::new(alloc);
    for (&size, &counts) in tally.iter().zip(counted) {
        if size != 0 && counts {
            sizes.push(size)?;
        }
    }
    Ok(sizes)
}

// The four largest, the largest first.
fn largest(mut sizes: Vec<u32>) -> [u32; 4] {
    sizes.sort_unstable();
    let mut falling = sizes.iter().rev().copied();
    let mut four = [0; 4];
    for place in four.iter_mut() {
        *place = falling.next().unwrap_or(0);
    }
    four
}

// No answer where the marks do not settle.
pub(crate) fn expected(alloc: Global, table: &Table) -> Result<Option<Components>, AllocError> {
    let Some(marks) = settled(alloc, table)? else {
        return Ok(None);
    };
    let (labels, found) = numbered(alloc, &marks)?;
    let sizes = counted_sizes(alloc, &table.counted, &marks)?;
    let mut counts = vec![in alloc; 0u32; marks.len()]?;
    counts.push(0)?;
    for &size in &sizes {
        count(&mut counts, size);
    }
    Ok(Some(Components {
        labels,
        counts,
        sizes: largest(sizes),
        found,
    }))
}
