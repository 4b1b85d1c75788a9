// What is wrong with a text, or where its lines begin.
ghost use Rattle.std.specs.Prelude.{◌≡◌};
ghost use Rattle.lemmas.specs.Tells.{Tells};
ghost use Rattle.paper.specs.Answer.Frame.{Frame, FrameSizes, GroupSize};
ghost use Rattle.frame_lines.specs.Outcome.{scanned};
ghost use Rattle.frame_lines.specs.Scan.{sizes_in, lattice_of, Headed, Tabled, ScannedAs};

use super::lines::{after, byte_at, line_at, word_at};
use super::{Places, Sizes};
use lemmas::wide;

fn sizes_in(text: &[u8]) -> Sizes
    requires { Frame 0x10 4 text.now }
    ensures { result ≡ sizes_in text.now }
{
    let n = word_at(text, 2);
    let d = byte_at(text, 6);
    let s = byte_at(text, 8);
    Sizes {
        n: wide(n),
        d: usize::from(d),
        s: usize::from(s),
    }
}

fn in_range(z: Sizes) -> bool
    ensures { Tells result (FrameSizes (lattice_of z)) }
{
    (1..=256).contains(&z.n) && (1..=4).contains(&z.d) && (1..=8).contains(&z.s)
}

fn group_size(len: usize) -> bool
    ensures { Tells result (GroupSize len) }
{
    (2..=8).contains(&len)
}

// The group line, the permutations and the text's end.
fn scan_group(
    text: &[u8],
    sizes: Sizes,
    spins: usize,
    fwd: usize,
    group: usize,
) -> Result<Places, u8>
    requires { Tabled text.now sizes spins fwd group }
    ensures { ScannedAs text.now (scanned result) }
{
    let line = line_at(text, group, 0x13).ok_or(11)?;
    let len = line.count;
    if !group_size(len) {
        return Err(1);
    }
    let end = after(text, line.next, 0x14, sizes.n * len).ok_or(11)?;
    if end != text.len() {
        return Err(11);
    }
    Ok(Places {
        sizes,
        len,
        spins,
        fwd,
        group,
        perms: line.next,
    })
}

// The spins and the neighbours.
fn scan_tables(text: &[u8], sizes: Sizes, spins: usize) -> Result<Places, u8>
    requires { Headed text.now sizes spins }
    ensures { ScannedAs text.now (scanned result) }
{
    let fwd = after(text, spins, 0x11, sizes.s * sizes.n).ok_or(11)?;
    let group = after(text, fwd, 0x12, 2 * (sizes.n * sizes.d)).ok_or(11)?;
    scan_group(text, sizes, spins, fwd, group)
}

// Every fault of spelling and size is found here, before anything is written.
pub(crate) fn scan(text: &[u8]) -> Result<Places, u8>
    ensures { ScannedAs text.now (scanned result) }
{
    let spins = after(text, 0, 0x10, 4).ok_or(11)?;
    let sizes = sizes_in(text);
    if !in_range(sizes) {
        return Err(1);
    }
    scan_tables(text, sizes, spins)
}
