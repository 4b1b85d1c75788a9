// The lines of frames: read into numbers, and written from them.
#![tactic(auto)]

mod fill;
mod lines;
mod put;
mod scan;

ghost use Rattle.std.specs.Prelude.{length};
ghost use Rattle.frame_lines.specs.Outcome.{written_of};
ghost use Rattle.frame_lines.specs.Writing.{TwoByte, result_of, WrittenAs, RefusalAs};
ghost use Rattle.frame_lines.specs.Reading.{AnyPanelFits, LinesFit, frames_of, Readout, ReadAs};

use fill::{fill_bytes, fill_spins, fill_words, read_group};
use paper::Group;
use put::{put_spins, put_words};
use scan::scan;

// The sizes that the first line says.
#[derive(Clone, Copy)]
pub struct Sizes {
    pub n: usize,
    pub d: usize,
    pub s: usize,
}

// What a text says beside its tables.
#[derive(Clone, Copy)]
pub struct Shape {
    pub sizes: Sizes,
    pub group: Group,
}

// Where the lines of a text that is spelt well begin.
#[derive(Clone, Copy)]
struct Places {
    sizes: Sizes,
    len: usize,
    spins: usize,
    fwd: usize,
    group: usize,
    perms: usize,
}

// A line: so many bytes are behind its tag, and where the next begins.
#[derive(Clone, Copy)]
struct FrameLine {
    count: usize,
    next: usize,
}

fn read_places(text: &[u8], p: Places, spins: &mut [i8], fwd: &mut [u32], perms: &mut [u8]) -> Shape
    requires { LinesFit text.now p (length spins.old) (length fwd.old) (length perms.old) }
    ensures { Readout
        text.now
        (record { spins = spins.old; fwd = fwd.old; perms = perms.old })
        result.sizes
        result.group
        (record { spins = spins.new; fwd = fwd.new; perms = perms.new }) }
{
    let sizes = p.sizes;
    let len = p.len;
    fill_spins(text, p.spins, sizes.s * sizes.n, spins);
    fill_words(text, p.fwd, sizes.n * sizes.d, fwd);
    fill_bytes(text, p.perms, sizes.n * len, perms);
    let group = read_group(text, p.group, len);
    Shape { sizes, group }
}

// The rules on spelling and sizes are tested first; then the spins, the neighbours and the permutations are written from the front of their buffers.
pub fn read(text: &[u8], spins: &mut [i8], fwd: &mut [u32], perms: &mut [u8]) -> Result<Shape, u8>
    requires { AnyPanelFits (length spins.old) (length fwd.old) (length perms.old) }
    ensures { ReadAs
        text.now
        (record { spins = spins.old; fwd = fwd.old; perms = perms.old })
        (frames_of result)
        (record { spins = spins.new; fwd = fwd.new; perms = perms.new }) }
{
    let places = scan(text)?;
    Ok(read_places(text, places, spins, fwd, perms))
}

// The three lines of an accepted move, and how many bytes they are. Where there is no room for them, nothing is written.
pub fn write(labels: &[u32], counts: &[u32], spins: &[i8], out: &mut [u8]) -> Option<usize>
    requires { TwoByte labels.now counts.now }
    ensures { WrittenAs (result_of labels.now counts.now spins.now) out.old (written_of result) out.new }
{
    // No sum here can wrap, however long the slices are.
    let words = 4 * labels.len() + 4 * counts.len() + 6;
    if out.len() < words {
        return None;
    }
    let left = out.len() - words;
    if left < 3 {
        return None;
    }
    if (left - 3) / 2 < spins.len() {
        return None;
    }
    let second = put_words(0x20, labels, out, 0);
    let third = put_words(0x21, counts, out, second);
    let end = put_spins(0x22, spins, out, third);
    Some(end)
}

// The one line of a refusal, with its number in two decimal digits, and how many bytes it is. Two digits have no room for a number from 100 on: then
// nothing is written.
pub fn write_refusal(r: u8, out: &mut [u8]) -> Option<usize>
    ensures { RefusalAs r out.old (written_of result) out.new }
{
    if 99 < r {
        return None;
    }
    if out.len() < 5 {
        return None;
    }
    out[0] = b'2';
    out[1] = b'f';
    out[2] = b'0' + r / 10;
    out[3] = b'0' + r % 10;
    out[4] = b'\n';
    Some(5)
}
