// What the lines say, as numbers in the lent buffers.
ghost use Rattle.std.specs.Prelude.{◌≡◌, ◌*◌, length, drop, ◌++◌, map};
ghost use Rattle.paper.specs.Answer.Frame.{bytes, words, signed};
ghost use Rattle.frame_lines.specs.Scan.{Lent, group_in};

use super::lines::{byte_at, word_at};
use paper::Group;

fn spin_of(b: u8) -> i8
    ensures { result ≡ signed b }
{
    b.cast_signed()
}

pub(crate) fn fill_spins(text: &[u8], at: usize, count: usize, spins: &mut [i8])
    requires { Lent 0x11 count (drop at text.now) count (length spins.old) }
    ensures { spins.new ≡ map signed (bytes (drop at text.now)) ++ drop count spins.old }
{
    for k in 0..count {
        spins[k] = spin_of(byte_at(text, at + 2 * k + 2));
    }
}

pub(crate) fn fill_words(text: &[u8], at: usize, count: usize, fwd: &mut [u32])
    requires { Lent 0x12 (2 * count) (drop at text.now) count (length fwd.old) }
    ensures { fwd.new ≡ words (bytes (drop at text.now)) ++ drop count fwd.old }
{
    for k in 0..count {
        fwd[k] = word_at(text, at + 4 * k + 2);
    }
}

pub(crate) fn fill_bytes(text: &[u8], at: usize, count: usize, perms: &mut [u8])
    requires { Lent 0x14 count (drop at text.now) count (length perms.old) }
    ensures { perms.new ≡ bytes (drop at text.now) ++ drop count perms.old }
{
    for k in 0..count {
        perms[k] = byte_at(text, at + 2 * k + 2);
    }
}

pub(crate) fn read_group(text: &[u8], at: usize, len: usize) -> Group
    requires { Lent 0x13 len (drop at text.now) len 8 }
    ensures { result ≡ group_in (bytes (drop at text.now)) }
{
    let mut systems = [0usize; 8];
    for k in 0..len {
        systems[k] = usize::from(byte_at(text, at + 2 * k + 2));
    }
    Group { len, systems }
}
