// The smallest permutation that turns the bytes before into those after, for each component of a panel.
#![tactic(auto)]

ghost use Rattle.std.specs.Prelude.{◌≡◌, ◌%◌, ◌≤◌, ◌<◌, length};
ghost use Rattle.lemmas.specs.Stores.{Whole};
ghost use Rattle.packing.specs.Answer.{Members};
ghost use Rattle.matching.specs.Bits.{byte_of, repeated, spread_of, Lowest};
ghost use Rattle.matching.specs.Sources.{MayCome, Sites, Panel, NarrowedAll};
ghost use Rattle.matching.specs.Least.{Follows, Own, Row, LeastRow, Word, LeastWord, Words, Settled};
ghost use Rattle.matching.specs.Explain.{Settles, Explains};

use lemmas::wide;

// Byte k of a set of places, bit j of it: the place k after may have come from the place j before.

// Every byte of a set is x.
fn repeat(x: u8) -> u64
    ensures { result ≡ repeated x }
{
    u64::from(x) * 0x0101010101010101
}

// Byte k is 255 where x has bit k, and else 0.
fn spread(x: u8) -> u64
    ensures { result ≡ spread_of x }
{
    let picked = repeat(x) & 0x8040201008040201;
    (((picked + 0x7f7f7f7f7f7f7f7f) >> 7) & 0x0101010101010101) * 255
}

// The set of one site: places that show the same, and where the site is pinned each place only itself.
fn sources(old: u8, new: u8, pin: u8) -> u64
    ensures { MayCome old new pin result }
{
    let same = repeat(old) ^ spread(new) ^ 0xffffffffffffffff;
    if pin == 1 {
        same & 0x8040201008040201
    } else {
        same
    }
}

// Of each component's set keeps what the sets of all its sites have.
fn narrow_all(gauge: u8, olds: &[u8], news: &[u8], labels: &[u32], pins: &[u8], sets: &mut [u64])
    requires { Sites olds.now news.now labels.now pins.now sets.old }
    ensures { NarrowedAll gauge olds.now news.now labels.now pins.now
        sets.old sets.new }
{
    for i in 0..olds.len() {
        let set = sources(olds[i] ^ gauge, news[i] ^ gauge, pins[i]);
        let label = wide(labels[i]);
        sets[label] &= set;
    }
}

// The place behind k, and 0 behind the last.
fn following(size: usize, k: usize) -> usize
    requires { k < size }
    ensures { Follows size k result }
{
    if k + 1 == size { 0 } else { k + 1 }
}

// Writes 0 to size - 1 again and again.
fn count_up(size: usize, rows: &mut [u8])
    requires { Members size }
    ensures { Whole 0 (λ a. a % size) rows.old rows.new }
{
    let mut k: usize = 0;
    for place in rows.iter_mut() {
        *place = k as u8;
        k = following(size, k);
    }
}

// The lowest bit of a byte that has one.
fn lowest(x: u8) -> u8
    requires { 0 < x }
    ensures { Lowest 8 x result }
{
    x.trailing_zeros() as u8
}

// From the places that each place may have come from, for each place in turn the smallest that is left. Where none is left no permutation fits.
fn least_row(row: &mut [u8]) -> bool
    requires { Row row.old }
    ensures { LeastRow row.old result row.new }
{
    let mut free: u8 = 255;
    for place in row.iter_mut() {
        let left = *place & free;
        if left == 0 {
            return false;
        }
        let j = lowest(left);
        free ^= 1u8 << j;
        *place = j;
    }
    true
}

// The bytes of a set.
fn unpack(set: u64, row: &mut [u8])
    requires { length row.old ≤ 8 }
    ensures { Whole 0 (byte_of set) row.old row.new }
{
    for (k, place) in row.iter_mut().enumerate() {
        *place = ((set >> (8 * k)) % 256) as u8;
    }
}

// The set in which each place may have come from itself alone.
fn own_places(size: usize) -> u64
    requires { Members size }
    ensures { Own size result }
{
    0x8040201008040201 & (0xffffffffffffffff >> (64 - 8 * size))
}

// The least permutation of one set. Where each place may have come from itself it is the identity, which the row has.
fn settle_row(own: u64, set: u64, row: &mut [u8]) -> bool
    requires { Word own set row.old }
    ensures { LeastWord set row.old result row.new }
{
    if set & own == own {
        return true;
    }
    unpack(set, row);
    least_row(row)
}

// The number of the first set for which there is no permutation, or of sets.
fn first_fault(size: usize, sets: &[u64], rows: &mut [u8]) -> usize
    requires { Words size sets.now rows.old }
    ensures { Settled size sets.now rows.old result rows.new }
{
    let own = own_places(size);
    for (r, &set) in sets.iter().enumerate() {
        let start = r * size;
        if !settle_row(own, set, &mut rows[start..start + size]) {
            return r;
        }
    }
    sets.len()
}

// The least permutation of each component, up to the first that has none: its number, or that of sites. A label that no site has gets the identity.
fn settle(
    size: usize,
    gauge: u8,
    olds: &[u8],
    news: &[u8],
    labels: &[u32],
    pins: &[u8],
    rows: &mut [u8],
) -> usize
    requires { Panel size olds.now news.now labels.now pins.now rows.old }
    ensures { Settles size gauge olds.now news.now labels.now pins.now
        rows.old result rows.new }
{
    let n = olds.len();
    let mut area = [0u64; 4096];
    let sets = &mut area[..n];
    sets.fill(repeat(packing::highest(size)));
    narrow_all(gauge, olds, news, labels, pins, sets);
    count_up(size, rows);
    first_fault(size, sets, rows)
}

// Writes the permutation of each component, and tells the number of sites; or tells the first component that has none, and writes nothing.
// A component with a pinned site has the identity alone.
pub fn explain(
    size: usize,
    gauge: u8,
    olds: &[u8],
    news: &[u8],
    labels: &[u32],
    pins: &[u8],
    rows: &mut [u8],
) -> usize
    requires { Panel size olds.now news.now labels.now pins.now rows.old }
    ensures { Explains size gauge olds.now news.now labels.now pins.now
        rows.old result rows.new }
{
    let n = olds.len();
    let long = rows.len();
    let mut area = [0u8; 32768];
    let found = &mut area[..long];
    let r = settle(size, gauge, olds, news, labels, pins, found);
    if r == n {
        columns::copy(found, rows);
    }
    r
}
