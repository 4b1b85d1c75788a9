// A site's whole group as one byte, its column.
#![tactic(auto)]

ghost use Rattle.std.specs.Prelude.{◌≡◌, ◌*◌, ◌≤◌, ◌<◌, length, get_or, pos, neg_ℤ};
ghost use Rattle.lemmas.specs.Counts.{bit};
ghost use Rattle.paper.specs.Panel.Input.{spin, pattern_of};
ghost use Rattle.columns.specs.Column.{shown, is_up, column_of, Columns};
ghost use Rattle.lemmas.specs.Stores.{Whole};
ghost use Rattle.columns.specs.Gauge.{gauge_of, Gaugeable};
ghost use Rattle.columns.specs.Rows.{Signable, Places, Packable, Writable, Written, Adds, Fills, added};
ghost use Rattle.columns.specs.Rows.{group_of, SiteIn, SiteOut, SiteWritten, MemberIn, bit_in};

use lemmas::bytes::clear;
use paper::{Group, Mode};

// Replica k gets what replica perm[k] had.
pub fn permute_group_site(column: u8, group: Group, perm: &[u8]) -> u8
    requires { Places group.len perm.now }
    ensures { result ≡ column_of group.len (λ k. shown column (get_or perm.now k 0)) }
{
    let mut out: u8 = 0;
    for k in 0..group.len {
        let p = perm[k];
        out = out + (((column >> p) % 2) << k);
    }
    out
}

fn weigh(spin: i8, weight: u8) -> u8
    ensures { result ≡ bit (is_up spin) * weight }
{
    if spin == 1 { weight } else { 0 }
}

// Adds weight to the column of each site where the row has +1.
fn pack_row(row: &[i8], weight: u8, cols: &mut [u8])
    requires { Adds row.now weight cols.old }
    ensures { Whole 0 (added cols.old row.now weight) cols.old cols.new }
{
    for (i, column) in cols.iter_mut().enumerate() {
        *column += weigh(row[i], weight);
    }
}

// Copies columns, one by one: std's `copy_from_slice` has the archive need memmove from outside.
pub fn copy(cols: &[u8], to: &mut [u8])
    requires { length cols.now ≡ length to.old }
    ensures { to.new ≡ cols.now }
{
    for (i, column) in to.iter_mut().enumerate() {
        *column = cols[i];
    }
}

// Reads the group's rows into columns: bit k is set where member k's spin is +1.
pub fn pack(spins: &[i8], n: usize, group: Group, cols: &mut [u8])
    requires { Packable n group spins.now cols.old }
    ensures { Columns n group.len (pattern_of n group spins.now) cols.new }
{
    clear(cols);
    for k in 0..group.len {
        let s = group.systems[k];
        let a = s * n;
        let e = a + n;
        pack_row(&spins[a..e], 1u8 << k, cols);
    }
}

fn pick(column: u8, k: usize) -> i8
    requires { k < 8 }
    ensures { result ≡ shown column k }
{
    let b = (column >> k) % 2;
    if b == 1 { 1 } else { -1 }
}

// Writes one system's row: +1 where bit k of the site's column is set, and -1 where not.
fn write_row(row: &mut [i8], cols: &[u8], k: usize)
    requires { Fills k row.old cols.now }
    ensures { Whole (pos 0) (λ i. shown (get_or cols.now i 0) k) row.old row.new }
{
    for (i, spin) in row.iter_mut().enumerate() {
        *spin = pick(cols[i], k);
    }
}

// Writes the group's rows from columns.
pub fn write_rows(spins: &mut [i8], n: usize, group: Group, cols: &[u8])
    requires { Writable n group spins.old cols.now }
    ensures { Written n group.len group cols.now spins.old spins.new }
{
    for k in 0..group.len {
        let s = group.systems[k];
        let a = s * n;
        let e = a + n;
        write_row(&mut spins[a..e], cols, k);
    }
}

// The bit of the member k, which is the system s, in the column of a site. Past the group there is none.
fn member_bit(spins: &[i8], n: usize, len: usize, k: usize, s: usize, i: usize) -> u8
    requires { MemberIn n len k s spins.now i }
    ensures { result ≡ bit_in len k (is_up (spin n spins.now s i)) }
{
    if k < len {
        return weigh(spins[s * n + i], 1u8 << k);
    }
    0
}

// One site's column. There is no loop, which would copy the group to memory to find a member in it.
pub fn column_at(spins: &[i8], n: usize, group: Group, i: usize) -> u8
    requires { SiteIn n group spins.now i }
    ensures { result ≡ column_of group.len (pattern_of n group spins.now i) }
{
    let len = group.len;
    let s = group.systems;
    let a = member_bit(spins, n, len, 0, s[0], i) + member_bit(spins, n, len, 1, s[1], i);
    let b = member_bit(spins, n, len, 2, s[2], i) + member_bit(spins, n, len, 3, s[3], i);
    let c = member_bit(spins, n, len, 4, s[4], i) + member_bit(spins, n, len, 5, s[5], i);
    let d = member_bit(spins, n, len, 6, s[6], i) + member_bit(spins, n, len, 7, s[7], i);
    (a + b) + (c + d)
}

// The same, quicker for two members, the most common group: which places it has is not asked. Apart, so that each of the two stays small enough for
// the compiler to make it a part of the code that asks; without the hint it may be called for each member of a grown cluster.
#[inline(always)]
pub fn quick_column_at(spins: &[i8], n: usize, group: Group, i: usize) -> u8
    requires { SiteIn n group spins.now i }
    ensures { result ≡ column_of group.len (pattern_of n group spins.now i) }
{
    if group.len == 2 {
        let s = group.systems;
        return member_bit(spins, n, 2, 0, s[0], i) + member_bit(spins, n, 2, 1, s[1], i);
    }
    column_at(spins, n, group, i)
}

// Writes a group's spins at one site from a column. Its systems are lent: a group handed over would be copied for each site.
pub fn write_site(spins: &mut [i8], n: usize, len: usize, systems: &[usize], i: usize, column: u8)
    requires { SiteOut n (group_of len systems.now) spins.old i }
    ensures { SiteWritten n len (group_of len systems.now) i column spins.old spins.new }
{
    for k in 0..len {
        let s = systems[k];
        spins[s * n + i] = pick(column, k);
    }
}

// A column with each of the group's spins negated.
fn negated(column: u8, group: Group) -> u8
    requires { group.len ≤ 8 }
    ensures { result ≡ column_of group.len (λ k. neg_ℤ (shown column k)) }
{
    let mut out: u8 = 0;
    for k in 0..group.len {
        out = out + ((1 - (column >> k) % 2) << k);
    }
    out
}

// The byte whose exclusive or with a column is the column as the mode sees it: in gperm a bit for each -1 of the reference site, else none.
pub fn gauge(mode: Mode, group: Group, reference: usize, cols: &[u8]) -> u8
    requires { Gaugeable mode group reference cols.now }
    ensures { result ≡ gauge_of mode group.len (get_or cols.now reference 0) }
{
    if mode.is_gperm() {
        negated(cols[reference], group)
    } else {
        0
    }
}

// The same byte from the rows: no other site is read.
pub fn gauge_at(mode: Mode, spins: &[i8], n: usize, group: Group, reference: usize) -> u8
    requires { Signable mode n group spins.now reference }
    ensures { result ≡ gauge_of mode group.len (column_of group.len (pattern_of n group spins.now reference)) }
{
    if mode.is_gperm() {
        negated(column_at(spins, n, group, reference), group)
    } else {
        0
    }
}
