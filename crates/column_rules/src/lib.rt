// Which columns act, and what a flip makes of one: worked out on the bits, and in tables for every column.
#![tactic(auto)]

ghost use Rattle.std.specs.Prelude.{◌≡◌, cond, ◌/◌, ◌%◌, ◌^◌, ◌≤◌, ltb, pos, length};
ghost use Rattle.lemmas.specs.Ints.{eq_z};
ghost use Rattle.lemmas.specs.Sums.{sum};
ghost use Rattle.paper.specs.Site.Acting.{differs, pair_differs, test_by};
ghost use Rattle.paper.specs.Move.Moving.{other};
ghost use Rattle.lemmas.specs.Tells.{Tells};
ghost use Rattle.columns.specs.Column.{shown, column_of};
ghost use Rattle.column_rules.specs.Tables.{Sized, Table, TableBy, acts_entry, flip_entry, Looked};
ghost use Rattle.column_rules.specs.Laws.{SomeSite};
ghost use Rattle.column_rules.specs.Sight.{acts_at, Lookable, Looks, Sighted, SightedAt, Seeable, Sights};

use paper::{Group, Mode};

// The first len bits of a column.
fn low(column: u8, len: usize) -> u8
    requires { len ≤ 8 }
    ensures { result ≡ column % 2 ^ len }
{
    (usize::from(column) % (1usize << len)) as u8
}

// The bits of each pair (0 1), (2 3), .. change places. 85 has every second bit.
fn exchanged(column: u8) -> u8
    ensures { result ≡ column_of 8 (λ k. shown column (other k)) }
{
    2 * (column & 85) + ((column >> 1) & 85)
}

// pair and Jörg: some pair (0 1), (2 3), .. disagrees, so that its exchange shows; an odd last system is not read.
pub fn any_pair_differs(column: u8, group: Group) -> bool
    requires { group.len ≤ 8 }
    ensures { result ≡ pair_differs (group.len / 2) (shown column) }
{
    let len = group.len;
    let paired = 2 * (len / 2);
    low(exchanged(column), paired) != low(column, paired)
}

// perm: the spins are not all equal: the bits are neither none nor all.
fn any_differs(column: u8, len: usize) -> bool
    requires { len ≤ 8 }
    ensures { result ≡ differs len (shown column) }
{
    let x = low(column, len);
    (x != 0) & (x != low(255, len))
}

// houd: the spins sum to 0: half of the bits are set.
fn balanced(column: u8, len: usize) -> bool
    requires { len ≤ 8 }
    ensures { result ≡ eq_z (sum len (shown column)) (pos 0) }
{
    let ones = u8::count_ones(low(column, len)) as usize;
    2 * ones == len
}

// Whether a site acts whose group has this column, as the mode sees it. In CMR every site does.
pub fn acts_column(mode: Mode, group: Group, column: u8) -> bool
    requires { group.len ≤ 8 }
    ensures { result ≡ test_by mode group.len (shown column) }
{
    let len = group.len;
    match mode {
        Mode::Houd => balanced(column, len),
        Mode::Pair | Mode::Jorg => any_pair_differs(column, group),
        Mode::Perm | Mode::Gperm => any_differs(column, len),
        Mode::Cmr => true,
    }
}

// The entry of the table of acting columns: 1 where the column acts.
fn acts_entry(mode: Mode, group: Group, column: u8) -> u8
    requires { Sized group }
    ensures { result ≡ acts_entry mode group.len column }
{
    u8::from(acts_column(mode, group, column))
}

// What `entry` makes of each column of `len` systems. No other has an entry but 0.
fn table_of<F: Fn(u8) -> u8>(len: usize, entry: F) -> [u8; 256]
    requires len_bound { len ≤ 8 }
    requires callable { F.IsAlwaysCallable entry }
    ensures { TableBy len (F.post entry) result }
{
    let mut table = [0u8; 256];
    let end = 1usize << len;
    for x in 0..end {
        table[x] = entry(x as u8);
    }
    table
}

// Which columns act.
pub fn acts_table(mode: Mode, group: Group) -> [u8; 256]
    requires { Sized group }
    ensures { Table group.len (acts_entry mode group.len) result }
{
    table_of(group.len, |column| acts_entry(mode, group, column))
}

// The first count bits of one column, and behind them those of another, up to len.
fn joined(first: u8, column: u8, count: usize, len: usize) -> u8
    requires count_le_len { count ≤ len }
    requires len_bound { len ≤ 8 }
    ensures { result ≡ column_of len (λ k. cond (ltb k count) (shown first k) (shown column k)) }
{
    low(first, count) + (low(column, len) - low(column, count))
}

// What a flip makes of a column. houd and CMR negate, pair and Jörg exchange; the perm modes take no flip.
pub fn flip_group_site(column: u8, group: Group, mode: Mode) -> u8
    requires { group.len ≤ 8 }
    ensures { result ≡ flip_entry mode group.len column }
{
    let len = group.len;
    match mode {
        Mode::Houd => joined(255 - column, column, 2 * (len / 2), len),
        Mode::Pair => joined(exchanged(column), column, 2 * (len / 2), len),
        Mode::Perm | Mode::Gperm => low(column, len),
        Mode::Jorg => joined(exchanged(column), column, 2 * (len / 2), len),
        Mode::Cmr => low(255 - column, len),
    }
}

// What a flip makes of each column.
pub fn flip_table(mode: Mode, group: Group) -> [u8; 256]
    requires { Sized group }
    ensures { Table group.len (flip_entry mode group.len) result }
{
    table_of(group.len, |column| flip_group_site(column, group, mode))
}

// Looks each site's column up, and tells whether some site's byte is 1.
pub fn mark_active(table: [u8; 256], gauge: u8, cols: &[u8], acts: &mut [u8]) -> bool
    requires { length cols.now ≡ length acts.old }
    ensures { Looked table gauge cols.now acts.new result }
{
    let mut found = false;
    for (i, act) in acts.iter_mut().enumerate() {
        *act = table[usize::from(cols[i] ^ gauge)];
        if *act == 1 {
            found = true;
        }
    }
    found
}

// Which sites act, on the group's columns. True where some site does.
pub fn look_columns(
    mode: Mode,
    group: Group,
    reference: usize,
    cols: &[u8],
    acts: &mut [u8],
) -> bool
    requires { Lookable mode group reference cols.now acts.old }
    ensures { Looks mode group.len reference cols.now acts.new result }
{
    let gauge = columns::gauge(mode, group, reference, cols);
    mark_active(acts_table(mode, group), gauge, cols, acts)
}

// The columns of the group's rows, and which sites act. True where some site does.
pub fn look(
    mode: Mode,
    n: usize,
    spins: &[i8],
    group: Group,
    reference: usize,
    cols: &mut [u8],
    acts: &mut [u8],
) -> bool
    requires { Seeable mode n group reference spins.now cols.old acts.old }
    ensures { Sights mode n group reference spins.now cols.new acts.new result }
{
    columns::pack(spins, n, group, cols);
    look_columns(mode, group, reference, cols, acts)
}

// Whether some site acts.
pub fn any_acts(mode: Mode, n: usize, spins: &[i8], group: Group, reference: usize) -> bool
    requires { Sighted mode n group reference spins.now }
    ensures { Tells result (SomeSite n (acts_at mode n group reference spins.now)) }
{
    let mut cols = [0u8; 4096];
    let mut acts = [0u8; 4096];
    look(
        mode,
        n,
        spins,
        group,
        reference,
        &mut cols[..n],
        &mut acts[..n],
    )
}

// Whether one site acts. No other is read but, in gperm, the reference.
pub fn acts_at(mode: Mode, n: usize, spins: &[i8], group: Group, reference: usize, i: usize) -> bool
    requires { SightedAt mode n group reference spins.now i }
    ensures { result ≡ acts_at mode n group reference spins.now i }
{
    let gauge = columns::gauge_at(mode, spins, n, group, reference);
    let column = columns::column_at(spins, n, group, i);
    acts_column(mode, group, column ^ gauge)
}
