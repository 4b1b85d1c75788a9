// One group's rows as a byte for each site: bit k is set where member k is +1.
#![tactic(auto)]

ghost use Rattle.std.specs.Prelude.{◌≡◌, ◌-◌, ◌^◌};
ghost use Rattle.lemmas.specs.Tells.{Tells};
ghost use Rattle.packing.specs.Bytes.{own_group};
ghost use Rattle.packing.specs.Answer.{Members, Sized, Exact, PackAnswers, UnpackAnswers};
ghost use Rattle.paper.specs.Refusal.Numbers.{verdict_of};

use paper::{Group, Refusal};

// The group of the systems 0 to m - 1, whose rows stand in the members' order.
pub fn own_group(m: usize) -> Group
    ensures { result ≡ own_group m }
{
    Group {
        len: m,
        systems: [0, 1, 2, 3, 4, 5, 6, 7],
    }
}

fn sized(n: usize, members: usize) -> bool
    ensures { Tells result (Sized n members) }
{
    (1 <= n) & (n <= 4096) & (2 <= members) & (members <= 8)
}

fn exact(n: usize, members: usize, rows: usize, columns: usize) -> bool
    requires { Sized n members }
    ensures { Tells result (Exact n members rows columns) }
{
    (rows == members * n) & (columns == n)
}

// The largest byte of a group: a bit for each member.
pub fn highest(members: usize) -> u8
    requires { Members members }
    ensures { result ≡ 2 ^ members - 1 }
{
    255u8 >> (8 - members)
}

// Writes a byte for each site from the rows.
pub fn pack(n: usize, members: usize, rows: &[i8], columns: &mut [u8]) -> Result<(), Refusal>
    ensures { PackAnswers n members rows.now columns.old (verdict_of result) columns.new }
{
    if !sized(n, members) {
        return Err(Refusal::Sizes);
    }
    if !exact(n, members, rows.len(), columns.len()) {
        return Err(Refusal::Lengths);
    }
    if !lattice::spins_ok(rows) {
        return Err(Refusal::Spins);
    }
    columns::pack(rows, n, own_group(members), columns);
    Ok(())
}

// Writes the rows that the bytes stand for.
pub fn unpack(n: usize, members: usize, columns: &[u8], rows: &mut [i8]) -> Result<(), Refusal>
    ensures { UnpackAnswers n members columns.now rows.old (verdict_of result) rows.new }
{
    if !sized(n, members) {
        return Err(Refusal::Sizes);
    }
    if !exact(n, members, rows.len(), columns.len()) {
        return Err(Refusal::Lengths);
    }
    if !lattice::bytes_at_most(columns, highest(members)) {
        return Err(Refusal::Spins);
    }
    columns::write_rows(rows, n, own_group(members), columns);
    Ok(())
}
