// The owner bytes of a panel that two teams share, and what a team's call is taken to name.
ghost use Rattle.std.specs.Prelude.{◌≡◌, ◌≤◌, ◌<◌, length};
ghost use Rattle.lemmas.specs.Tells.{Tells};
ghost use Rattle.paper.specs.Refusal.Rules.{Spins};
ghost use Rattle.paper.specs.Refusal.Verdict.{Verdict};
ghost use Rattle.paper.specs.Answer.Team.{owner_rules, own, Ours, own_count, read, read_group};
ghost use Rattle.paper.specs.Refusal.Numbers.{verdict_of};
ghost use Rattle.systems.specs.Rows.{Rowed};
ghost use Rattle.systems.specs.Owners.{team_of, read_at, read_length, OrderRead};

use lemmas::wide;
use paper::{Group, Refusal};

// The tests before all others: the refusal of the first that fails.
pub fn test_owners(s: usize, team: u8, owners: &[u8]) -> Result<(), Refusal>
    ensures { Verdict (owner_rules (team_of team owners.now) s) (verdict_of result) }
{
    if owners.len() != s {
        return Err(Refusal::Lengths);
    }
    if !(lattice::bytes_at_most(owners, 1) & (team <= 1)) {
        return Err(Refusal::Spins);
    }
    Ok(())
}

pub fn own(team: u8, owners: &[u8], t: usize) -> bool
    ensures { result ≡ own (team_of team owners.now) t }
{
    if t < owners.len() {
        owners[t] == team
    } else {
        2 == team
    }
}

pub fn read(s: usize, team: u8, owners: &[u8], t: usize) -> usize
    ensures { result ≡ read (team_of team owners.now) s t }
{
    if own(team, owners, t) { t } else { s }
}

fn read_at(s: usize, team: u8, owners: &[u8], group: Group, k: usize) -> usize
    requires { k < 8 }
    ensures { result ≡ read_at (team_of team owners.now) s group k }
{
    let systems = group.systems;
    if k < group.len {
        read(s, team, owners, systems[k])
    } else {
        0
    }
}

pub fn read_group(s: usize, team: u8, owners: &[u8], group: Group) -> Group
    ensures { result ≡ read_group (team_of team owners.now) s group }
{
    let systems = [
        read_at(s, team, owners, group, 0),
        read_at(s, team, owners, group, 1),
        read_at(s, team, owners, group, 2),
        read_at(s, team, owners, group, 3),
        read_at(s, team, owners, group, 4),
        read_at(s, team, owners, group, 5),
        read_at(s, team, owners, group, 6),
        read_at(s, team, owners, group, 7),
    ];
    Group {
        len: group.len,
        systems,
    }
}

fn read_word(s: usize, team: u8, owners: &[u8], x: u32) -> u32
    requires { s ≤ 64 }
    ensures { result ≡ read (team_of team owners.now) s x }
{
    if own(team, owners, wide(x)) {
        x
    } else {
        s as u32
    }
}

// How many entries of an order are read. No panel has more than 64 systems: an order of more is refused whatever it names.
fn read_length(s: usize, len: usize) -> usize
    ensures { result ≡ read_length s len }
{
    if (s <= 64) & (len <= 64) { len } else { 0 }
}

// The order as it is read, into a buffer of 64, and how many entries that are.
pub fn read_order(s: usize, team: u8, owners: &[u8], order: &[u32], named: &mut [u32]) -> usize
    requires { length named.old ≡ 64 }
    ensures { OrderRead (team_of team owners.now) s order.now named.old result named.new }
{
    let len = read_length(s, order.len());
    for k in 0..len {
        named[k] = read_word(s, team, owners, order[k]);
    }
    len
}

// How many systems are the team's. A test that steers no jump costs less than one that cannot be foreseen, and the compiler makes vector code of it.
pub fn own_count(team: u8, owners: &[u8]) -> usize
    ensures { result ≡ own_count (team_of team owners.now) (length owners.now) }
{
    let mut count = 0;
    for &owner in owners {
        count += usize::from(owner == team);
    }
    count
}

// Test 3 of all the team's systems.
pub fn own_rows_ok(n: usize, s: usize, team: u8, owners: &[u8], spins: &[i8]) -> bool
    requires { Rowed n s spins.now }
    ensures { Tells result (Spins n (Ours (team_of team owners.now) s) spins.now) }
{
    let mut ok = true;
    for t in 0..s {
        ok = ok & (!own(team, owners, t) | super::row_ok(n, s, spins, t));
    }
    ok
}
