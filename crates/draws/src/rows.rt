// Permutations of 2 to 8 members, in rows of eight.
ghost use Rattle.std.specs.Prelude.{◌≡◌};
ghost use Rattle.draws.specs.Draw.{within, limit};
ghost use Rattle.draws.specs.Rows.{placed, first_row, permuted, is_identity, retried, row_by, Members};
ghost use Rattle.draws.specs.Answer.{row_of};

use super::{Row, Source, number};
use paper::Refusal;

pub fn members_ok(members: usize) -> bool
    ensures { result ≡ within 2 8 members }
{
    (2..=8).contains(&members)
}

fn place(members: usize, k: u8) -> u8
    ensures { result ≡ placed members k }
{
    if (k as usize) < members { k } else { 0 }
}

fn first_row(members: usize) -> [u8; 8]
    ensures { result ≡ first_row members }
{
    [
        place(members, 0),
        place(members, 1),
        place(members, 2),
        place(members, 3),
        place(members, 4),
        place(members, 5),
        place(members, 6),
        place(members, 7),
    ]
}

// The limits of the numbers that a row takes, so that no place costs a division.
fn small_limit(m: u64) -> u64
    requires { Members m }
    ensures { result ≡ limit m }
{
    match m {
        3 | 5 => 4294967295,
        6 | 7 => 4294967292,
        _ => 4294967296,
    }
}

// From the last place down to place 1, each is exchanged with one drawn from 0 up to it.
pub fn shuffle(members: usize, s: Source) -> Result<Row, Refusal>
    requires { Members members }
    ensures { row_of s result ≡ permuted members s }
{
    let mut row = first_row(members);
    let mut source = s;
    for i in (1..members).rev() {
        let m = (i + 1) as u64;
        let d = number(64, m, small_limit(m), source)?;
        let j = d.value as usize;
        // `swap` asks first whether the places differ, a jump that cannot be foreseen.
        let x = row[i];
        row[i] = row[j];
        row[j] = x;
        source = d.source;
    }
    Ok(Row { row, source })
}

fn identity(members: usize, row: [u8; 8]) -> bool
    requires { Members members }
    ensures { result ≡ is_identity members row }
{
    let mut same = true;
    for k in 0..members {
        same &= row[k] == k as u8;
    }
    same
}

// The budget is how many permutations in a row may be the identity.
fn moving_row(budget: usize, members: usize, s: Source) -> Result<Row, Refusal>
    requires { Members members }
    ensures { row_of s result ≡ retried s budget members s }
{
    let mut source = s;
    for _ in 0..budget {
        let r = shuffle(members, source)?;
        if !identity(members, r.row) {
            return Ok(r);
        }
        source = r.source;
    }
    Err(Refusal::Draws)
}

// Any permutation, or one other than the identity.
pub fn row_by(moving: bool, members: usize, s: Source) -> Result<Row, Refusal>
    requires { Members members }
    ensures { row_of s result ≡ row_by moving members s }
{
    if moving {
        return moving_row(64, members, s);
    }
    shuffle(members, s)
}
