// The two passes of a fill: one that only draws, to find what is refused, and one that writes.
ghost use Rattle.std.specs.Prelude.{◌≡◌, ◌+◌, [], ◌∷◌, length};
ghost use Rattle.paper.specs.Refusal.Rule.{rule};
ghost use Rattle.paper.specs.Refusal.Verdict.{Verdict};
ghost use Rattle.paper.specs.Refusal.Numbers.{verdict_of};
ghost use Rattle.draws.specs.Draw.{number, Topped};
ghost use Rattle.draws.specs.Rows.{Members, row_by};
ghost use Rattle.draws.specs.Fill.{stop, NumbersGo, go_down, RowsGo, entry_at, Written};
ghost use Rattle.draws.specs.Fill.{word_rules, number_rules, row_length_fits, row_rules};
ghost use Rattle.draws.specs.Answer.{taken, taken_row};
ghost use Rattle.draws.specs.Writing.{DrawnInto, Rowing, RowAt, RowPut};

use super::rows::{members_ok, row_by};
use super::{Drawn, Row, Source, limit_of, number, number_ok};
use paper::Refusal;

// ---- tests

pub fn word_verdict(fits: bool, s: Source) -> Result<(), Refusal>
    ensures { Verdict (word_rules fits s) (verdict_of result) }
{
    if s.is_blank() {
        return Err(Refusal::Draws);
    }
    if !fits {
        return Err(Refusal::Lengths);
    }
    Ok(())
}

fn numbers_go(count: usize, m: u64, top: u64, s: Source) -> Result<(), Refusal>
    requires { Topped m top }
    ensures { Verdict (rule 12 (NumbersGo (number m) count s) ∷ []) (verdict_of result) }
{
    let mut source = s;
    for _ in 0..count {
        let d = number(64, m, top, source)?;
        source = d.source;
    }
    Ok(())
}

pub fn number_verdict(fits: bool, most: u32, m: u32, count: usize, s: Source) -> Result<(), Refusal>
    ensures { Verdict (number_rules fits most m count s) (verdict_of result) }
{
    if s.is_blank() {
        return Err(Refusal::Draws);
    }
    if !number_ok(most, m) {
        return Err(Refusal::Draws);
    }
    if !fits {
        return Err(Refusal::Lengths);
    }
    let n = u64::from(m);
    numbers_go(count, n, limit_of(n), s)
}

fn rows_go(moving: bool, members: usize, count: usize, s: Source) -> Result<(), Refusal>
    requires { Members members }
    ensures { Verdict (rule 12 (RowsGo moving members count s) ∷ []) (verdict_of result) }
{
    let mut source = s;
    for _ in 0..count {
        let r = row_by(moving, members, source)?;
        source = r.source;
    }
    Ok(())
}

fn rows_fit(single: bool, members: usize, len: usize) -> bool
    requires { Members members }
    ensures { result ≡ row_length_fits single members len }
{
    if single {
        return len == members;
    }
    len % members == 0
}

pub fn row_verdict(
    single: bool,
    moving: bool,
    members: usize,
    len: usize,
    s: Source,
) -> Result<(), Refusal>
    ensures { Verdict (row_rules single moving members len s) (verdict_of result) }
{
    if s.is_blank() {
        return Err(Refusal::Draws);
    }
    if !members_ok(members) {
        return Err(Refusal::Draws);
    }
    if !rows_fit(single, members, len) {
        return Err(Refusal::Lengths);
    }
    rows_go(moving, members, len / members, s)
}

// ---- writing

// The second pass draws what the first has drawn: none is refused.
pub fn drawn_number(m: u64, top: u64, s: Source) -> Drawn
    requires { Topped m top }
    ensures { result ≡ taken (number m s) }
{
    number(64, m, top, s).unwrap_or(Drawn {
        value: 0,
        source: s,
    })
}

fn drawn_row(moving: bool, members: usize, s: Source) -> Row
    requires { Members members }
    ensures { result ≡ taken_row (row_by moving members s) }
{
    row_by(moving, members, s).unwrap_or(Row {
        row: [0; 8],
        source: s,
    })
}

// Each place takes what is drawn for it.
pub fn write<T: Copy, F: Fn(Source) -> (T, Source)>(draw: F, s: Source, places: &mut [T]) -> Source
    requires { F.IsAlwaysCallable draw }
    ensures { DrawnInto (F.post draw) s places.old result places.new }
{
    let mut source = s;
    for place in places.iter_mut() {
        let (value, next) = draw(source);
        *place = value;
        source = next;
    }
    source
}

fn put_row(members: usize, at: usize, row: [u8; 8], rows: &mut [u8])
    requires { RowAt members at rows.old }
    ensures { RowPut members at row rows.old rows.new }
{
    rows[at..at + members].copy_from_slice(&row[..members]);
}

pub fn write_rows(moving: bool, members: usize, count: usize, s: Source, rows: &mut [u8]) -> Source
    requires { Rowing members count rows.old }
    ensures { Written
        (entry_at moving members s)
        (stop (go_down moving members) count s)
        rows.old
        result
        rows.new }
{
    let mut source = s;
    for i in 0..count {
        let r = drawn_row(moving, members, source);
        put_row(members, i * members, r.row, rows);
        source = r.source;
    }
    source
}
