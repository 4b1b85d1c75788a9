// Fills of lent buffers, for any caller. All draws are tried before any is written, so that a refusal writes nothing.
ghost use Rattle.std.specs.Prelude.{◌≤◌, true, length};
ghost use Rattle.draws.specs.Draw.{number, flipped};
ghost use Rattle.draws.specs.Fill.{FillsBy, FillsRows, number_from_one, word_rules, number_rules, row_rules};
ghost use Rattle.draws.specs.Answer.{left_of};
ghost use Rattle.draws.specs.Promise.{WordDrawn, CoinDrawn, BelowDrawn, PermutationDrawn, FlipsFilled, BelowFilled, BytesFilled};
ghost use Rattle.draws.specs.Promise.{PermutationsFilled, WolffFilled, GreysFilled, NumbersFilled, WolffNumbersFilled};

use super::passes::{drawn_number, number_verdict, row_verdict, word_verdict, write, write_rows};
use super::{Drawn, Source, coin_step, limit_of, step};
use paper::Refusal;

// A word, into a buffer of one.
pub fn one_word(source: Source, word: &mut [u64]) -> Result<Source, Refusal>
    ensures { WordDrawn source word.old (left_of source result) word.new }
{
    word_verdict(word.len() == 1, source)?;
    let d = step(source);
    word[0] = d.value;
    Ok(d.source)
}

// `fits` says whether the buffer's length will do.
fn flips_if(fits: bool, source: Source, flips: &mut [u8]) -> Result<Source, Refusal>
    ensures { FillsBy flipped (word_rules fits source) source flips.old (left_of source result) flips.new }
{
    word_verdict(fits, source)?;
    let coin = |t| {
        let d = coin_step(t);
        (d.value as u8, d.source)
    };
    Ok(write(coin, source, flips))
}

// Coins.
pub fn fill_flips(source: Source, flips: &mut [u8]) -> Result<Source, Refusal>
    ensures { FlipsFilled source flips.old (left_of source result) flips.new }
{
    flips_if(true, source, flips)
}

// A coin, into a buffer of one.
pub fn one_coin(source: Source, coin: &mut [u8]) -> Result<Source, Refusal>
    ensures { CoinDrawn source coin.old (left_of source result) coin.new }
{
    flips_if(coin.len() == 1, source, coin)
}

// A call of its own would cost a single draw half of its instructions again.
#[inline(always)]
fn below_if(fits: bool, source: Source, m: u32, numbers: &mut [u32]) -> Result<Source, Refusal>
    ensures { FillsBy (number m)
        (number_rules fits 4096 m (length numbers.old) source)
        source
        numbers.old
        (left_of source result)
        numbers.new }
{
    number_verdict(fits, 4096, m, numbers.len(), source)?;
    let n = u64::from(m);
    let top = limit_of(n);
    let below = |t| {
        let d = drawn_number(n, top, t);
        (d.value as u32, d.source)
    };
    Ok(write(below, source, numbers))
}

// Numbers below m, of 1 to 4,096.
pub fn fill_below(source: Source, m: u32, numbers: &mut [u32]) -> Result<Source, Refusal>
    ensures { BelowFilled m source numbers.old (left_of source result) numbers.new }
{
    below_if(true, source, m, numbers)
}

// A number below m, into a buffer of one.
pub fn one_below(source: Source, m: u32, one: &mut [u32]) -> Result<Source, Refusal>
    ensures { BelowDrawn m source one.old (left_of source result) one.new }
{
    below_if(one.len() == 1, source, m, one)
}

// Numbers below m, of 1 to 256, so that each is a byte.
pub fn fill_bytes_below(source: Source, m: u32, bytes: &mut [u8]) -> Result<Source, Refusal>
    ensures { BytesFilled m source bytes.old (left_of source result) bytes.new }
{
    number_verdict(true, 256, m, bytes.len(), source)?;
    let n = u64::from(m);
    let top = limit_of(n);
    let below = |t| {
        let d = drawn_number(n, top, t);
        (d.value as u8, d.source)
    };
    Ok(write(below, source, bytes))
}

// Numbers from 1 to m: each is 1 plus a number below m.
fn from_one(source: Source, m: u32, bytes: &mut [u8]) -> Result<Source, Refusal>
    requires { m ≤ 255 }
    ensures { FillsBy (number_from_one m)
        (number_rules true m m (length bytes.old) source)
        source
        bytes.old
        (left_of source result)
        bytes.new }
{
    number_verdict(true, m, m, bytes.len(), source)?;
    let n = u64::from(m);
    let top = limit_of(n);
    let above = |t| {
        let d = drawn_number(n, top, t);
        (d.value as u8 + 1, d.source)
    };
    Ok(write(above, source, bytes))
}

// Wolff's grey numbers, 1 to 3.
pub fn wolff_greys(source: Source, greys: &mut [u8]) -> Result<Source, Refusal>
    ensures { GreysFilled source greys.old (left_of source result) greys.new }
{
    from_one(source, 3, greys)
}

// Permutations of five as numbers, 0 to 119.
pub fn fill_numbers(source: Source, numbers: &mut [u8]) -> Result<Source, Refusal>
    ensures { NumbersFilled source numbers.old (left_of source result) numbers.new }
{
    fill_bytes_below(source, 120, numbers)
}

// The same without the identity, whose number is 0.
pub fn wolff_numbers(source: Source, numbers: &mut [u8]) -> Result<Source, Refusal>
    ensures { WolffNumbersFilled source numbers.old (left_of source result) numbers.new }
{
    from_one(source, 119, numbers)
}

fn fill_rows(
    single: bool,
    moving: bool,
    source: Source,
    members: usize,
    rows: &mut [u8],
) -> Result<Source, Refusal>
    ensures { FillsRows moving members
        (row_rules single moving members (length rows.old) source)
        source
        rows.old
        (left_of source result)
        rows.new }
{
    row_verdict(single, moving, members, rows.len(), source)?;
    let count = rows.len() / members;
    Ok(write_rows(moving, members, count, source, rows))
}

// Permutations, row after row.
pub fn fill_permutations(source: Source, members: usize, rows: &mut [u8]) -> Result<Source, Refusal>
    ensures { PermutationsFilled members source rows.old (left_of source result) rows.new }
{
    fill_rows(false, false, source, members, rows)
}

// Permutations other than the identity, row after row.
pub fn wolff_permutations(
    source: Source,
    members: usize,
    rows: &mut [u8],
) -> Result<Source, Refusal>
    ensures { WolffFilled members source rows.old (left_of source result) rows.new }
{
    fill_rows(false, true, source, members, rows)
}

// A permutation, into a buffer of its length.
pub fn one_permutation(source: Source, members: usize, row: &mut [u8]) -> Result<Source, Refusal>
    ensures { PermutationDrawn members source row.old (left_of source result) row.new }
{
    fill_rows(true, false, source, members, row)
}
