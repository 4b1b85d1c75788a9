// Draws, as C and Rust call them.
ghost use Rattle.std.specs.Prelude.{◌≡◌, length};
ghost use Rattle.draws.specs.Answer.{left_of};
ghost use Rattle.draws.specs.Promise.{WordDrawn, CoinDrawn, BelowDrawn, PermutationDrawn, FlipsFilled, BelowFilled, BytesFilled};
ghost use Rattle.draws.specs.Promise.{PermutationsFilled, WolffFilled, GreysFilled, NumbersFilled, WolffNumbersFilled};
ghost use Rattle.tsorvenk.specs.Drawing.{source_of, Handed, Draws};

use draws::Source;
use paper::Refusal;

fn source_of(words: &[u64]) -> Source
    requires { length words.now ≡ 4 }
    ensures { result ≡ source_of words.now }
{
    Source {
        s0: words[0],
        s1: words[1],
        s2: words[2],
        s3: words[3],
    }
}

// A refusal leaves the source as lent, and so its words.
fn hand_over(left: Result<Source, Refusal>, words: &mut [u64]) -> u8
    requires { length words.old ≡ 4 }
    ensures { Handed (left_of (source_of words.old) left) result words.new }
{
    match left {
        Ok(s) => {
            words.copy_from_slice(&[s.s0, s.s1, s.s2, s.s3]);
            0
        }
        Err(refusal) => refusal.number(),
    }
}

// The next word, into a buffer of one. In this file `source` is lent as four words, read and, unless refused, written.
pub fn tsorvenk_word(source: &mut [u64], word: &mut [u64]) -> u8
    ensures { Draws WordDrawn source.old word.old result source.new word.new }
{
    if source.len() != 4 {
        return 2;
    }
    let left = draws::fills::one_word(source_of(source), word);
    hand_over(left, source)
}

// A coin, into a buffer of one.
pub fn tsorvenk_coin(source: &mut [u64], coin: &mut [u8]) -> u8
    ensures { Draws CoinDrawn source.old coin.old result source.new coin.new }
{
    if source.len() != 4 {
        return 2;
    }
    let left = draws::fills::one_coin(source_of(source), coin);
    hand_over(left, source)
}

// A number below m, of 1 to 4,096, into a buffer of one.
pub fn tsorvenk_below(m: u32, source: &mut [u64], number: &mut [u32]) -> u8
    ensures { Draws (BelowDrawn m) source.old number.old result source.new number.new }
{
    if source.len() != 4 {
        return 2;
    }
    let left = draws::fills::one_below(source_of(source), m, number);
    hand_over(left, source)
}

// A permutation of 2 to 8 members, into a buffer of so many.
pub fn tsorvenk_permutation(members: usize, source: &mut [u64], row: &mut [u8]) -> u8
    ensures { Draws (PermutationDrawn members) source.old row.old result source.new row.new }
{
    if source.len() != 4 {
        return 2;
    }
    let left = draws::fills::one_permutation(source_of(source), members, row);
    hand_over(left, source)
}

// Coins.
pub fn tsorvenk_fill_flips(source: &mut [u64], flips: &mut [u8]) -> u8
    ensures { Draws FlipsFilled source.old flips.old result source.new flips.new }
{
    if source.len() != 4 {
        return 2;
    }
    let left = draws::fills::fill_flips(source_of(source), flips);
    hand_over(left, source)
}

// Numbers below m, of 1 to 4,096.
pub fn tsorvenk_fill_below(m: u32, source: &mut [u64], numbers: &mut [u32]) -> u8
    ensures { Draws (BelowFilled m) source.old numbers.old result source.new numbers.new }
{
    if source.len() != 4 {
        return 2;
    }
    let left = draws::fills::fill_below(source_of(source), m, numbers);
    hand_over(left, source)
}

// Numbers below m, of 1 to 256.
pub fn tsorvenk_fill_bytes_below(m: u32, source: &mut [u64], bytes: &mut [u8]) -> u8
    ensures { Draws (BytesFilled m) source.old bytes.old result source.new bytes.new }
{
    if source.len() != 4 {
        return 2;
    }
    let left = draws::fills::fill_bytes_below(source_of(source), m, bytes);
    hand_over(left, source)
}

// Permutations, row after row.
pub fn tsorvenk_fill_permutations(members: usize, source: &mut [u64], rows: &mut [u8]) -> u8
    ensures { Draws (PermutationsFilled members) source.old rows.old result source.new rows.new }
{
    if source.len() != 4 {
        return 2;
    }
    let left = draws::fills::fill_permutations(source_of(source), members, rows);
    hand_over(left, source)
}

// Permutations other than the identity, row after row.
pub fn tsorvenk_wolff_permutation(members: usize, source: &mut [u64], rows: &mut [u8]) -> u8
    ensures { Draws (WolffFilled members) source.old rows.old result source.new rows.new }
{
    if source.len() != 4 {
        return 2;
    }
    let left = draws::fills::wolff_permutations(source_of(source), members, rows);
    hand_over(left, source)
}

// Grey numbers of 1 to 3.
pub fn tsorvenk_wolff_grey(source: &mut [u64], greys: &mut [u8]) -> u8
    ensures { Draws GreysFilled source.old greys.old result source.new greys.new }
{
    if source.len() != 4 {
        return 2;
    }
    let left = draws::fills::wolff_greys(source_of(source), greys);
    hand_over(left, source)
}

// Permutations of five as numbers, 0 to 119.
pub fn tsorvenk_fill_numbers(source: &mut [u64], perms: &mut [u8]) -> u8
    ensures { Draws NumbersFilled source.old perms.old result source.new perms.new }
{
    if source.len() != 4 {
        return 2;
    }
    let left = draws::fills::fill_numbers(source_of(source), perms);
    hand_over(left, source)
}

// The same without the identity, whose number is 0.
pub fn tsorvenk_wolff_numbers(source: &mut [u64], perms: &mut [u8]) -> u8
    ensures { Draws WolffNumbersFilled source.old perms.old result source.new perms.new }
{
    if source.len() != 4 {
        return 2;
    }
    let left = draws::fills::wolff_numbers(source_of(source), perms);
    hand_over(left, source)
}
