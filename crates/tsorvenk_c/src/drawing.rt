// Draws, as C and Rust call them.
ghost use Rattle.draws.specs.Promise.{WordDrawn, CoinDrawn, BelowDrawn, PermutationDrawn, FlipsFilled, BelowFilled, BytesFilled};
ghost use Rattle.draws.specs.Promise.{PermutationsFilled, WolffFilled, GreysFilled, NumbersFilled, WolffNumbersFilled};
ghost use Rattle.tsorvenk.specs.Drawing.{Draws};

// The next word, into a buffer of one. In this file `source` is lent as four words, read and, unless refused, written.
#[unsafe(no_mangle)]
pub extern "C" fn tsorvenk_word(source: &mut [u64], word: &mut [u64]) -> u8
    ensures { Draws WordDrawn source.old word.old result source.new word.new }
{
    tsorvenk::drawing::tsorvenk_word(source, word)
}

// A coin, into a buffer of one.
#[unsafe(no_mangle)]
pub extern "C" fn tsorvenk_coin(source: &mut [u64], coin: &mut [u8]) -> u8
    ensures { Draws CoinDrawn source.old coin.old result source.new coin.new }
{
    tsorvenk::drawing::tsorvenk_coin(source, coin)
}

// A number below m, of 1 to 4,096, into a buffer of one.
#[unsafe(no_mangle)]
pub extern "C" fn tsorvenk_below(m: u32, source: &mut [u64], number: &mut [u32]) -> u8
    ensures { Draws (BelowDrawn m) source.old number.old result source.new number.new }
{
    tsorvenk::drawing::tsorvenk_below(m, source, number)
}

// A permutation of 2 to 8 members, into a buffer of so many.
#[unsafe(no_mangle)]
pub extern "C" fn tsorvenk_permutation(members: usize, source: &mut [u64], row: &mut [u8]) -> u8
    ensures { Draws (PermutationDrawn members) source.old row.old result source.new row.new }
{
    tsorvenk::drawing::tsorvenk_permutation(members, source, row)
}

// Coins.
#[unsafe(no_mangle)]
pub extern "C" fn tsorvenk_fill_flips(source: &mut [u64], flips: &mut [u8]) -> u8
    ensures { Draws FlipsFilled source.old flips.old result source.new flips.new }
{
    tsorvenk::drawing::tsorvenk_fill_flips(source, flips)
}

// Numbers below m, of 1 to 4,096.
#[unsafe(no_mangle)]
pub extern "C" fn tsorvenk_fill_below(m: u32, source: &mut [u64], numbers: &mut [u32]) -> u8
    ensures { Draws (BelowFilled m) source.old numbers.old result source.new numbers.new }
{
    tsorvenk::drawing::tsorvenk_fill_below(m, source, numbers)
}

// Numbers below m, of 1 to 256.
#[unsafe(no_mangle)]
pub extern "C" fn tsorvenk_fill_bytes_below(m: u32, source: &mut [u64], bytes: &mut [u8]) -> u8
    ensures { Draws (BytesFilled m) source.old bytes.old result source.new bytes.new }
{
    tsorvenk::drawing::tsorvenk_fill_bytes_below(m, source, bytes)
}

// Permutations, row after row.
#[unsafe(no_mangle)]
pub extern "C" fn tsorvenk_fill_permutations(
    members: usize,
    source: &mut [u64],
    rows: &mut [u8],
) -> u8
    ensures { Draws (PermutationsFilled members) source.old rows.old result source.new rows.new }
{
    tsorvenk::drawing::tsorvenk_fill_permutations(members, source, rows)
}

// Permutations other than the identity, row after row.
#[unsafe(no_mangle)]
pub extern "C" fn tsorvenk_wolff_permutation(
    members: usize,
    source: &mut [u64],
    rows: &mut [u8],
) -> u8
    ensures { Draws (WolffFilled members) source.old rows.old result source.new rows.new }
{
    tsorvenk::drawing::tsorvenk_wolff_permutation(members, source, rows)
}

// Grey numbers of 1 to 3.
#[unsafe(no_mangle)]
pub extern "C" fn tsorvenk_wolff_grey(source: &mut [u64], greys: &mut [u8]) -> u8
    ensures { Draws GreysFilled source.old greys.old result source.new greys.new }
{
    tsorvenk::drawing::tsorvenk_wolff_grey(source, greys)
}

// Permutations of five as numbers, 0 to 119.
#[unsafe(no_mangle)]
pub extern "C" fn tsorvenk_fill_numbers(source: &mut [u64], perms: &mut [u8]) -> u8
    ensures { Draws NumbersFilled source.old perms.old result source.new perms.new }
{
    tsorvenk::drawing::tsorvenk_fill_numbers(source, perms)
}

// The same without the identity, whose number is 0.
#[unsafe(no_mangle)]
pub extern "C" fn tsorvenk_wolff_numbers(source: &mut [u64], perms: &mut [u8]) -> u8
    ensures { Draws WolffNumbersFilled source.old perms.old result source.new perms.new }
{
    tsorvenk::drawing::tsorvenk_wolff_numbers(source, perms)
}
