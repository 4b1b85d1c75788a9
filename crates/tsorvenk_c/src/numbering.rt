// Permutations of five and their numbers, as C and Rust call them.
ghost use Rattle.orders.specs.Answers.{RowAnswers};
ghost use Rattle.tsorvenk.specs.Numbering.{RowNumbers};

// The row of a number, into a buffer of five.
#[unsafe(no_mangle)]
pub extern "C" fn tsorvenk_row_of(number: u8, row: &mut [u8]) -> u8
    ensures { RowAnswers number row.old result row.new }
{
    tsorvenk::numbering::tsorvenk_row_of(number, row)
}

// The number of a row, into a buffer of one.
#[unsafe(no_mangle)]
pub extern "C" fn tsorvenk_number_of(row: &[u8], number: &mut [u8]) -> u8
    ensures { RowNumbers row.now number.old result number.new }
{
    tsorvenk::numbering::tsorvenk_number_of(row, number)
}
