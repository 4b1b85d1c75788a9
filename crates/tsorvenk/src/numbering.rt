// Permutations of five and their numbers, as C and Rust call them.
ghost use Rattle.orders.specs.Answers.{RowAnswers};
ghost use Rattle.tsorvenk.specs.Numbering.{RowNumbers};

use orders::Numbered;

// The row of a number, into a buffer of five.
pub fn tsorvenk_row_of(number: u8, row: &mut [u8]) -> u8
    ensures { RowAnswers number row.old result row.new }
{
    orders::row_of(number, row)
}

// The number of a row, into a buffer of one.
pub fn tsorvenk_number_of(row: &[u8], number: &mut [u8]) -> u8
    ensures { RowNumbers row.now number.old result number.new }
{
    if number.len() != 1 {
        return 2;
    }
    match orders::number_of(row) {
        Numbered::Refused(r) => r,
        Numbered::Number(v) => {
            number[0] = v;
            0
        }
    }
}
