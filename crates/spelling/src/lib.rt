// The rows that numbers stand for, written out.
#![tactic(auto)]

ghost use Rattle.std.specs.Prelude.{◌≡◌, length};
ghost use Rattle.spelling.specs.Rows.{spelt, rows_of};
ghost use Rattle.spelling.specs.Spell.{SpellsIn, SpellAsks, AreaAsks, SpeltInto};

// The place k of the row of a number; 5, which is in no row, above 119.
fn spell(table: &[u8; 600], number: u8, k: usize) -> u8
    requires { SpellsIn table.now k }
    ensures { result ≡ spelt number k }
{
    if number < 120 {
        orders::entry_in(table, number, k)
    } else {
        5
    }
}

// Writes the rows one after another.
fn spell_rows(table: &[u8; 600], numbers: &[u8], rows: &mut [u8])
    requires { SpellAsks table.now (length numbers.now) (length rows.old) }
    ensures { rows.new ≡ rows_of numbers.now }
{
    for (i, &number) in numbers.iter().enumerate() {
        for k in 0..5 {
            rows[i * 5 + k] = spell(table, number, k);
        }
    }
}

// Writes the rows at the front of an area and tells their length. Where there is no room for them it tells 1, which is the length of no rows.
pub fn spell_into(numbers: &[u8], area: &mut [u8]) -> usize
    requires { AreaAsks (length area.old) }
    ensures { SpeltInto numbers.now area.old area.new result }
{
    let count = numbers.len();
    if count > area.len() / 5 {
        return 1;
    }
    let len = count * 5;
    let table = orders::table();
    spell_rows(&table, numbers, &mut area[..len]);
    len
}
