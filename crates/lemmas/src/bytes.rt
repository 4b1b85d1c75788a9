// Lists of bytes.
ghost use Rattle.std.specs.Prelude.{length};
ghost use Rattle.lemmas.specs.Stores.{Cleared};

// Writes 0 everywhere.
pub fn clear(xs: &mut [u8])
    ensures { Cleared (length xs.old) xs.new }
{
    xs.fill(0);
}
