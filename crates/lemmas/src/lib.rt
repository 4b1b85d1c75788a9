// What knows nothing of the paper: laws, which are in specs/, read in the order of specs/Lib.antt, and the functions that every crate would have.
#![tactic(auto)]

ghost use Rattle.std.specs.Prelude.{◌≡◌};

pub mod bytes;
pub mod words;

// A word as an index. Of `wide(xs[k])` only the index k is left to prove, and not also that the element fits.
pub fn wide(x: u32) -> usize
    ensures { result ≡ x }
{
    x as usize
}
