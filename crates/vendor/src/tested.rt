// Tests 1, 2 and 3 of a pair that is checked.
ghost use Rattle.lemmas.specs.Tells.{Tells};
ghost use Rattle.paper.specs.Refusal.Rules.{Sizes};
ghost use Rattle.paper.specs.Refusal.Verdict.{Verdict};
ghost use Rattle.paper.specs.Refusal.Numbers.{verdict_of};
ghost use Rattle.vendor.specs.Offered.{Handed, Fitting, offer_rules};

use paper::{Refusal, Task};

// How many elements each buffer has.
#[derive(Clone, Copy)]
pub(crate) struct Offer {
    pub(crate) before: usize,
    pub(crate) after: usize,
    pub(crate) fwd: usize,
    pub(crate) bwd: usize,
    pub(crate) pins: usize,
    pub(crate) rows: usize,
}

fn fitting(n: usize, d: usize, size: usize, l: Offer) -> bool
    requires { Sizes n d size }
    ensures { Tells result (Fitting n d size l) }
{
    let spins = size * n;
    let bonds = n * d;
    (l.before == spins)
        & (l.after == spins)
        & (l.fwd == bonds)
        & (l.bwd == bonds)
        & (l.pins == n)
        & (l.rows == n * size)
}

// The refusal of the first test that fails.
pub(crate) fn test_offer(t: Task, l: Offer, before: &[i8], after: &[i8]) -> Result<(), Refusal>
    requires { Handed l before.now after.now }
    ensures { Verdict (offer_rules t l before.now after.now) (verdict_of result) }
{
    let size = t.group.len;
    if !lattice::ranged(t.n, t.d, size, t.mode, size) {
        return Err(Refusal::Sizes);
    }
    if !t.mode.is_perm() {
        return Err(Refusal::Sizes);
    }
    if !fitting(t.n, t.d, size, l) {
        return Err(Refusal::Lengths);
    }
    if !lattice::spins_ok(before) {
        return Err(Refusal::Spins);
    }
    if !lattice::spins_ok(after) {
        return Err(Refusal::Spins);
    }
    Ok(())
}
