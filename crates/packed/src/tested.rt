// The tests of a call on bytes, in the order of those of a call on rows.
ghost use Rattle.std.specs.Prelude.{◌≡◌, ◌≤◌};
ghost use Rattle.paper.specs.Panel.Made.{call_of, choices_of};
ghost use Rattle.paper.specs.Refusal.Verdict.{Verdict};
ghost use Rattle.paper.specs.Refusal.Numbers.{verdict_of};
ghost use Rattle.packed.specs.Lengths.{clip, spins_for};
ghost use Rattle.packed.specs.Tested.{Handed, packed_rules};

use paper::{Form, Group, Keeps, Lengths, Refusal, Task};

fn clipped(top: usize, x: usize) -> usize
    requires { top ≤ 4096 }
    ensures { result ≡ clip top x }
{
    if top < x { top + 1 } else { x }
}

// How many spins the bytes of so many members stand for. Past the ranges that are tested first it is some other number that does not fit.
pub(crate) fn spins_for(members: usize, bytes: usize) -> usize
    ensures { result ≡ spins_for members bytes }
{
    clipped(8, members) * clipped(4096, bytes)
}

// The refusal of the first test that fails. The task is one on rows of its own.
pub(crate) fn test_packed(
    t: Task,
    columns: &[u8],
    totals: &[i64],
    fwd: &[u32],
    bwd: &[u32],
    pins: &[u8],
    couplings: &[i32],
    cuts: &[f32],
    choices: &[u8],
    greys: &[u8],
    l: Lengths,
) -> Result<(), Refusal>
    requires { Handed t columns.now fwd.now bwd.now couplings.now choices.now greys.now l }
    ensures { Verdict
        (packed_rules t columns.now totals.now
        (call_of t fwd.now bwd.now pins.now couplings.now cuts.now)
        (choices_of choices.now greys.now) l)
        (verdict_of result) }
{
    tests::panel::test_shape(t, totals.len(), l)?;
    let group = t.group;
    if !lattice::bytes_at_most(columns, packing::highest(group.len)) {
        return Err(Refusal::Spins);
    }
    tests::panel::test_tables(t, fwd, bwd, pins, couplings)?;
    tests::choices::test_chosen(t, cuts, choices, greys)?;
    if !tests::choices::seed_column_ok(t, columns) {
        return Err(Refusal::Seed);
    }
    let keeps = t.keeps;
    let form = t.form;
    if !systems::group_totals_fit(keeps.totals(form), totals, group) {
        return Err(Refusal::Totals);
    }
    Ok(())
}
