// The tests of the first step, in the order of a move's.
ghost use Rattle.paper.specs.Panel.Made.{choices_of};
ghost use Rattle.paper.specs.Refusal.Verdict.{Verdict};
ghost use Rattle.paper.specs.Refusal.Numbers.{verdict_of};
ghost use Rattle.task_label.specs.Tested.{Handed, label_tests};

use paper::{Form, Lengths, Mode, Refusal, Task};

// The refusal of the first test that fails. The task keeps no totals: those are the last step's.
pub(crate) fn test_label(
    t: Task,
    rows: &[i8],
    fwd: &[u32],
    bwd: &[u32],
    pins: &[u8],
    couplings: &[i32],
    cuts: &[f32],
    choices: &[u8],
    greys: &[u8],
    l: Lengths,
    blue: usize,
) -> Result<(), Refusal>
    requires { Handed t rows.now fwd.now bwd.now couplings.now choices.now greys.now l }
    ensures { Verdict
        (label_tests t fwd.now bwd.now pins.now couplings.now cuts.now
        (choices_of choices.now greys.now) rows.now l blue)
        (verdict_of result) }
{
    tests::panel::test_shape(t, 0, l)?;
    let mode = t.mode;
    let form = t.form;
    if !lattice::fits(form.grows() & mode.takes_greys(form), blue, t.n) {
        return Err(Refusal::Lengths);
    }
    let none = [0i64; 1];
    step_tests::test_call(
        t,
        rows,
        &none[..0],
        fwd,
        bwd,
        pins,
        couplings,
        cuts,
        choices,
        greys,
        l,
    )
}
