// The components of the spins before.
ghost use Rattle.paper.specs.Refusal.Numbers.{verdict_of};
ghost use Rattle.vendor.specs.Observed.{Observable, Observes};

use paper::{Form, Keeps, Refusal, Task};

// Tests the tables, the pins and the reference, and labels the columns, by an observation of them. They stay as they are.
pub(crate) fn observe(
    t: Task,
    columns: &mut [u8],
    fwd: &[u32],
    bwd: &[u32],
    pins: &[u8],
    labels: &mut [u32],
) -> Result<(), Refusal>
    requires { Observable t columns.old fwd.now bwd.now pins.now labels.old }
    ensures { Observes t columns.old fwd.now bwd.now pins.now
        (verdict_of result) columns.new labels.new }
{
    let o = Task {
        form: Form::Observe,
        keeps: Keeps::Nothing,
        ..t
    };
    let mut totals = [0i64; 1];
    let couplings = [0i32; 1];
    let cuts = [0.0f32; 1];
    let choices = [0u8; 1];
    let greys = [0u8; 1];
    let mut grey_labels = [0u32; 1];
    let mut counts = [0u32; 4097];
    let mut sizes = [0u32; 4];
    let mut members = [0u8; 1];
    let mut found = [0u32; 1];
    let mut grey_found = [0u32; 1];
    packed::packed_step(
        o,
        columns,
        &mut totals[..0],
        fwd,
        bwd,
        pins,
        &couplings[..0],
        &cuts[..0],
        &choices[..0],
        &greys[..0],
        labels,
        &mut grey_labels[..0],
        &mut counts[..t.n + 1],
        &mut sizes,
        &mut members[..0],
        &mut found,
        &mut grey_found[..0],
    )?;
    Ok(())
}
