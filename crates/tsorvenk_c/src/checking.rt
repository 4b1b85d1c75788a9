// A vendor's moves, checked, as C and Rust call it.
ghost use Rattle.paper.specs.declared.Form.TheVariants.{Observe};
ghost use Rattle.paper.specs.declared.Keeps.TheVariants.{Nothing};
ghost use Rattle.paper.specs.Site.Bonds.{whole};
ghost use Rattle.packing.specs.Bytes.{own_group};
ghost use Rattle.steps.specs.Rule.{task_of};
ghost use Rattle.vendor.specs.Vendor.{asked_by};
ghost use Rattle.tsorvenk.specs.Number.{mode_of};
ghost use Rattle.tsorvenk.specs.Checking.{CheckAnswers};

// Spins before and after of so many members, in the group's order. Accepted, a row for each component number; else the first component at fault, into a
// buffer of one number.
#[unsafe(no_mangle)]
pub extern "C" fn tsorvenk_check_vendor(
    mode: u8,
    n: usize,
    d: usize,
    members: usize,
    reference: usize,
    fwd: &[u32],
    bwd: &[u32],
    pins: &[u8],
    before: &[i8],
    after: &[i8],
    rows: &mut [u8],
    fault: &mut [u32],
) -> u8
    ensures { CheckAnswers
        (asked_by (task_of (mode_of mode) Observe Nothing n d members (own_group members) (whole 1) reference 0)
        fwd.now bwd.now pins.now)
        before.now after.now rows.old fault.old
        result
        rows.new fault.new }
{
    tsorvenk::checking::tsorvenk_check_vendor(
        mode, n, d, members, reference, fwd, bwd, pins, before, after, rows, fault,
    )
}
