// A vendor's moves, checked, as C and Rust call it.
ghost use Rattle.std.specs.Prelude.{◌≡◌};
ghost use Rattle.paper.specs.declared.Form.TheVariants.{Observe};
ghost use Rattle.paper.specs.declared.Keeps.TheVariants.{Nothing};
ghost use Rattle.paper.specs.Refusal.Rule.{Broken};
ghost use Rattle.paper.specs.Site.Bonds.{whole};
ghost use Rattle.packing.specs.Bytes.{own_group};
ghost use Rattle.steps.specs.Rule.{task_of};
ghost use Rattle.vendor.specs.Vendor.{asked_by};
ghost use Rattle.tsorvenk.specs.Number.{mode_of};
ghost use Rattle.tsorvenk.specs.Checking.{roomless_rules, CheckAnswers};

use super::mode_of;
use paper::{Form, Group, Keeps, Mode, Task};

// Any code: one that is no mode is taken as one that does not permute.
fn mode_at(code: u8) -> Mode
    ensures { result ≡ mode_of code }
{
    if code < 5 { mode_of(code) } else { Mode::Cmr }
}

// The number of a call with no place for a fault: that of test 1, or 2.
fn roomless(mode: Mode, n: usize, d: usize, members: usize) -> u8
    ensures { Broken (roomless_rules mode n d members) result }
{
    if !lattice::ranged(n, d, members, mode, members) {
        return 1;
    }
    if !mode.is_perm() {
        return 1;
    }
    2
}

// Spins before and after of so many members, in the group's order. Accepted, a row for each component number; else the first component at fault, into a
// buffer of one number.
pub fn tsorvenk_check_vendor(
    mode: u8,
    n: usize,
    d: usize,
    members: usize,
    reference: usize,
    fwd: &[u32],
    bwd: &[u32],
    pins: &[u8],
    before: &[i8],
    after: &[i8],
    rows: &mut [u8],
    fault: &mut [u32],
) -> u8
    ensures { CheckAnswers
        (asked_by (task_of (mode_of mode) Observe Nothing n d members (own_group members) (whole 1) reference 0)
        fwd.now bwd.now pins.now)
        before.now after.now rows.old fault.old
        result
        rows.new fault.new }
{
    let m = mode_at(mode);
    if fault.len() != 1 {
        return roomless(m, n, d, members);
    }
    let t = Task {
        mode: m,
        form: Form::Observe,
        keeps: Keeps::Nothing,
        n,
        d,
        s: members,
        group: Group {
            len: members,
            systems: [0, 1, 2, 3, 4, 5, 6, 7],
        },
        temperature: 1.0,
        reference,
        seed: 0,
    };
    match vendor::check_vendor(t, fwd, bwd, pins, before, after, rows) {
        Ok(None) => 0,
        Ok(Some(r)) => {
            fault[0] = r;
            67
        }
        Err(refusal) => refusal.number(),
    }
}
