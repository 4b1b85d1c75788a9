// Checks a vendor's spins before and after a move of one group, in perm and gperm.
#![tactic(auto)]

mod observed;
mod tested;

ghost use Rattle.vendor.specs.Vendor.{asked_by, VendorAnswers};
ghost use Rattle.vendor.specs.Offered.{Offered};
ghost use Rattle.vendor.specs.Checked.{checked_of};

use paper::{Group, Refusal, Task};
use tested::Offer;

// The first component at fault, if one is, after tests 1 to 3: tests 4 and 9 and the components by an observation of the spins before, then component by
// component.
fn compare(
    t: Task,
    fwd: &[u32],
    bwd: &[u32],
    pins: &[u8],
    before: &[i8],
    after: &[i8],
    rows: &mut [u8],
) -> Result<Option<u32>, Refusal>
    requires { Offered (asked_by t fwd.now bwd.now pins.now) before.now after.now rows.old }
    ensures { VendorAnswers
        (asked_by t fwd.now bwd.now pins.now)
        before.now after.now rows.old (checked_of result) rows.new }
{
    let size = t.group.len;
    let group = Group {
        len: size,
        systems: [0, 1, 2, 3, 4, 5, 6, 7],
    };
    let n = t.n;
    let mut old_area = [0u8; 4096];
    let mut new_area = [0u8; 4096];
    let mut label_area = [0u32; 4096];
    let olds = &mut old_area[..n];
    let news = &mut new_area[..n];
    let labels = &mut label_area[..n];
    columns::pack(before, n, group, olds);
    columns::pack(after, n, group, news);
    observed::observe(t, olds, fwd, bwd, pins, labels)?;
    let gauge = columns::gauge(t.mode, group, t.reference, olds);
    let r = matching::explain(size, gauge, olds, news, labels, pins, rows);
    if r < n {
        return Ok(Some(r as u32));
    }
    Ok(None)
}

// The first component at fault, if one is. Both sides are n spins for each member, in the group's order. Accepted, a permutation is written for each
// component number. Of the task its form, what it keeps, the systems that it names and how many there are are not looked at.
pub fn check_vendor(
    t: Task,
    fwd: &[u32],
    bwd: &[u32],
    pins: &[u8],
    before: &[i8],
    after: &[i8],
    rows: &mut [u8],
) -> Result<Option<u32>, Refusal>
    ensures { VendorAnswers
        (asked_by t fwd.now bwd.now pins.now)
        before.now after.now rows.old (checked_of result) rows.new }
{
    let l = Offer {
        before: before.len(),
        after: after.len(),
        fwd: fwd.len(),
        bwd: bwd.len(),
        pins: pins.len(),
        rows: rows.len(),
    };
    tested::test_offer(t, l, before, after)?;
    compare(t, fwd, bwd, pins, before, after, rows)
}
