// The form that grows: the members, and in CMR which of them are blue.
ghost use Rattle.std.specs.Prelude.{length};
ghost use Rattle.paper.specs.Panel.Made.{call_of};
ghost use Rattle.paper.specs.Answer.Cases.{answer_by};
ghost use Rattle.task_label.specs.Marking.{Markable, MarksListed};
ghost use Rattle.task_label.specs.Grown.{GrownAsks, GrownLeaves};

use lemmas::bytes::clear;
use lemmas::wide;
use paper::{Mode, Outcome, Task};

// A byte for each site: 1 at the first len sites of the list.
fn mark_listed(list: &[u32], len: usize, marks: &mut [u8])
    requires { Markable (length marks.old) list.now len }
    ensures { MarksListed (length marks.old) list.now len marks.new }
{
    clear(marks);
    for &site in &list[..len] {
        marks[wide(site)] = 1;
    }
}

// The members of the seed's cluster; in CMR also which of them the blue bonds join to the seed. No spin is written.
pub(crate) fn label_grown(
    t: Task,
    rows: &[i8],
    fwd: &[u32],
    bwd: &[u32],
    pins: &[u8],
    couplings: &[i32],
    cuts: &[f32],
    members: &mut [u8],
    blue: &mut [u8],
) -> Outcome
    requires { GrownAsks (call_of t fwd.now bwd.now pins.now couplings.now cuts.now) rows.now members.old blue.old }
    ensures { GrownLeaves
        (call_of t fwd.now bwd.now pins.now couplings.now cuts.now)
        rows.now blue.old (answer_by result) members.new blue.new }
{
    let mut list = [0u32; 4096];
    let mut cols = [0u8; 4096];
    let found = grow::find(
        t, rows, fwd, bwd, pins, couplings, cuts, members, &mut list, &mut cols,
    );
    let mode = t.mode;
    if mode.is_cmr() {
        mark_listed(&list, found.blue, blue);
    }
    found.answer
}
