// The forms that label: every component, on the columns of the rows.
ghost use Rattle.moves.specs.Leaves.{beside_of};
ghost use Rattle.task_label.specs.Labelled.{LabelledAsks, LabelledLeaves};
ghost use Rattle.paper.specs.Answer.Cases.{answer_by};

use paper::{Group, Outcome, Task};

// The labels of the rows, how many components there are, counts and sizes, in CMR the grey labels too. The work arrays are this call's own.
pub(crate) fn label_rows(
    t: Task,
    rows: &[i8],
    fwd: &[u32],
    pins: &[u8],
    couplings: &[i32],
    cuts: &[f32],
    labels: &mut [u32],
    grey_labels: &mut [u32],
    counts: &mut [u32],
    sizes: &mut [u32],
    found: &mut [u32],
    grey_found: &mut [u32],
) -> Outcome
    requires { LabelledAsks t fwd.now pins.now couplings.now cuts.now rows.now
        labels.old grey_labels.old counts.old sizes.old found.old grey_found.old }
    ensures { LabelledLeaves t fwd.now pins.now couplings.now cuts.now rows.now
        (beside_of labels.old grey_labels.old counts.old sizes.old
        found.old grey_found.old)
        (answer_by result)
        (beside_of labels.new grey_labels.new counts.new sizes.new
        found.new grey_found.new) }
{
    let n = t.n;
    let bonds = n * t.d;
    let group = t.group;
    let mut col_area = [0u8; 4096];
    let mut acts_area = [0u8; 4096];
    let mut holds_area = [0u8; 16384];
    let mut grey_area = [0u8; 16384];
    let mut tally_area = [0u32; 4096];
    let mut grey_tally_area = [0u32; 4096];
    let cols = &mut col_area[..n];
    let acts = &mut acts_area[..n];
    let holds = &mut holds_area[..bonds];
    let grey = &mut grey_area[..bonds];
    let tally = &mut tally_area[..n];
    let grey_tally = &mut grey_tally_area[..n];
    columns::pack(rows, n, group, cols);
    moves::label_task(
        t,
        cols,
        fwd,
        pins,
        couplings,
        cuts,
        acts,
        holds,
        grey,
        tally,
        grey_tally,
        labels,
        grey_labels,
        counts,
        sizes,
        found,
        grey_found,
    )
}
