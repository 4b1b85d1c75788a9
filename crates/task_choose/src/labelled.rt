// The forms that label: the new column of every site, by its label and the grey one.
ghost use Rattle.std.specs.Prelude.{◌≡◌, true, []};
ghost use Rattle.paper.specs.Panel.Made.{call_of, choices_of};
ghost use Rattle.paper.specs.Move.Moving.{final};
ghost use Rattle.columns.specs.Column.{Columns};
ghost use Rattle.choose.specs.Chosen.{Freed, Tallyable};
ghost use Rattle.task_choose.specs.Labelled.{LabelledAsks};

use paper::{Form, Group, Mode, Task};

// The sizes of grey components, which CMR alone has.
fn tally_greys(taken: bool, pins: &[u8], labels: &[u32], tally: &mut [u32])
    requires { taken ≡ true → Tallyable pins.now labels.now tally.old }
    ensures { taken ≡ true → Freed pins.now labels.now tally.new }
{
    if taken {
        choose::tally_free(pins, labels, tally);
    }
}

// To observe moves nothing: then the columns are those of the rows.
pub(crate) fn choose_labelled(
    t: Task,
    rows: &[i8],
    pins: &[u8],
    choices: &[u8],
    greys: &[u8],
    labels: &[u32],
    grey_labels: &[u32],
    area: &mut [u8],
)
    requires { LabelledAsks t rows.now pins.now choices.now greys.now labels.now grey_labels.now area.old }
    ensures { Columns t.n t.group.len
        (final (call_of t [] [] pins.now [] []) (choices_of choices.now greys.now) rows.now
        labels.now grey_labels.now)
        area.new }
{
    let mode = t.mode;
    let form = t.form;
    let group = t.group;
    let n = t.n;
    columns::pack(rows, n, group, area);
    if !form.moves() {
        return;
    }
    let mut acts_area = [0u8; 4096];
    let mut tally_area = [0u32; 4096];
    let mut grey_area = [0u32; 4096];
    let mut reached_area = [0u8; 4096];
    let acts = &mut acts_area[..n];
    let tally = &mut tally_area[..n];
    let grey_tally = &mut grey_area[..n];
    column_rules::look_columns(mode, group, t.reference, area, acts);
    choose::tally_free(pins, labels, tally);
    tally_greys(mode.is_cmr(), pins, grey_labels, grey_tally);
    moves::choose_task(
        t,
        choices,
        greys,
        acts,
        labels,
        tally,
        grey_labels,
        grey_tally,
        &mut reached_area[..n],
        area,
    );
}
