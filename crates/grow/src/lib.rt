// One task of the form that grows: its cluster is found, and then chosen and written.
#![tactic(auto)]

ghost use Rattle.std.specs.Prelude.{length};
ghost use Rattle.paper.specs.Panel.Made.{lattice_of, call_of, choices_of};
ghost use Rattle.paper.specs.Panel.Takes.{keeps_by};
ghost use Rattle.paper.specs.Answer.Move.{Answers};
ghost use Rattle.paper.specs.Answer.Totals.{TotalsReady, TotalsAfter};
ghost use Rattle.paper.specs.Answer.Cases.{answer_by};
ghost use Rattle.grow.specs.Kept.{Keeping};
ghost use Rattle.grow.specs.Finding.{Findable, Finds};
ghost use Rattle.grow.specs.Task.{Outputs, with_outputs, GrowAsks};

mod growing;
mod held;
pub mod write;

use growing::grow_cluster;
use held::{choose_cluster, some_pinned};
use lemmas::bytes::clear;
use paper::{Outcome, Task};
use write::write_cluster;

// What finding a cluster comes to: what the move answers, how many sites of the list the bonds join to the seed, in CMR the blue ones, and how many
// members there are.
#[derive(Clone, Copy)]
pub struct Found {
    pub answer: Outcome,
    pub blue: usize,
    pub len: usize,
}

// The members of the seed's cluster, and what the move answers: nothing of it is written but these. Beside the seed, and in gperm the reference, no site is
// read that the cluster does not reach, nor its pin.
pub fn find(
    t: Task,
    spins: &[i8],
    fwd: &[u32],
    bwd: &[u32],
    pins: &[u8],
    couplings: &[i32],
    cuts: &[f32],
    members: &mut [u8],
    list: &mut [u32],
    cols: &mut [u8],
) -> Found
    requires { Findable
        t fwd.now bwd.now pins.now spins.now couplings.now cuts.now (length members.old) (length list.old) (length cols.old) }
    ensures { Keeping (Finds
        (call_of t fwd.now bwd.now pins.now couplings.now cuts.now) spins.now
        members.new list.new (answer_by result.answer) result.blue result.len)
        t spins.now members.new cols.new }
{
    let mode = t.mode;
    let group = t.group;
    if !column_rules::acts_at(mode, t.n, spins, group, t.reference, t.seed) {
        clear(members);
        return Found {
            answer: Outcome::Idle,
            blue: 0,
            len: 0,
        };
    }
    let grown = grow_cluster(t, spins, fwd, bwd, couplings, cuts, members, list, cols);
    if some_pinned(pins, list, 0, grown.blue) {
        return Found {
            answer: Outcome::Held,
            blue: grown.blue,
            len: grown.len,
        };
    }
    Found {
        answer: Outcome::Moved,
        blue: grown.blue,
        len: grown.len,
    }
}

// One task of the form that grows, once its input is tested: the members and the spins as the paper has them, and the totals brought along where the task
// keeps them. Where a site that the bonds join to the seed is pinned, in CMR a blue one, the members are written and nothing turns. Beside the seed, and in
// gperm the reference, no site is read that the cluster does not reach, nor its pin; but for totals also those next to it.
pub fn run_grow(
    t: Task,
    spins: &mut [i8],
    totals: &mut [i64],
    fwd: &[u32],
    bwd: &[u32],
    pins: &[u8],
    couplings: &[i32],
    cuts: &[f32],
    choices: &[u8],
    greys: &[u8],
    members: &mut [u8],
) -> Outcome
    requires grow_asks { GrowAsks
        (call_of t fwd.now bwd.now pins.now couplings.now cuts.now) (choices_of choices.now greys.now) spins.old members.old }
    requires totals_ready { TotalsReady (keeps_by t.keeps t.form) (lattice_of t.n t.d t.s fwd.now bwd.now couplings.now) t.group totals.old }
    ensures answers { (o : Outputs) → Answers
        (call_of t fwd.now bwd.now pins.now couplings.now cuts.now)
        (choices_of choices.now greys.now)
        (with_outputs o spins.old members.old)
        (answer_by result)
        (with_outputs o spins.new members.new) }
    ensures totals_after { TotalsAfter
        (keeps_by t.keeps t.form) (lattice_of t.n t.d t.s fwd.now bwd.now couplings.now)
        spins.old totals.old spins.new totals.new }
{
    let mut list = [0u32; 4096];
    let mut cols = [0u8; 4096];
    let found = find(
        t, spins, fwd, bwd, pins, couplings, cuts, members, &mut list, &mut cols,
    );
    let answer = found.answer;
    let Outcome::Moved = answer else {
        return answer;
    };
    let mut news = [0u8; 4096];
    choose_cluster(
        t, spins, pins, choices, greys, &list, &cols, found.blue, found.len, &mut news,
    );
    write_cluster(
        t, spins, totals, fwd, bwd, couplings, members, &list, found.len, &mut cols, &mut news,
    );
    Outcome::Moved
}
