// The library as C and Rust call it. Each function is a shell over a proved one: numbers in, a number out, and no caller is trusted.
#![tactic(auto)]

pub mod bytes;
pub mod checking;
pub mod drawing;
pub mod framing;
pub mod listing;
pub mod numbering;
pub mod owned;
pub mod stepping;
pub mod sweeping;
pub mod testing;

ghost use Rattle.std.specs.Prelude.{◌≡◌, ◌≤◌, get_or};
ghost use Rattle.lemmas.specs.Tells.{Tells};
ghost use Rattle.label.specs.Entry.{labelling_number};
ghost use Rattle.paper.specs.Panel.Made.{lattice_of, call_of, choices_of, buffers_of};
ghost use Rattle.paper.specs.Answer.Cases.{answer_of};
ghost use Rattle.paper.specs.Refusal.Numbers.{verdict_of};
ghost use Rattle.steps.specs.Rule.{task_of};
ghost use Rattle.tsorvenk.specs.Number.{Coded, mode_of, form_of, coding_of, keeps_of, group_of, taken_of, number_of};
ghost use Rattle.tsorvenk.specs.Step.{with_totals, StepAnswers};
ghost use Rattle.tsorvenk.specs.Energy.{EnergyAnswers};
ghost use Rattle.tsorvenk.specs.Label.{LabelAnswers};

use coded::Coding;
use lemmas::wide;
use paper::{Form, Group, Keeps, Mode, Outcome, Refusal, Task};

fn mode_of(code: u8) -> Mode
    requires { code ≤ 5 }
    ensures { result ≡ mode_of code }
{
    match code {
        0 => Mode::Houd,
        1 => Mode::Pair,
        2 => Mode::Perm,
        3 => Mode::Gperm,
        4 => Mode::Jorg,
        _ => Mode::Cmr,
    }
}

fn form_of(code: u8) -> Form
    requires { code ≤ 3 }
    ensures { result ≡ form_of code }
{
    match code {
        0 => Form::Sw,
        1 => Form::Wolff,
        2 => Form::Observe,
        _ => Form::Grow,
    }
}

fn coding_of(code: u8) -> Coding
    requires { code ≤ 1 }
    ensures { result ≡ coding_of code }
{
    match code {
        0 => Coding::Rows,
        _ => Coding::Numbers,
    }
}

fn keeps_of(code: u8) -> Keeps
    requires { code ≤ 1 }
    ensures { result ≡ keeps_of code }
{
    match code {
        0 => Keeps::Nothing,
        _ => Keeps::Totals,
    }
}

// The codes are of a mode, of a form, of a coding and of what is kept.
fn codes_ok(mode: u8, form: u8, coding: u8, keeps: u8) -> bool
    ensures { Tells result (Coded mode form coding keeps) }
{
    (mode <= 5) & (form <= 3) & (coding <= 1) & (keeps <= 1)
}

fn system_at(group: &[u32], k: usize) -> usize
    ensures { result ≡ get_or group.now k 0 }
{
    if k < group.len() { wide(group[k]) } else { 0 }
}

fn group_of(group: &[u32]) -> Group
    ensures { result ≡ group_of group.now }
{
    let systems = [
        system_at(group, 0),
        system_at(group, 1),
        system_at(group, 2),
        system_at(group, 3),
        system_at(group, 4),
        system_at(group, 5),
        system_at(group, 6),
        system_at(group, 7),
    ];
    Group {
        len: group.len(),
        systems,
    }
}

// Of flips and permutations, what the mode takes.
fn taken<'a>(mode: Mode, flips: &'a [u8], perms: &'a [u8]) -> &'a [u8]
    ensures { result.now ≡ taken_of mode flips.now perms.now }
{
    if mode.is_perm() { perms } else { flips }
}

fn number_of(answer: Result<Outcome, Refusal>) -> u8
    ensures { result ≡ number_of (answer_of answer) }
{
    match answer {
        Ok(Outcome::Idle) => 64,
        Ok(Outcome::Held) => 66,
        Ok(Outcome::Moved) => 0,
        Err(refusal) => refusal.number(),
    }
}

// 0 where nothing is refused.
fn verdict_of(tested: Result<(), Refusal>) -> u8
    ensures { result ≡ verdict_of tested }
{
    match tested {
        Ok(()) => 0,
        Err(refusal) => refusal.number(),
    }
}

// One move or observation of a group. Of `flips` and `perms` the mode takes one, and the other is ignored; and so are the totals where they are not
// kept. The coding says whether `perms` has rows or numbers.
fn step<'a>(
    mode: u8,
    form: u8,
    coding: u8,
    keeps: u8,
    n: usize,
    d: usize,
    s: usize,
    spins: &mut [i8],
    totals: &mut [i64],
    fwd: &[u32],
    bwd: &[u32],
    pins: &[u8],
    couplings: &[i32],
    group: Group,
    temperature: f32,
    cuts: &[f32],
    reference: usize,
    seed: usize,
    flips: &'a [u8],
    perms: &'a [u8],
    greys: &[u8],
    labels: &mut [u32],
    grey_labels: &mut [u32],
    counts: &mut [u32],
    sizes: &mut [u32],
    member_sites: &mut [u8],
    found: &mut [u32],
    grey_found: &mut [u32],
) -> u8
    ensures { StepAnswers mode form coding keeps
        (call_of (task_of (mode_of mode) (form_of form) (keeps_of keeps) n d s group temperature reference seed)
        fwd.now bwd.now pins.now couplings.now cuts.now)
        (choices_of (taken_of (mode_of mode) flips.now perms.now) greys.now)
        (with_totals (buffers_of spins.old labels.old grey_labels.old counts.old sizes.old
        member_sites.old found.old grey_found.old) totals.old)
        result
        (with_totals (buffers_of spins.new labels.new grey_labels.new counts.new sizes.new
        member_sites.new found.new grey_found.new) totals.new) }
{
    if !codes_ok(mode, form, coding, keeps) {
        return 1;
    }
    let m = mode_of(mode);
    let t = Task {
        mode: m,
        form: form_of(form),
        keeps: keeps_of(keeps),
        n,
        d,
        s,
        group,
        temperature,
        reference,
        seed,
    };
    let answer = coded::overlap_step_by(
        coding_of(coding),
        t,
        spins,
        totals,
        fwd,
        bwd,
        pins,
        couplings,
        cuts,
        taken(m, flips, perms),
        greys,
        labels,
        grey_labels,
        counts,
        sizes,
        member_sites,
        found,
        grey_found,
    );
    number_of(answer)
}

// The energy of one system, into a buffer of one number.
fn metered(
    n: usize,
    d: usize,
    s: usize,
    spins: &[i8],
    fwd: &[u32],
    bwd: &[u32],
    couplings: &[i32],
    system: usize,
    energy: &mut [i64],
) -> u8
    ensures { EnergyAnswers
        (lattice_of n d s fwd.now bwd.now couplings.now)
        spins.now
        system
        energy.old
        result
        energy.new }
{
    if energy.len() != 1 {
        if lattice::sizes_ok(n, d, s) {
            return 2;
        }
        return 1;
    }
    match meter::energy(n, d, s, spins, fwd, bwd, couplings, system) {
        Ok(e) => {
            energy[0] = e;
            0
        }
        Err(refusal) => refusal.number(),
    }
}

// The components of the bonds whose byte in `holds` is 1, and how many there are, into a buffer of one number. Counts and sizes are of those whose
// smallest site has a byte 1 in `counted`.
pub fn tsorvenk_label(
    n: usize,
    d: usize,
    fwd: &[u32],
    holds: &[u8],
    counted: &[u8],
    labels: &mut [u32],
    counts: &mut [u32],
    sizes: &mut [u32],
    found: &mut [u32],
) -> u8
    ensures { LabelAnswers
        (record { n = n; d = d; fwd = fwd.now; holds = holds.now; counted = counted.now })
        (record { labels = labels.old; counts = counts.old; sizes = sizes.old; found = found.old })
        result
        (record { labels = labels.new; counts = counts.new; sizes = sizes.new; found = found.new }) }
{
    verdict_of(label::components(n, d, fwd, holds, counted, labels, counts, sizes, found))
}
