// One perm move of a panel that was read, and its answer as text.
ghost use Rattle.std.specs.Prelude.{List, [], ◌∷◌, ℕ, ◌*◌};
ghost use Rattle.neighbours.specs.Backward.{Turnable};
ghost use Rattle.paper.specs.Panel.Made.{buffers_of};
ghost use Rattle.paper.specs.Answer.Cases.{answer_of};
ghost use Rattle.frame_lines.specs.Outcome.{written_of};
ghost use Rattle.frame_lines.specs.Reading.{Held, Readout};
ghost use Rattle.frame_lines.specs.Writing.{WrittenAs};
ghost use Rattle.frame.specs.Run.{PermMoved, Writable, answer_text, PanelWritten, PanelGiven, RunAs};

use frame_lines::Shape;
use paper::{Form, Group, Keeps, Mode, Outcome, Refusal, Task};

// The move keeps no totals, and takes no couplings, cuts, grey numbers or members: they are empty. No site is pinned. How many components it finds is
// not written out.
fn perm_move(
    n: usize,
    d: usize,
    s: usize,
    group: Group,
    spins: &mut [i8],
    fwd: &[u32],
    perms: &[u8],
    bwd: &mut [u32],
    labels: &mut [u32],
    counts: &mut [u32],
    sizes: &mut [u32],
) -> Result<Outcome, Refusal>
    requires { Turnable n d fwd.now bwd.old }
    ensures { PermMoved n d s group fwd.now perms.now
        (buffers_of spins.old labels.old [] counts.old sizes.old [] (0 ∷ []) [])
        (answer_of result) bwd.new spins.new labels.new counts.new sizes.new }
{
    neighbours::backward(n, d, fwd, bwd);
    let mut totals = [0i64; 1];
    let pins = [0u8; 4096];
    let couplings = [0i32; 1];
    let cuts = [0f32; 1];
    let mut grey_labels = [0u32; 1];
    let mut members = [0u8; 1];
    let mut found = [0u32; 1];
    let mut grey_found = [0u32; 1];
    let t = Task {
        mode: Mode::Perm,
        form: Form::Sw,
        keeps: Keeps::Nothing,
        n,
        d,
        s,
        group,
        temperature: 1.0,
        reference: 0,
        seed: 0,
    };
    steps::overlap_step(
        t,
        spins,
        &mut totals[..0],
        fwd,
        bwd,
        &pins[..n],
        &couplings[..0],
        &cuts[..0],
        perms,
        &perms[..0],
        labels,
        &mut grey_labels[..0],
        counts,
        sizes,
        &mut members[..0],
        &mut found,
        &mut grey_found[..0],
    )
}

// Idle, held and moved are written alike.
fn write_answer(
    r: Result<Outcome, Refusal>,
    labels: &[u32],
    counts: &[u32],
    spins: &[i8],
    out: &mut [u8],
) -> Option<usize>
    requires { Writable (answer_of r) labels.now counts.now }
    ensures { WrittenAs (answer_text (answer_of r) labels.now counts.now spins.now) out.old (written_of result) out.new }
{
    match r {
        Ok(Outcome::Idle) => frame_lines::write(labels, counts, spins, out),
        Ok(Outcome::Held) => frame_lines::write(labels, counts, spins, out),
        Ok(Outcome::Moved) => frame_lines::write(labels, counts, spins, out),
        Err(refusal) => frame_lines::write_refusal(refusal.number(), out),
    }
}

// A move looks at the spins of its group alone; the program refuses a text for any of them.
fn move_and_write(
    n: usize,
    d: usize,
    s: usize,
    group: Group,
    spins: &mut [i8],
    fwd: &[u32],
    perms: &[u8],
    bwd: &mut [u32],
    labels: &mut [u32],
    counts: &mut [u32],
    sizes: &mut [u32],
    out: &mut [u8],
) -> Option<usize>
    requires { Turnable n d fwd.now bwd.old }
    ensures { PanelWritten n d s group fwd.now perms.now
        (buffers_of spins.old labels.old [] counts.old sizes.old [] (0 ∷ []) [])
        out.old (written_of result) out.new }
{
    if !lattice::spins_ok(spins) {
        return frame_lines::write_refusal(Refusal::Spins.number(), out);
    }
    let r = perm_move(
        n, d, s, group, spins, fwd, perms, bwd, labels, counts, sizes,
    );
    write_answer(r, labels, counts, spins, out)
}

// The same on the used parts of the buffers.
pub(crate) fn run_panel(
    shape: Shape,
    spins: &mut [i8],
    fwd: &[u32],
    perms: &[u8],
    bwd: &mut [u32],
    labels: &mut [u32],
    counts: &mut [u32],
    sizes: &mut [u32],
    out: &mut [u8],
) -> Option<usize>
    requires { PanelGiven shape.sizes shape.group spins.old fwd.now perms.now bwd.old labels.old counts.old sizes.old }
    ensures { (text : List ℕ) (b : Held)
        → Readout text b shape.sizes shape.group (record { spins = spins.old; fwd = fwd.now; perms = perms.now })
        → RunAs text out.old (written_of result) out.new }
{
    let Shape {
        sizes: panel,
        group,
    } = shape;
    let n = panel.n;
    let d = panel.d;
    let s = panel.s;
    let cells = s * n;
    let bonds = n * d;
    let places = n * group.len;
    let more = n + 1;
    move_and_write(
        n,
        d,
        s,
        group,
        &mut spins[..cells],
        &fwd[..bonds],
        &perms[..places],
        &mut bwd[..bonds],
        &mut labels[..n],
        &mut counts[..more],
        sizes,
        out,
    )
}
