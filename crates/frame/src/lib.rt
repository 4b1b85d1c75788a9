// The frame program: reads a text's lines, runs the move that they say and writes the answer's lines.
#![tactic(auto)]

mod panel;

ghost use Rattle.std.specs.Prelude.{length};
ghost use Rattle.frame_lines.specs.Outcome.{written_of};
ghost use Rattle.frame_lines.specs.Reading.{AnyPanelFits};
ghost use Rattle.frame.specs.Run.{Blank, RunAs};

use panel::run_panel;

// A text's answer, on lent work arrays.
fn run_in(
    text: &[u8],
    spins: &mut [i8],
    fwd: &mut [u32],
    perms: &mut [u8],
    bwd: &mut [u32],
    labels: &mut [u32],
    counts: &mut [u32],
    sizes: &mut [u32],
    out: &mut [u8],
) -> Option<usize>
    requires any_panel_fits { AnyPanelFits (length spins.old) (length fwd.old) (length perms.old) }
    requires blank { Blank bwd.old labels.old counts.old sizes.old }
    ensures { RunAs text.now out.old (written_of result) out.new }
{
    match frame_lines::read(text, spins, fwd, perms) {
        Err(r) => frame_lines::write_refusal(r, out),
        Ok(shape) => run_panel(shape, spins, fwd, perms, bwd, labels, counts, sizes, out),
    }
}

// The program: reads the text, runs its move and writes the answer, or writes what is wrong. It says how many bytes the answer has; where there is no
// room for it, nothing is written.
pub fn run(text: &[u8], out: &mut [u8]) -> Option<usize>
    ensures { RunAs text.now out.old (written_of result) out.new }
{
    let mut spins = [0i8; 2048];
    let mut fwd = [0u32; 1024];
    let mut perms = [0u8; 2048];
    let mut bwd = [0u32; 1024];
    let mut labels = [0u32; 256];
    let mut counts = [0u32; 257];
    let mut sizes = [0u32; 4];
    run_in(
        text,
        &mut spins,
        &mut fwd,
        &mut perms,
        &mut bwd,
        &mut labels,
        &mut counts,
        &mut sizes,
        out,
    )
}
