// The frame program on texts in memory, as C and Rust call it.
ghost use Rattle.tsorvenk.specs.Frames.{framed, FramesNumbers};

// The answer's frames go to the front of `out`, and their number of bytes to `written`.
pub fn tsorvenk_frames(text: &[u8], out: &mut [u8], written: &mut [usize]) -> u8
    ensures { FramesNumbers
        text.now
        (framed out.old written.old)
        result
        (framed out.new written.new) }
{
    if written.len() != 1 {
        return 2;
    }
    match frame::run(text, out) {
        Some(m) => {
            written[0] = m;
            0
        }
        None => 65,
    }
}
