// Reads the frames on standard input, runs their move and writes the answer's frames to standard output.
#![tactic(auto)]

ghost use Rattle.std.specs.Prelude.{◌≡◌, length};

use frame_text::Part;
use input::read_full;
use std::io;

// 65,536 zeros. The `ensures` gives only the length, which lending the array as a slice needs.
fn large_buffer() -> [u8; 65536]
    ensures { 65536 ≡ length result }
{
    [0; 65536]
}

// The longest answer has 6,157 bytes.
fn answer(rt: &impl Print, text: &[u8]) -> io::Result<()> {
    let mut out = [0u8; 8192];
    if let Some(m) = frame::run(text, &mut out) {
        rt.write_all(&out[..m])?;
    }
    Ok(())
}

// Reads on behind what is kept of the text until that is enough. Every turn reads more than 32,000 bytes: no input outlasts the count of turns, which
// makes the loop end.
fn main(rt: HostRuntime) -> io::Result<()> {
    let mut text = large_buffer();
    let mut stdin = rt.stdin();
    let mut len = 0;
    for _ in 0..1000000000000u64 {
        let n = read_full(&mut stdin, &mut text[len..])?;
        match frame_text::cut(&text, len + n) {
            Part::Enough(m) => return answer(&rt, &text[..m]),
            Part::More(m) => len = m,
        }
    }
    Ok(())
}
