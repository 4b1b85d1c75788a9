// The characters of a text of frames: where digits end, and how much of a long text decides its answer.
#![tactic(auto)]

ghost use Rattle.std.specs.Prelude.{◌≤◌, length};
ghost use Rattle.lemmas.specs.Tells.{Tells};
ghost use Rattle.frame_text.specs.Digits.{Digit};
ghost use Rattle.frame_text.specs.Line.{DigitsEnd, LineStart};
ghost use Rattle.frame_text.specs.Cut.{CutAs};

// What stands for the text: so many bytes from the buffer's front, whatever follows them; or these and what follows.
#[derive(Clone, Copy)]
pub enum Part {
    Enough(usize),
    More(usize),
}

// A line that begins behind so many bytes decides nothing: five good lines have at most 12,327.
const HEAD: usize = 16384;

// So many digits are too many for every frame; and no line behind them begins early.
const LONG: usize = 16384;

fn is_digit(a: u8) -> bool
    ensures { Tells result (Digit a) }
{
    matches!(a, b'0'..=b'9' | b'a'..=b'f')
}

// Where the digits that begin at a place end. Kept a function: as a part of the code that asks, the loop would count up in memory all that is made of the end.
#[inline(never)]
pub fn digits_end(text: &[u8], at: usize) -> usize
    requires { at ≤ length text.now }
    ensures { DigitsEnd text.now at result }
{
    for end in at..text.len() {
        if !is_digit(text[end]) {
            return end;
        }
    }
    text.len()
}

// Where the last line begins.
fn line_start(text: &[u8]) -> usize
    ensures { LineStart text.now result }
{
    for i in (0..text.len()).rev() {
        if text[i] == b'\n' {
            return i + 1;
        }
    }
    0
}

// What a reader keeps of a text of which the buffer's first n bytes are read; where they do not fill it, the text has ended. Only a line of digits that
// begins early and fills the buffer has to be read on. It is cut to as many digits as are too many, and one more where their number is odd.
pub fn cut(buffer: &[u8; 65536], n: usize) -> Part
    ensures { CutAs buffer.now n result }
{
    let text: &[u8] = buffer;
    let room = text.len();
    if n < room {
        return Part::Enough(n);
    }
    let start = line_start(text);
    if HEAD < start {
        return Part::Enough(room);
    }
    if digits_end(text, start) < room {
        return Part::Enough(room);
    }
    let digits = room - start;
    Part::More(start + LONG + digits % 2)
}
