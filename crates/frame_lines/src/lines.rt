// The text's characters and lines.
ghost use Rattle.std.specs.Prelude.{◌≡◌, ◌≤◌, length};
ghost use Rattle.frame_text.specs.Digits.{Digit, Valued};
ghost use Rattle.frame_lines.specs.Lines.{byte_at, word_at, TwoDigits, FourDigits};
ghost use Rattle.frame_lines.specs.Outcome.{line_found, next_found};
ghost use Rattle.frame_lines.specs.Scan.{LineAt, AfterAs};

use super::FrameLine;
use frame_text::digits_end;

fn value(a: u8) -> u8
    requires { Digit a }
    ensures { Valued a result }
{
    if a < 58 { a - 48 } else { a - 87 }
}

pub(crate) fn byte_at(text: &[u8], p: usize) -> u8
    requires { TwoDigits text.now p }
    ensures { result ≡ byte_at text.now p }
{
    16 * value(text[p]) + value(text[p + 1])
}

pub(crate) fn word_at(text: &[u8], p: usize) -> u32
    requires { FourDigits text.now p }
    ensures { result ≡ word_at text.now p }
{
    let high = byte_at(text, p);
    let low = byte_at(text, p + 2);
    256 * u32::from(high) + u32::from(low)
}

pub(crate) fn line_at(text: &[u8], at: usize, tag: u8) -> Option<FrameLine>
    requires { at ≤ length text.now }
    ensures { LineAt tag text.now at (line_found result) }
{
    let e = digits_end(text, at);
    if e == text.len() {
        return None;
    }
    if text[e] != b'\n' {
        return None;
    }
    let w = (e - at) / 2;
    if w < 1 {
        return None;
    }
    if at + 2 * w != e {
        return None;
    }
    if byte_at(text, at) != tag {
        return None;
    }
    Some(FrameLine {
        count: w - 1,
        next: e + 1,
    })
}

// The place behind a frame of the tag and of m bytes.
pub(crate) fn after(text: &[u8], at: usize, tag: u8, m: usize) -> Option<usize>
    requires { at ≤ length text.now }
    ensures { AfterAs tag m text.now at (next_found result) }
{
    let line = line_at(text, at, tag)?;
    if line.count != m {
        return None;
    }
    Some(line.next)
}
