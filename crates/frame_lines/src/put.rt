// Numbers as the lines of an answer.
ghost use Rattle.std.specs.Prelude.{◌≡◌, ◌+◌, ◌/◌, ◌%◌, ◌<◌, length, [], ◌∷◌, map};
ghost use Rattle.std.proofs.lemmas.List.Edits.{sets};
ghost use Rattle.paper.specs.Answer.Frame.{digit, hex, line, two_bytes, spin_byte};
ghost use Rattle.frame_lines.specs.Writing.{Room, WordRoom, WordsRoom, Put};

fn digit_of(x: u8) -> u8
    requires { x < 16 }
    ensures { result ≡ digit x }
{
    if x < 10 { b'0' + x } else { 87 + x }
}

// A byte's two digits.
fn put_byte(b: u8, out: &mut [u8], at: usize)
    requires { at + 1 < length out.old }
    ensures { out.new ≡ sets out.old at (hex (b ∷ [])) }
{
    out[at] = digit_of(b / 16);
    out[at + 1] = digit_of(b % 16);
}

// A number's two bytes, high first.
fn put_word(x: u32, out: &mut [u8], at: usize)
    requires { WordRoom x at (length out.old) }
    ensures { out.new ≡ sets out.old at (hex (x / 256 ∷ x % 256 ∷ [])) }
{
    put_byte((x / 256) as u8, out, at);
    put_byte((x % 256) as u8, out, at + 2);
}

pub(crate) fn put_words(tag: u8, xs: &[u32], out: &mut [u8], at: usize) -> usize
    requires { WordsRoom tag xs.now at (length out.old) }
    ensures { Put (line tag (two_bytes xs.now)) out.old at result out.new }
{
    put_byte(tag, out, at);
    for (k, &x) in xs.iter().enumerate() {
        put_word(x, out, at + 4 * k + 2);
    }
    let end = at + 4 * xs.len() + 2;
    out[end] = b'\n';
    end + 1
}

fn spin_byte(z: i8) -> u8
    ensures { result ≡ spin_byte z }
{
    z.cast_unsigned()
}

pub(crate) fn put_spins(tag: u8, xs: &[i8], out: &mut [u8], at: usize) -> usize
    requires { Room (line tag (map spin_byte xs.now)) at (length out.old) }
    ensures { Put (line tag (map spin_byte xs.now)) out.old at result out.new }
{
    put_byte(tag, out, at);
    for (k, &spin) in xs.iter().enumerate() {
        put_byte(spin_byte(spin), out, at + 2 * k + 2);
    }
    let end = at + 2 * xs.len() + 2;
    out[end] = b'\n';
    end + 1
}
