// Writing: each function puts bytes from a place on and returns the place behind them; and how many bytes that will be.
ghost use Rattle.std.specs.Prelude.{◌≡◌, ◌+◌, ◌≤◌, ◌<◌, length, nat_abs};
ghost use Rattle.edge_text.specs.Decimal.{decimal};
ghost use Rattle.edge_text.specs.Form.{signed, line_of, head_of};
ghost use Rattle.edge_text.specs.Writing.{then, signed_end, Room, Put, Long, SignedRoom, SmallEdge, EdgeRoom, HeadRoom, SmallHead};

use super::Edge;

// The digits, highest first.
fn put_number(v: usize, out: &mut [u8], at: usize) -> usize
    requires { Room (decimal v) at (length out.old) }
    ensures { Put (decimal v) out.old at result out.new }
{
    if v < 10 {
        out[at] = 48 + v as u8;
        return at + 1;
    }
    let e = put_number(v / 10, out, at);
    out[e] = 48 + (v % 10) as u8;
    e + 1
}

fn size(j: i32) -> usize
    requires { nat_abs j ≤ 1000000 }
    ensures { result ≡ nat_abs j }
{
    j.unsigned_abs() as usize
}

// The digits and then one character.
fn put_then(v: usize, stop: u8, out: &mut [u8], at: usize) -> usize
    requires { Room (then v stop) at (length out.old) }
    ensures { Put (then v stop) out.old at result out.new }
{
    let e = put_number(v, out, at);
    out[e] = stop;
    e + 1
}

// A coupling and a line feed.
fn put_signed(j: i32, out: &mut [u8], at: usize) -> usize
    requires { SignedRoom j at (length out.old) }
    ensures { Put (signed_end j) out.old at result out.new }
{
    let v = size(j);
    if j < 0 {
        out[at] = b'-';
        return put_then(v, b'\n', out, at + 1);
    }
    put_then(v, b'\n', out, at)
}

// A line; in the text sites are counted from 1.
pub fn put_line(edge: Edge, out: &mut [u8], at: usize) -> usize
    requires { EdgeRoom edge at (length out.old) }
    ensures { Put (line_of edge) out.old at result out.new }
{
    let p = put_then(edge.from + 1, b' ', out, at);
    let q = put_then(edge.to + 1, b' ', out, p);
    put_signed(edge.coupling, out, q)
}

// The first line, at the front.
pub fn put_head(n: usize, m: usize, out: &mut [u8]) -> usize
    requires { HeadRoom n m (length out.old) }
    ensures { Put (head_of n m) out.old 0 result out.new }
{
    let p = put_then(n, b' ', out, 0);
    put_then(m, b'\n', out, p)
}

// How many digits a number has.
fn digits_of(v: usize) -> usize
    requires { v < 10000000 }
    ensures { Long (decimal v) 7 result }
{
    if v < 10 {
        return 1;
    }
    if v < 100 {
        return 2;
    }
    if v < 1000 {
        return 3;
    }
    if v < 10000 {
        return 4;
    }
    if v < 100000 {
        return 5;
    }
    if v < 1000000 {
        return 6;
    }
    7
}

fn signed_length(j: i32) -> usize
    requires { nat_abs j ≤ 1000000 }
    ensures { Long (signed j) 8 result }
{
    let digits = digits_of(size(j));
    if j < 0 {
        return digits + 1;
    }
    digits
}

pub fn line_length(edge: Edge) -> usize
    requires { SmallEdge edge }
    ensures { Long (line_of edge) 25 result }
{
    let from = digits_of(edge.from + 1);
    let to = digits_of(edge.to + 1);
    from + to + signed_length(edge.coupling) + 3
}

pub fn head_length(n: usize, m: usize) -> usize
    requires { SmallHead n m }
    ensures { Long (head_of n m) 16 result }
{
    digits_of(n) + digits_of(m) + 2
}
