// Runs each text of standard input through frame::run and compares its answer with the one stored behind it, and writes how many agree and
// how many do not. A case is two numbers of five decimal digits, the lengths of the text and of its answer, on a line of their own; then both.
#![tactic(auto)]

ghost use Rattle.std.specs.Prelude.{◌≡◌, ◌≤◌, length};

use input::read_full;
use std::alloc::{AllocError, Global};
use std::io;
use std::io::Read;

#[derive(Clone, Copy, Debug, PartialEq, Eq)]
enum Verdict {
    Agrees,
    Differs,
}

// A byte that is no digit reads as 0.
fn value(digit: u8) -> usize
    ensures { result ≤ 9 }
{
    char::from(digit).to_digit(10).unwrap_or(0) as usize
}

fn number(digits: [u8; 5]) -> usize
    ensures { result ≤ 99999 }
{
    let mut number = 0;
    for &digit in &digits {
        number = 10 * number + value(digit);
    }
    number
}

fn compare(text: &[u8], want: &[u8]) -> Verdict {
    let mut out = [0u8; 8192];
    match frame::run(text, &mut out) {
        Some(m) if &out[..m] == want => Verdict::Agrees,
        _ => Verdict::Differs,
    }
}

// Room for one case at a time: a text and its answer.
#[derive(Debug, Drop)]
struct Room {
    text: Vec<u8>,
    want: Vec<u8>,
}

impl Room {
    fn new(alloc: Global) -> Result<Room, AllocError> {
        Ok(Room {
            text: vec![in alloc; 0u8; 65536]?,
            want: vec![in alloc; 0u8; 8192]?,
        })
    }

    // No verdict where the input has ended. A case for which there is no room differs.
    fn next<R: Read>(&mut self, input: &mut R) -> io::Result<Option<Verdict>> {
        let mut head = [0u8; 12];
        if read_full(input, &mut head)? < head.len() {
            return Ok(None);
        }
        let [a, b, c, d, e, _, f, g, h, i, j, _] = head;
        let n = number([a, b, c, d, e]);
        let m = number([f, g, h, i, j]);
        if self.text.len() < n || self.want.len() < m {
            return Ok(Some(Verdict::Differs));
        }
        let text = &mut self.text[..n];
        let want = &mut self.want[..m];
        read_full(input, text)?;
        read_full(input, want)?;
        Ok(Some(compare(text, want)))
    }
}

// Says which case differs, counted from 0. The count of turns makes the loop end, whatever the input.
fn run_cases<R: Read>(rt: &impl Print, mut room: Room, input: &mut R) -> io::Result<()> {
    let mut agree = 0u32;
    let mut differ = 0u32;
    for at in 0..1000000 {
        match room.next(input)? {
            None => break,
            Some(Verdict::Agrees) => agree = agree.saturating_add(1),
            Some(Verdict::Differs) => {
                println!(rt; "differs: {at}")?;
                differ = differ.saturating_add(1);
            }
        }
    }
    println!(rt; "{agree} agree, {differ} differ")
}

fn main(rt: HostRuntime) -> io::Result<()> {
    run_cases(&rt, Room::new(rt.alloc())?, &mut rt.stdin())
}
