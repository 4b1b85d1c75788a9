// Replays a list of the published Rust's answers (format: runs/src/replay.rs) through the port, and writes how many cases agree. It is given the
// list on standard input. Shared with the port are the types of its calls and what these say of modes and forms; no rule and no move.
#![tactic(auto)]

mod bad_list;
mod case;
mod digits;
mod head;
mod outputs;
mod reader;
mod tally;

ghost use Rattle.std.specs.Prelude.{◌≡◌, ◌≤◌, length};

use bad_list::BadList;
use case::Case;
use input::read_full;
use outputs::Played;
use reader::Reader;
use std::alloc::Global;
use std::io;
use std::io::Read;
use tally::Tally;

// A text that fills two parts of so many bytes is too long for any list.
const PART: usize = 65536;

// Nothing may stand behind the last case.
fn replay(alloc: Global, text: &[u8]) -> Result<Tally, BadList> {
    let bytes = digits::decode(alloc, text)?;
    let mut list = Reader::new(&bytes);
    let mut tally = Tally::new();
    for _ in 0..list.word()? {
        let head = list.head()?;
        let case = Case::read(alloc, &mut list, head)?;
        let listed = Played::read(alloc, &mut list, head)?;
        tally.note(head, case.play(alloc)? == listed);
    }
    if list.is_empty() {
        Ok(tally)
    } else {
        Err(BadList::Long)
    }
}

// The whole text; none where it fills both parts. The second is read even where the first met an end: a terminal's input may go on behind it.
fn read_text<R: Read>(alloc: Global, input: &mut R) -> io::Result<Option<Vec<u8>>> {
    let mut part = vec![in alloc; 0u8; PART]?;
    let mut text = Vec::with_capacity(alloc, 2 * PART)?;
    let first = read_full(input, &mut part)?;
    text.extend_from_slice(&part[..first])?;
    let second = read_full(input, &mut part)?;
    text.extend_from_slice(&part[..second])?;
    Ok(if second == PART { None } else { Some(text) })
}

fn main(rt: HostRuntime) -> io::Result<()> {
    let alloc = rt.alloc();
    let replayed = match read_text(alloc, &mut rt.stdin())? {
        Some(text) => replay(alloc, &text),
        None => Err(BadList::Long),
    };
    match replayed {
        Ok(tally) => print!(rt; "{tally}"),
        Err(BadList::Memory(error)) => Err(io::Error::from(error)),
        Err(error) => println!(rt; "bad list: {error}"),
    }
}
