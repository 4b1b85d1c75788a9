// The sites whose byte is 1, in a list. A block without one is passed over in vector code, so that a small cluster costs little.
ghost use Rattle.std.specs.Prelude.{length};
ghost use Rattle.lemmas.specs.Tells.{Tells};
ghost use Rattle.task_write.specs.Marks.{Block, MarkAmong, Room, Collected, Collects};

// Is a site marked from `from` to below `to`? One pass without an exit.
fn some_marked(marks: &[u8], from: usize, to: usize) -> bool
    requires { Block from to (length marks.now) }
    ensures { Tells result (MarkAmong marks.now from to) }
{
    let mut found = false;
    for &mark in &marks[from..to] {
        found |= mark == 1;
    }
    found
}

// Lists the marked sites from `from` to below `to` behind the first `len` entries. A test that steers no jump costs less than one that cannot be foreseen.
fn list_block(marks: &[u8], from: usize, to: usize, list: &mut [u32], len: usize) -> usize
    requires block { Block from to (length marks.now) }
    requires room { Room (length marks.now) (length list.old) }
    requires collected { Collected marks.now from list.old len }
    ensures { Collects marks.now to list.old list.new result }
{
    if !some_marked(marks, from, to) {
        return len;
    }
    let mut k = len;
    for i in from..to {
        list[k] = i as u32;
        k += usize::from(marks[i] == 1);
    }
    k
}

// Lists all marked sites, ascending, and tells how many there are.
pub(crate) fn list_marked(marks: &[u8], list: &mut [u32]) -> usize
    requires { Room (length marks.now) (length list.old) }
    ensures { Collects marks.now (length marks.now) list.old list.new result }
{
    let n = marks.len();
    let mut len = 0;
    for from in (0..n).step_by(64) {
        let to = (from + 64).min(n);
        len = list_block(marks, from, to, list, len);
    }
    len
}
