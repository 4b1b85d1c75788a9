// Reading: each function looks at the text from a place on. A number's digits are passed once; then its first is looked at again.
ghost use Rattle.std.specs.Prelude.{◌≡◌, true, ◌≤◌, length};
ghost use Rattle.lemmas.specs.Tells.{Tells};
ghost use Rattle.edge_text.specs.Decimal.{is_digit, step_to};
ghost use Rattle.edge_text.specs.Outcome.{number_found, line_found};
ghost use Rattle.edge_text.specs.Reading.{Place, Ended, Bounded, RunAs, NumberAs, ExactAs, SiteAs, MinusAs, CouplingAs, LineAs, HeadAs};
ghost use Rattle.edge_text.specs.Reading.{Counts, HasMinus, plus_code, minus_code};

use super::{Parsed, ParsedLine};

// A number that is kept grows no more from here on: every number that a list may hold is smaller.
const LIMIT: usize = 10000000;

// 0 to 9 are the codes 48 to 57.
fn is_digit(c: u8) -> bool
    ensures { result ≡ is_digit c }
{
    (48 <= c) & (c < 58)
}

fn more(value: usize, c: u8) -> usize
    requires { is_digit c ≡ true }
    ensures { result ≡ step_to value c }
{
    if value < LIMIT {
        10 * value + usize::from(c - b'0')
    } else {
        value
    }
}

// Digits: their value, kept small, and the place behind them.
fn digits(text: &[u8], at: usize) -> Parsed
    requires { at ≤ length text.now }
    ensures { RunAs text.now at result.value result.end }
{
    let mut value = 0;
    for end in at..text.len() {
        let c = text[end];
        if !is_digit(c) {
            return Parsed { value, end };
        }
        value = more(value, c);
    }
    Parsed {
        value,
        end: text.len(),
    }
}

// Digits without a leading zero, with the character `stop` behind them.
fn number(text: &[u8], at: usize, stop: u8) -> Option<Parsed>
    requires { Ended text.now at stop }
    ensures { NumberAs text.now at stop (number_found result) }
{
    let Parsed { value, end } = digits(text, at);
    if end == at {
        return None;
    }
    if end == text.len() {
        return None;
    }
    if text[end] != stop {
        return None;
    }
    if (text[at] == b'0') & (at + 1 < end) {
        return None;
    }
    Some(Parsed {
        value,
        end: end + 1,
    })
}

// A number that is at most `most`.
fn exact(text: &[u8], at: usize, stop: u8, most: usize) -> Option<Parsed>
    requires { Bounded text.now at stop most }
    ensures { ExactAs text.now at stop most (number_found result) }
{
    let found = number(text, at, stop)?;
    if most < found.value {
        return None;
    }
    Some(found)
}

// A site of n, counted from 1 in the text and from 0 here, and a blank.
fn site(text: &[u8], at: usize, n: usize) -> Option<Parsed>
    requires { Place text.now at n }
    ensures { SiteAs text.now at n (number_found result) }
{
    let Parsed { value, end } = exact(text, at, b' ', n)?;
    if value == 0 {
        return None;
    }
    Some(Parsed {
        value: value - 1,
        end,
    })
}

fn plus_code(v: usize) -> usize
    ensures { result ≡ plus_code v }
{
    if v <= 1000000 { 1000001 + v } else { 2000002 }
}

fn minus_code(v: usize) -> usize
    ensures { result ≡ minus_code v }
{
    if v <= 1000000 { 1000001 - v } else { 2000002 }
}

fn has_minus(text: &[u8], at: usize) -> bool
    ensures { Tells result (HasMinus text.now at) }
{
    at < text.len() && text[at] == b'-'
}

// What stands behind a minus: no zero.
fn minus(text: &[u8], at: usize) -> Option<Parsed>
    requires { at ≤ length text.now }
    ensures { MinusAs text.now at (number_found result) }
{
    let Parsed { value, end } = number(text, at, b'\n')?;
    if value < 1 {
        return None;
    }
    Some(Parsed {
        value: minus_code(value),
        end,
    })
}

// A coupling of any length and a line feed.
fn coupling(text: &[u8], at: usize) -> Option<Parsed>
    requires { at ≤ length text.now }
    ensures { CouplingAs text.now at (number_found result) }
{
    if has_minus(text, at) {
        return minus(text, at + 1);
    }
    let Parsed { value, end } = number(text, at, b'\n')?;
    Some(Parsed {
        value: plus_code(value),
        end,
    })
}

// A line whose sites are among n.
pub fn line(text: &[u8], at: usize, n: usize) -> Option<ParsedLine>
    requires { Place text.now at n }
    ensures { LineAs text.now at n (line_found result) }
{
    let from = site(text, at, n)?;
    let to = site(text, from.end, n)?;
    let coupling = coupling(text, to.end)?;
    Some(ParsedLine {
        from: from.value,
        to: to.value,
        code: coupling.value as u32,
        end: coupling.end,
    })
}

// The first line of a list for n sites, which says that at most so many lines follow.
pub fn head(text: &[u8], n: usize, most: usize) -> Option<Parsed>
    requires { Counts n most }
    ensures { HeadAs text.now n most (number_found result) }
{
    let sites = exact(text, 0, b' ', n)?;
    if sites.value != n {
        return None;
    }
    exact(text, sites.end, b'\n', most)
}
