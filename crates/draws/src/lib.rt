// Draws that can be repeated: xoshiro256** of Blackman and Vigna. A source is handed in and handed back, by value.
#![tactic(auto)]

pub mod fills;
mod passes;
mod rows;

ghost use Rattle.std.specs.Prelude.{◌≡◌, ◌*◌, ◌%◌, ◌^◌, ◌≤◌};
ghost use Rattle.draws.specs.Words.{source, rotl, stepped, is_blank};
ghost use Rattle.draws.specs.Draw.{limit, flipped, tried, within, Topped, new_of, word_of, coin_of, below_of};
ghost use Rattle.draws.specs.Rows.{permutation_of};
ghost use Rattle.draws.specs.Answer.{drawn_of, left_of, row_of};

use paper::Refusal;

// The four words of the state; not all of them may be 0.
#[derive(Clone, Copy)]
pub struct Source {
    pub s0: u64,
    pub s1: u64,
    pub s2: u64,
    pub s3: u64,
}

// What is drawn, and the source that it leaves. A refusal is told alone: it leaves the source as lent.
#[derive(Clone, Copy)]
pub struct Drawn {
    pub value: u64,
    pub source: Source,
}

// The same of a permutation; entries past its length are 0.
#[derive(Clone, Copy)]
pub struct Row {
    pub row: [u8; 8],
    pub source: Source,
}

// ---- a word

// The next word, of a source that is known to be no blank one.
fn step(s: Source) -> Drawn
    ensures { drawn_of s (Ok result) ≡ stepped s }
{
    let value = s.s1.wrapping_mul(5).rotate_left(7).wrapping_mul(9);
    let t = s.s1 << 17;
    let a = s.s2 ^ s.s0;
    let b = s.s3 ^ s.s1;
    let source = Source {
        s0: s.s0 ^ b,
        s1: s.s1 ^ a,
        s2: a ^ t,
        s3: b.rotate_left(45),
    };
    Drawn { value, source }
}

fn coin_step(s: Source) -> Drawn
    ensures { drawn_of s (Ok result) ≡ flipped s }
{
    let d = step(s);
    Drawn {
        value: d.value >> 63,
        source: d.source,
    }
}

// ---- a number below m

fn limit_of(m: u64) -> u64
    requires { 1 ≤ m }
    ensures { result ≡ limit m }
{
    m * (4294967296 / m)
}

// The budget is how many words in a row may be tried. Drawing many numbers, `top` is worked out once.
fn number(budget: usize, m: u64, top: u64, s: Source) -> Result<Drawn, Refusal>
    requires { Topped m top }
    ensures { drawn_of s result ≡ tried s budget m s }
{
    let mut source = s;
    for _ in 0..budget {
        let d = step(source);
        let high = d.value >> 32;
        let rest = high % m;
        source = d.source;
        if high < top {
            return Ok(Drawn {
                value: rest,
                source,
            });
        }
    }
    Err(Refusal::Draws)
}

fn number_ok(top: u32, m: u32) -> bool
    ensures { result ≡ within 1 top m }
{
    (1..=top).contains(&m)
}

// ---- for any caller

impl Source {
    pub fn new(s0: u64, s1: u64, s2: u64, s3: u64) -> Result<Source, Refusal>
        ensures { left_of (source s0 s1 s2 s3) result ≡ new_of (source s0 s1 s2 s3) }
    {
        let source = Source { s0, s1, s2, s3 };
        if source.is_blank() {
            return Err(Refusal::Draws);
        }
        Ok(source)
    }

    pub fn is_blank(self) -> bool
        ensures { result ≡ is_blank self }
    {
        (self.s0 == 0) & (self.s1 == 0) & (self.s2 == 0) & (self.s3 == 0)
    }

    // The next word.
    pub fn next(self) -> Result<Drawn, Refusal>
        ensures { drawn_of self result ≡ word_of self }
    {
        if self.is_blank() {
            return Err(Refusal::Draws);
        }
        Ok(step(self))
    }

    // The top bit of a word.
    pub fn coin(self) -> Result<Drawn, Refusal>
        ensures { drawn_of self result ≡ coin_of self }
    {
        if self.is_blank() {
            return Err(Refusal::Draws);
        }
        Ok(coin_step(self))
    }

    // A number below m, of 1 to 4,096. The 64th word in a row that is taken again refuses.
    pub fn below(self, m: u32) -> Result<Drawn, Refusal>
        ensures { drawn_of self result ≡ below_of 64 m self }
    {
        self.below_within(64, m)
    }

    // The same with another budget than 64 words, so that the refusal can be met.
    pub fn below_within(self, budget: usize, m: u32) -> Result<Drawn, Refusal>
        ensures { drawn_of self result ≡ below_of budget m self }
    {
        if self.is_blank() {
            return Err(Refusal::Draws);
        }
        if !number_ok(4096, m) {
            return Err(Refusal::Draws);
        }
        let n = u64::from(m);
        number(budget, n, limit_of(n), self)
    }

    // A permutation of 2 to 8 members.
    pub fn permutation(self, members: usize) -> Result<Row, Refusal>
        ensures { row_of self result ≡ permutation_of members self }
    {
        if self.is_blank() {
            return Err(Refusal::Draws);
        }
        if !rows::members_ok(members) {
            return Err(Refusal::Draws);
        }
        rows::shuffle(members, self)
    }
}
