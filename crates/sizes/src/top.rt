// The four largest sizes.
ghost use Rattle.std.specs.Prelude.{ℕ, length};
ghost use Rattle.sizes.specs.Steps.{ones_or_more, all_or_more, Top4, with, Falling};

// Four sizes, falling.
#[derive(Clone, Copy)]
pub(crate) struct Top(
    pub(crate) u32,
    pub(crate) u32,
    pub(crate) u32,
    pub(crate) u32,
);

// The four largest of five sizes.
fn insert(t: Top, x: u32) -> Top
    ensures { (g : ℕ → ℕ) → Falling g → Top4 g t.0 t.1 t.2 t.3 → Top4 (with g x) result.0 result.1 result.2 result.3 }
{
    let a = t.0;
    let b = t.1;
    let c = t.2;
    let d = t.3;
    if x <= d {
        return Top(a, b, c, d);
    }
    if x <= c {
        return Top(a, b, c, x);
    }
    if x <= b {
        return Top(a, b, x, c);
    }
    if x <= a {
        return Top(a, x, b, c);
    }
    Top(x, a, b, c)
}

// The four largest of so many sizes 1, zero filled.
fn top_ones(ones: u32) -> Top
    ensures { Top4 (ones_or_more ones) result.0 result.1 result.2 result.3 }
{
    match ones {
        0 => Top(0, 0, 0, 0),
        1 => Top(1, 0, 0, 0),
        2 => Top(1, 1, 0, 0),
        3 => Top(1, 1, 1, 0),
        _ => Top(1, 1, 1, 1),
    }
}

// The four largest sizes of the list and of so many sizes 1, zero filled.
pub(crate) fn top4_sizes(sizes: &[u32], ones: u32) -> Top
    ensures { Top4 (all_or_more ones sizes.now (length sizes.now)) result.0 result.1 result.2 result.3 }
{
    let mut t = top_ones(ones);
    for &size in sizes {
        t = insert(t, size);
    }
    t
}
