// A row times several matrices of a table in one pass over its bits, those of all letters into a line.
#![tactic(auto, unfolding(rows::specs::Row::mask))]

ghost use Rattle.std.specs.Prelude.{◌≡◌, ℕ, ◌+◌, ◌^◌, ◌≤◌, ◌<◌, length, get_or, set};
ghost use Rattle.std.specs.List.{All};
ghost use Rattle.rows.specs.Row.{width, mask, mask_at};
ghost use Rattle.rows.specs.Table.{blocks, at};
ghost use Rattle.rows.specs.Product.{product};
ghost use Rattle.kernels.specs.Products.{Products, Put};

use rows::{Row, Table};

// The row x times the matrices in N blocks, block l[k] for row k, in one pass over the bits of x.
pub fn times_each<const N: usize>(t: &Table, l: [usize; N], x: Row) -> [Row; N]
    requires { (N ≤ blocks) × All (λ b. b < blocks) l }
    ensures { (k n : ℕ) → k < N → mask x < 2 ^ n → mask_at result k ≡ product n (mask x) (at t.now (get_or l.entry k 0)) }
{
    rows::times_each(
        x,
        |k, i| -> Row
            requires { (k < N) × (N ≤ blocks) × (length l ≡ N) × All (λ b. b < blocks) l × (i < width) }
            ensures { mask result ≡ at t.entry.now (get_or l k 0) i }
        { rows::load(t, l[k], i) },
    )
}

// A row for each block, lent.
pub type Line = [u64; 8];

// Writes N rows into a line, from row l on.
pub fn put_all<const N: usize>(s: &mut Line, l: usize, x: [Row; N])
    requires { (l + N ≤ blocks) × (length s.old ≡ blocks) }
    ensures { Put l N x.entry s.old s.new }
{
    for k in 0..N {
        put(s, l + k, x[k]);
    }
}

// The row x times the matrices in the first a blocks, into a line.
pub fn times_all(t: &Table, a: usize, x: Row, s: &mut Line)
    requires { (a ≤ blocks) × (length s.old ≡ blocks) }
    ensures { (n : ℕ) → mask x < 2 ^ n → Products a n (mask x) (at t.now) s.new }
{
    if a <= 2 {
        put_all(s, 0, times_each(t, [0, 1], x));
        return;
    }
    put_all(s, 0, times_each(t, [0, 1, 2, 3], x));
    if 4 < a {
        put_all(s, 4, times_each(t, [4, 5, 6, 7], x));
    }
}

// Row l of a line.
pub fn pick(s: &Line, l: usize) -> Row
    requires { l < blocks }
    ensures { mask result ≡ get_or s.now l 0 }
{
    Row { bits: s[l] }
}

// Writes row l of a line.
pub fn put(s: &mut Line, l: usize, x: Row)
    requires { l < blocks }
    ensures { s.new ≡ set s.old l (mask x) }
{
    s[l] = x.bits;
}
