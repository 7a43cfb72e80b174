// The table that a search works in, lent: three blocks of `stride` rows. Which rows stand in which block, the crates above say.
#![tactic(auto, unfolding(rows::specs::Row::mask, crate::specs::Basis::cell, crate::specs::Basis::written))]

ghost use Rattle.std.specs.Prelude.{◌≡◌, ℕ, ◌^◌, ◌<◌, ◌≤◌, length, get_or};
ghost use Rattle.std.specs.List.{All};
ghost use Rattle.rows.specs.Row.{mask, mask_at};
ghost use Rattle.rows.specs.Product.{product};
ghost use Rattle.basis.specs.Basis.{parts, cell, written, Room};

use rows::Row;

// The stride that serves every row: as many rows a block as a row has bits.
pub const WIDEST: usize = 64;

// A table of that stride.
pub type Basis = [u64; 192];

// Row i of block l, which stands at l * stride + i.
pub fn get(b: &[u64], stride: usize, l: usize, i: usize) -> Row
    requires { Room stride b.now × (l < parts) × (i < stride) }
    ensures { mask result ≡ cell stride b.now l i }
{
    Row {
        bits: b[l * stride + i],
    }
}

// Writes row i of block l.
pub fn put(b: &mut [u64], stride: usize, l: usize, i: usize, x: Row)
    requires { Room stride b.old × (l < parts) × (i < stride) }
    ensures { b.new ≡ written stride b.old l i (mask x) }
{
    b[l * stride + i] = x.bits;
}

// The row x times the matrices in N blocks, block l[k] for row k, in one pass over the bits of x, however many bits n it has.
pub fn times_each<const N: usize>(b: &[u64], stride: usize, l: [usize; N], x: Row) -> [Row; N]
    requires { Room stride b.now × (N ≤ parts) × All (λ m. m < parts) l × (mask x < 2 ^ stride) }
    ensures { (k n : ℕ) → k < N → mask x < 2 ^ n → mask_at result k ≡ product n (mask x) (cell stride b.now (get_or l.entry k 0)) }
{
    rows::times_each(
        x,
        |k, i| -> Row
            requires { Room stride b.now × (k < N) × (N ≤ parts) × (length l ≡ N) × All (λ m. m < parts) l × (i < stride) }
            ensures { mask result ≡ cell stride b.entry.now (get_or l k 0) i }
        { get(b, stride, l[k], i) },
    )
}
