// Products of a row with the matrices of two well-formed records side by side, taken from the records' bytes.
#![tactic(auto)]

ghost use Rattle.std.specs.Prelude.{◌≡◌, true, ℕ, ◌+◌, ◌*◌, ◌/◌, ◌^◌, ◌<◌, ◌≤◌, length};
ghost use Rattle.std.specs.Int.Bits.{bit_xor};
ghost use Rattle.rows.specs.Row.{width, mask, mask_at};
ghost use Rattle.rows.specs.Table.{blocks};
ghost use Rattle.rows.specs.Product.{product};
ghost use Rattle.rows.specs.Beside.{beside};
ghost use Rattle.record.specs.Record.{states_of, letters_of, row_at, WellFormed};
ghost use Rattle.products.specs.Lines.{Both, Single};

use kernels::Line;
use rows::Row;

// A row in two halves: its bits on the states of the first record, and on those of the second.
#[derive(Clone, Copy)]
struct Halves {
    low: Row,
    high: Row,
}

// The halves of x, where the first record has n states.
fn split(n: usize, x: Row) -> Halves
    requires { (n < width) × (mask x < 2 ^ width) }
    ensures { (mask result.high ≡ mask x / 2 ^ n) × (mask result.low ≡ bit_xor (mask x) (mask x / 2 ^ n * 2 ^ n)) }
{
    let h = rows::lowered(x, n);
    Halves {
        low: rows::xor(x, rows::moved(h, n)),
        high: h,
    }
}

// Whether each half of x has at most one bit, as a row of two deterministic machines has.
pub fn are_single(n: usize, x: Row) -> bool
    requires { (n < width) × (mask x < 2 ^ width) }
    ensures { result ≡ true → Single (mask x / 2 ^ n) × Single (bit_xor (mask x) (mask x / 2 ^ n * 2 ^ n)) }
{
    let p = split(n, x);
    if !products::is_single(p.high) {
        return false;
    }
    products::is_single(p.low)
}

// The row x, whose halves have at most one bit each, times the matrix of letter l of two records of n and j states side by side.
pub fn times_singles(first: &[u8], second: &[u8], n: usize, j: usize, l: usize, x: Row) -> Row
    requires { WellFormed first.now × WellFormed second.now × (letters_of second.now ≡ letters_of first.now) × (l < letters_of first.now) × (mask x < 2 ^ (states_of first.now + states_of second.now)) × (n ≡ states_of first.now) × (j ≡ states_of second.now) × Single (mask x / 2 ^ n) × Single (bit_xor (mask x) (mask x / 2 ^ n * 2 ^ n)) }
    ensures { mask result ≡ product (states_of first.now + states_of second.now) (mask x) (beside (row_at first.now) (row_at second.now) (states_of first.now) l) }
{
    let p = split(n, x);
    let y = products::times_single(first, n, l, p.low);
    let z = products::times_single(second, j, l, p.high);
    rows::xor(y, rows::moved(z, n))
}

// The row x times the matrices of N letters from l on of two records side by side, in one pass over the bits of each half.
pub fn times_each_both<const N: usize>(first: &[u8], second: &[u8], l: usize, x: Row) -> [Row; N]
    requires { WellFormed first.now × WellFormed second.now × (letters_of second.now ≡ letters_of first.now) × (l + N ≤ letters_of first.now) × (mask x < 2 ^ (states_of first.now + states_of second.now)) }
    ensures { (k : ℕ) → k < N → mask_at result k ≡ product (states_of first.now + states_of second.now) (mask x) (beside (row_at first.now) (row_at second.now) (states_of first.now) (l + k)) }
{
    let n = record::size(first[5]);
    let p = split(n, x);
    let mut y: [Row; N] = products::times_each(first, l, p.low);
    let z: [Row; N] = products::times_each(second, l, p.high);
    for k in 0..N {
        y[k] = rows::xor(y[k], rows::moved(z[k], n));
    }
    y
}

// The row x times the matrix of letter l of two records side by side.
pub fn times_pair(first: &[u8], second: &[u8], l: usize, x: Row) -> Row
    requires { WellFormed first.now × WellFormed second.now × (letters_of second.now ≡ letters_of first.now) × (l < letters_of first.now) × (mask x < 2 ^ (states_of first.now + states_of second.now)) }
    ensures { mask result ≡ product (states_of first.now + states_of second.now) (mask x) (beside (row_at first.now) (row_at second.now) (states_of first.now) l) }
{
    let [y]: [Row; 1] = times_each_both(first, second, l, x);
    y
}

// The row x times the matrix of every letter of two records side by side, into a line: a line for each, then both merged.
pub fn times_both(first: &[u8], second: &[u8], x: Row, s: &mut Line)
    requires { WellFormed first.now × WellFormed second.now × (letters_of second.now ≡ letters_of first.now) × (mask x < 2 ^ (states_of first.now + states_of second.now)) × (length s.old ≡ blocks) }
    ensures { Both first.now second.now (mask x) s.new }
{
    let n = record::size(first[5]);
    let a = record::size(first[6]);
    let p = split(n, x);
    let mut t = [0u64; 8];
    products::times_all(first, p.low, s);
    products::times_all(second, p.high, &mut t);
    for l in 0..a {
        let y = kernels::pick(&t, l);
        let z = rows::moved(y, n);
        kernels::put(s, l, rows::xor(kernels::pick(s, l), z));
    }
}
