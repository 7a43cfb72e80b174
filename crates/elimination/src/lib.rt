// Elimination by Gauss and Jordan over GF(2), indexed by pivot, in a lent basis: block 0 has the basis row of each pivot, block 1 the rows
// found. Where the coefficients are kept, block 2 has for each pivot the rows found that make its basis row.
#![tactic(auto)]

ghost use Rattle.std.specs.Prelude.{◌≡◌, Bool, true, ℕ, ◌+◌, ◌^◌, ◌≤◌, ◌<◌};
ghost use Rattle.std.specs.Int.Bits.{bit_xor, bit_or};
ghost use Rattle.automata.specs.Mask.{bit_of};
ghost use Rattle.rows.specs.Row.{width, mask};
ghost use Rattle.basis.specs.Basis.{parts, bits, Room};
ghost use Rattle.elimination.specs.Place.{Folded, Unused, Added, BasisIn, Covered, LeftOf, New, Placed};

use rows::Row;

// How many rows are found, their pivots, and a mask of every bit that one of them has.
#[derive(Clone, Copy)]
pub struct Size {
    pub count: usize,
    pub pivots: Row,
    pub used: Row,
}

impl Size {
    // No row is found yet.
    pub fn empty() -> Size
        ensures { (result.count ≡ 0) × (mask result.pivots ≡ 0) × (mask result.used ≡ 0) }
    {
        Size {
            count: 0,
            pivots: rows::none(),
            used: rows::none(),
        }
    }
}

// Adds x to the rows of block l below n whose neighbours in block 0 have bit q.
fn fold(b: &mut [u64], stride: usize, l: usize, n: usize, q: usize, x: Row)
    requires { (l < parts) × (n ≤ stride) × (q < width) × Room stride b.old }
    ensures { Folded stride (λ j. j < n) l q (mask x) b.old b.new }
{
    for j in 0..n {
        let e = basis::get(b, stride, 0, j);
        let o = rows::has(e, q);
        let u = rows::when(o, x);
        let d = basis::get(b, stride, l, j);
        basis::put(b, stride, l, j, rows::xor(d, u));
    }
}

// The same for the rows of the pivots p, of n bits. Where no row found has bit q, no basis row has it, and nothing is to be done. The span
// of the pivots may be more than a block has rows.
fn spread(b: &mut [u64], stride: usize, l: usize, n: usize, p: Row, v: Row, q: usize, x: Row)
    requires { (l < parts) × (n ≤ stride) × (q < width) × Room stride b.old × Unused stride n (mask p) (mask v) q b.old }
    ensures { Folded stride (λ j. (j < n) × (bit_of (mask p) j ≡ true)) l q (mask x) b.old b.new }
{
    if rows::has(v, q) {
        let k = rows::span(p).min(stride);
        fold(b, stride, l, k, q, x);
    }
}

// Row y, found next, whose part x outside the basis has the new pivot q.
fn add(b: &mut [u64], stride: usize, n: usize, s: Size, q: usize, x: Row, y: Row) -> Size
    requires { (n ≤ width) × (n ≤ stride) × (q < n) × (s.count < n) × Room stride b.old × Unused stride n (mask s.pivots) (mask s.used) q b.old }
    ensures { Added stride n s.count (mask s.pivots) q (mask x) (mask y) b.old b.new × (result.count ≡ s.count + 1) × (mask result.pivots ≡ bit_xor (mask s.pivots) (2 ^ q)) × (mask result.used ≡ bit_or (mask s.used) (mask y)) }
{
    let d = s.count;
    let p = s.pivots;
    let v = s.used;
    spread(b, stride, 0, n, p, v, q, x);
    basis::put(b, stride, 0, q, x);
    basis::put(b, stride, 1, d, y);
    Size {
        count: d + 1,
        pivots: rows::xor(p, rows::unit(q)),
        used: rows::or(v, y),
    }
}

// What is left of y when the basis rows at its pivots are taken off.
pub fn left_of(b: &[u64], stride: usize, s: Size, y: Row) -> Row
    requires { Room stride b.now × (mask y < 2 ^ stride) }
    ensures { LeftOf stride (mask s.pivots) (mask y) b.now (mask result) }
{
    let p = s.pivots;
    let z = rows::and(y, p);
    let [e]: [Row; 1] = basis::times_each(b, stride, [0], z);
    rows::xor(y, e)
}

// Row y, found next, of which x is left: it is one more of the rows found.
pub fn extend(b: &mut [u64], stride: usize, n: usize, s: Size, x: Row, y: Row) -> Size
    requires { (n ≤ width) × (n ≤ stride) × Room stride b.old × (mask y < 2 ^ n) × ((C : ℕ → ℕ → Bool) × BasisIn stride n s.count (mask s.pivots) C b.old) × Covered stride s.count (mask s.used) b.old × LeftOf stride (mask s.pivots) (mask y) b.old (mask x) × (0 < mask x) }
    ensures { (C : ℕ → ℕ → Bool) → BasisIn stride n s.count (mask s.pivots) C b.old → (C' : ℕ → ℕ → Bool) × (c : ℕ → Bool) × New stride n s.count (mask y) C' c b.old b.new result.count (mask result.pivots) (mask result.used) }
{
    let q = rows::lowest(x);
    add(b, stride, n, s, q, x, y)
}

// Row y of n bits is an xor of the rows found, and nothing changes; or it is one more of them.
pub fn insert(b: &mut [u64], stride: usize, n: usize, s: Size, y: Row) -> Size
    requires { (n ≤ width) × (n ≤ stride) × Room stride b.old × (mask y < 2 ^ n) × ((C : ℕ → ℕ → Bool) × BasisIn stride n s.count (mask s.pivots) C b.old) × Covered stride s.count (mask s.used) b.old }
    ensures { (C : ℕ → ℕ → Bool) → BasisIn stride n s.count (mask s.pivots) C b.old → (C' : ℕ → ℕ → Bool) × (c : ℕ → Bool) × Placed stride n s.count (mask s.pivots) (mask s.used) (mask y) C C' c b.old b.new result.count (mask result.pivots) (mask result.used) }
{
    let left = left_of(b, stride, s, y);
    if rows::is_none(left) {
        return s;
    }
    extend(b, stride, n, s, left, y)
}

// The rows found that make a row, and the rows found once it is placed.
#[derive(Clone, Copy)]
pub struct Spot {
    pub row: Row,
    pub size: Size,
}

// The same with coefficients: which of the rows found make y. One function for both would ask at each step whether coefficients are kept.
pub fn place(b: &mut [u64], stride: usize, n: usize, s: Size, y: Row) -> Spot
    requires { (n ≤ width) × (n ≤ stride) × Room stride b.old × (mask y < 2 ^ n) × BasisIn stride n s.count (mask s.pivots) (bits stride b.old 2) b.old × Covered stride s.count (mask s.used) b.old }
    ensures { Placed stride n s.count (mask s.pivots) (mask s.used) (mask y) (bits stride b.old 2) (bits stride b.new 2) (bit_of (mask result.row)) b.old b.new result.size.count (mask result.size.pivots) (mask result.size.used) }
{
    let d = s.count;
    let p = s.pivots;
    let v = s.used;
    let z = rows::and(y, p);
    let [e, c]: [Row; 2] = basis::times_each(b, stride, [0, 2], z);
    let left = rows::xor(y, e);
    if rows::is_none(left) {
        return Spot { row: c, size: s };
    }
    let q = rows::lowest(left);
    let u = rows::unit(d);
    let own = rows::xor(c, u);
    spread(b, stride, 2, n, p, v, q, own);
    basis::put(b, stride, 2, q, own);
    let t = add(b, stride, n, s, q, left, y);
    Spot { row: u, size: t }
}
