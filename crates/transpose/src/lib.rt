// The transposition of the matrices of a table, by exchanging bits of the row's number with bits of the place. The bit at place k of
// row r goes to place r of row k, so r and k trade all their bits: stage b trades bit b, for all the rows of a block.
#![tactic(auto)]

ghost use Rattle.std.specs.Prelude.{◌≡◌, false, ℕ, ◌+◌, ◌^◌, ◌≤◌, ◌<◌};
ghost use Rattle.automata.specs.Mask.{bit_of};
ghost use Rattle.rows.specs.Row.{width, levels, mask, stripes};
ghost use Rattle.rows.specs.Table.{blocks, at, row};
ghost use Rattle.transpose.specs.Exchange.{padded, exchanged, swapped, staged, HasRows, OnlyBlock, Copied};
ghost use Rattle.transpose.specs.Transposed.{Transposed};

use rows::{Row, Table};

// 2 ^ w, as many rows or places.
fn power(w: usize) -> usize
    requires { w ≤ levels }
    ensures { result ≡ 2 ^ w }
{
    1 << w
}

// Exchanges bit b in row r, whose number has no bit b, and in its partner r + 2 ^ b. The bits that trade stand at the places with
// bit b in row r, and 2 ^ b below those in the partner: d is where they differ, at the places m without bit b.
fn swap(t: &mut Table, l: usize, b: usize, m: Row, r: usize)
    requires { (l < blocks) × (b < levels) × (mask m ≡ stripes b) × (r < width) × (bit_of r b ≡ false) }
    ensures { OnlyBlock l t.old t.new × HasRows l width (swapped b r (row t.old l)) t.new }
{
    let s = power(b);
    let p = rows::load(t, l, r);
    let q = rows::load(t, l, r + s);
    let v = rows::lowered(p, s);
    let e = rows::xor(v, q);
    let d = rows::and(e, m);
    let u = rows::moved(d, s);
    let x = rows::xor(p, u);
    let y = rows::xor(q, d);
    rows::store(t, l, r, x);
    rows::store(t, l, r + s, y);
}

// Exchanges bit b in the 2 ^ b rows from q on, whose numbers have no bit b, and in their partners.
fn swap_run(t: &mut Table, l: usize, b: usize, m: Row, q: usize)
    requires { (l < blocks) × (b < levels) × (mask m ≡ stripes b) × (q + 2 ^ b ≤ width) × ((i : ℕ) → i < 2 ^ b → bit_of (q + i) b ≡ false) }
    ensures { OnlyBlock l t.old t.new × HasRows l width (staged b q (q + 2 ^ b) (row t.old l)) t.new }
{
    let e = q + power(b);
    for r in q..e {
        swap(t, l, b, m, r);
    }
}

// Exchanges bit b in the first 2 ^ w rows of block l: those without bit b come in runs of 2 ^ b, and their partners after each run.
fn stage(t: &mut Table, l: usize, w: usize, b: usize)
    requires { (l < blocks) × (w ≤ levels) × (b < w) }
    ensures { OnlyBlock l t.old t.new × HasRows l (2 ^ w) (exchanged b (row t.old l)) t.new }
{
    let m = rows::stripes(b);
    let n = power(w);
    let s = power(b);
    for r in (0..n).step_by(2 * s) {
        swap_run(t, l, b, m, r);
    }
}

// Stage b. Most runs are those of stages 0 to 2, of four rows at most: for speed b is a literal there, so that the compiler makes no
// loop of a run.
fn exchange(t: &mut Table, l: usize, w: usize, b: usize)
    requires { (l < blocks) × (w ≤ levels) × (b < w) }
    ensures { OnlyBlock l t.old t.new × HasRows l (2 ^ w) (exchanged b (row t.old l)) t.new }
{
    if b == 0 {
        stage(t, l, w, 0);
    } else if b == 1 {
        stage(t, l, w, 1);
    } else if b == 2 {
        stage(t, l, w, 2);
    } else {
        stage(t, l, w, b);
    }
}

// The least w of which 2 ^ w is n or more.
fn level(n: usize) -> usize
    requires { n ≤ width }
    ensures { (result ≤ levels) × (n ≤ 2 ^ result) }
{
    n.next_power_of_two().ilog2() as usize
}

// Clears the rows of block l from r up to n, which may hold anything.
pub fn clear(t: &mut Table, l: usize, r: usize, n: usize)
    requires { (l < blocks) × (r ≤ n) × (n ≤ width) }
    ensures { OnlyBlock l t.old t.new × HasRows l n (padded r (row t.old l)) t.new }
{
    for i in r..n {
        rows::store(t, l, i, rows::none());
    }
}

// Transposes the matrix in block l, of 2 ^ w rows.
fn turn(t: &mut Table, l: usize, w: usize)
    requires { (l < blocks) × (w ≤ levels) × ((i : ℕ) → i < 2 ^ w → at t.old l i < 2 ^ (2 ^ w)) }
    ensures { OnlyBlock l t.old t.new × HasRows l (2 ^ w) (λ i k. padded (2 ^ w) (row t.old l) k i) t.new }
{
    for b in (0..w).rev() {
        exchange(t, l, w, b);
    }
}

// Transposes the n by n matrices in the first a blocks, in place.
pub fn transpose(t: &mut Table, a: usize, n: usize)
    requires { (a ≤ blocks) × (n ≤ width) × ((l i : ℕ) → l < a → i < n → at t.old l i < 2 ^ n) }
    ensures { Transposed a n t.old t.new }
{
    // For speed: a matrix of no row would have one cleared, as 2 ^ w is 1 or more.
    if n == 0 {
        return;
    }
    let w = level(n);
    for l in 0..a {
        clear(t, l, n, power(w));
        turn(t, l, w);
    }
}

// Copies the first n rows of block l of t into c.
fn copy_rows(t: &Table, l: usize, n: usize, c: &mut Table)
    requires { (l < blocks) × (n ≤ width) }
    ensures { OnlyBlock l c.old c.new × ((i : ℕ) → i < n → at c.new l i ≡ at t.now l i) }
{
    for i in 0..n {
        rows::store(c, l, i, rows::load(t, l, i));
    }
}

// Copies the n by n matrices in the first a blocks of t into c.
fn copy(t: &Table, a: usize, n: usize, c: &mut Table)
    requires { (a ≤ blocks) × (n ≤ width) }
    ensures { Copied a n t.now c.new }
{
    for l in 0..a {
        copy_rows(t, l, n, c);
    }
}

// The transposes of the n by n matrices in the first a blocks of t, in c.
pub fn transposed(t: &Table, a: usize, n: usize, c: &mut Table)
    requires { (a ≤ blocks) × (n ≤ width) × ((l i : ℕ) → l < a → i < n → at t.now l i < 2 ^ n) }
    ensures { Transposed a n t.now c.new }
{
    copy(t, a, n, c);
    transpose(c, a, n);
}
