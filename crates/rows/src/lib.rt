// Rows over GF(2) as unsigned masks: bit j, worth 2^j, stands for state j. How wide a row is stands behind the names Row and
// Table: the crates above use these functions and those of `kernels` alone, and their contracts name no width but `width`.
#![tactic(auto, unfolding(crate::specs::Row::mask, crate::specs::Table::at, crate::specs::Table::stored))]

ghost use Rattle.std.specs.Prelude.{◌≡◌, Bool, true, false, ◌&&◌, cond, ℕ, ◌+◌, ◌-◌, ◌*◌, ◌/◌, ◌^◌, ◌≤◌, ◌<◌, eqb, ltb};
ghost use Rattle.std.specs.Int.Bits.{bit_xor, bit_and, bit_or};
ghost use Rattle.automata.specs.Xor.{xor_below};
ghost use Rattle.automata.specs.Mask.{bit_of};
ghost use Rattle.rows.specs.Row.{width, levels, mask, mask_at, stripes};
ghost use Rattle.rows.specs.Table.{blocks, at, stored};
ghost use Rattle.rows.specs.Product.{product};
ghost use Rattle.rows.specs.Each.{Reads};

mod source;

pub use source::Source;

// A row of `width` bits.
#[derive(Clone, Copy, PartialEq, Eq)]
pub struct Row {
    pub bits: u64,
}

// The row of a number's bits.
impl From<u64> for Row {
    ghost from_gives = { λ x r. mask r ≡ x };

    fn from(x: u64) -> Row {
        Row { bits: x }
    }
}

// A row's bits as a number.
impl From<Row> for u64 {
    ghost from_gives = { λ r x. x ≡ mask r };

    fn from(x: Row) -> u64 {
        x.bits
    }
}

// 8 blocks of `width` rows, lent: row i of block l stands at l * width + i.
pub type Table = [u64; 512];

// An automaton but for its matrices, which stand in a table: row i of block l is the row of letter l and state i.
#[derive(Clone, Copy)]
pub struct Machine {
    pub states: usize,
    pub letters: usize,
    pub initial: Row,
    pub finals: Row,
}

// The row with no bit.
pub fn none() -> Row
    ensures { mask result ≡ 0 }
{
    Row { bits: 0 }
}

// Whether x has no bit.
pub fn is_none(x: Row) -> bool
    ensures { result ≡ eqb (mask x) 0 }
{
    x.bits == 0
}

// Whether bit j of x is set.
pub fn has(x: Row, j: usize) -> bool
    requires { j < width }
    ensures { result ≡ bit_of (mask x) j }
{
    x.bits >> j & 1 == 1
}

// The row with bit j alone.
pub fn unit(j: usize) -> Row
    requires { j < width }
    ensures { mask result ≡ 2 ^ j }
{
    Row { bits: 1 << j }
}

// The row with every bit below n.
pub fn below(n: usize) -> Row
    requires { n ≤ width }
    ensures { (mask result < 2 ^ n) × ((i : ℕ) → i < n → bit_of (mask result) i ≡ true) }
{
    if n < 64 {
        Row { bits: (1 << n) - 1 }
    } else {
        Row {
            bits: 0xFFFFFFFFFFFFFFFF,
        }
    }
}

// The bits of just one of x and y.
pub fn xor(x: Row, y: Row) -> Row
    ensures { mask result ≡ bit_xor (mask x) (mask y) }
{
    Row {
        bits: x.bits ^ y.bits,
    }
}

// The bits of both x and y.
pub fn and(x: Row, y: Row) -> Row
    ensures { mask result ≡ bit_and (mask x) (mask y) }
{
    Row {
        bits: x.bits & y.bits,
    }
}

// The bits of x or y or both.
pub fn or(x: Row, y: Row) -> Row
    ensures { mask result ≡ bit_or (mask x) (mask y) }
{
    Row {
        bits: x.bits | y.bits,
    }
}

// x where b holds, else no bit.
pub fn when(b: bool, x: Row) -> Row
    ensures { mask result ≡ cond b (mask x) 0 }
{
    if b { x } else { none() }
}

// x moved up by k bits.
pub fn moved(x: Row, k: usize) -> Row
    requires { (k < width) × (mask x * 2 ^ k < 2 ^ width) }
    ensures { mask result ≡ mask x * 2 ^ k }
{
    Row { bits: x.bits << k }
}

// x moved down by k bits: those that leave the row are lost.
pub fn lowered(x: Row, k: usize) -> Row
    requires { k < width }
    ensures { mask result ≡ mask x / 2 ^ k }
{
    Row { bits: x.bits >> k }
}

// The bits at the places whose bit b is 0.
pub fn stripes(b: usize) -> Row
    requires { b < levels }
    ensures { mask result ≡ stripes b }
{
    let s: [u64; 6] = [
        0x5555555555555555,
        0x3333333333333333,
        0x0F0F0F0F0F0F0F0F,
        0x00FF00FF00FF00FF,
        0x0000FFFF0000FFFF,
        0x00000000FFFFFFFF,
    ];
    Row { bits: s[b] }
}

// Where the lowest bit of x stands.
pub fn lowest(x: Row) -> usize
    requires { 0 < mask x }
    ensures { (result < width) × (bit_of (mask x) result ≡ true) × ((i : ℕ) → i < result → bit_of (mask x) i ≡ false) }
{
    u64::trailing_zeros(x.bits) as usize
}

// A place such that no bit of x stands there or above. It is the next multiple of four: a loop up to it goes by fours.
pub fn span(x: Row) -> usize
    ensures { (result ≤ width) × (mask x < 2 ^ result) }
{
    (67 - u64::leading_zeros(x.bits) as usize) / 4 * 4
}

// x without its lowest bit.
pub fn clear_lowest(x: Row) -> Row
    requires { 0 < mask x }
    ensures { mask result ≡ bit_and (mask x) (mask x - 1) }
{
    Row {
        bits: x.bits & (x.bits - 1),
    }
}

// Whether x and y share an odd number of bits, however many bits n x has.
pub fn parity(x: Row, y: Row) -> bool
    ensures { (n : ℕ) → mask x < 2 ^ n → result ≡ xor_below n (λ j. bit_of (mask x) j && bit_of (mask y) j) }
{
    u64::count_ones(x.bits & y.bits) % 2 == 1
}

// Whether no bit of x stands at n or above: the test for stray bits.
pub fn within(x: Row, n: usize) -> bool
    requires { n ≤ width }
    ensures { result ≡ ltb (mask x) (2 ^ n) }
{
    if n < 64 { x.bits >> n == 0 } else { true }
}

// The row of a number's bits.
pub fn from_u64(x: u64) -> Row
    ensures { mask result ≡ x }
{
    Row { bits: x }
}

// A row of at most 64 bits as a number.
pub fn to_u64(x: Row) -> u64
    requires { mask x < 2 ^ 64 }
    ensures { result ≡ mask x }
{
    x.bits
}

// Row i of block l.
pub fn load(t: &Table, l: usize, i: usize) -> Row
    requires { (l < blocks) × (i < width) }
    ensures { mask result ≡ at t.now l i }
{
    Row {
        bits: t[l * 64 + i],
    }
}

// Writes row i of block l.
pub fn store(t: &mut Table, l: usize, i: usize, x: Row)
    requires { (l < blocks) × (i < width) }
    ensures { t.new ≡ stored t.old l i (mask x) }
{
    t[l * 64 + i] = x.bits;
}

// Adds row i of each of N matrices to the sum that is made for it.
fn add_rows<const N: usize, F: Fn(usize, usize) -> Row>(y: &mut [Row; N], row: &F, i: usize)
    requires { (i < width) × ((k : ℕ) → k < N → F.pre row.now k i) }
    ensures { (M : ℕ → ℕ → ℕ) → Reads N (F.post row.now) M → (k : ℕ) → k < N → mask_at y.new k ≡ bit_xor (mask_at y.old k) (M k i) }
{
    for k in 0..N {
        y[k] = xor(y[k], row(k, i));
    }
}

// The row x times each of N matrices, in one pass over the bits of x: row(k, i) is row i of matrix k.
pub fn times_each<const N: usize, F: Fn(usize, usize) -> Row>(x: Row, row: F) -> [Row; N]
    requires { (N ≤ blocks) × ((k i : ℕ) → k < N → i < width → bit_of (mask x) i ≡ true → F.pre row k i) }
    ensures { (M : ℕ → ℕ → ℕ) → Reads N (F.post row) M → (k n : ℕ) → k < N → mask x < 2 ^ n → mask_at result k ≡ product n (mask x) (M k) }
{
    let mut y = [none(); N];
    let mut z = x;
    while !is_none(z) {
        add_rows(&mut y, &row, lowest(z));
        z = clear_lowest(z);
    }
    y
}

// The row x times the matrix in block l: the xor of its rows at the bits of x, however many bits n x has.
pub fn times(t: &Table, l: usize, x: Row) -> Row
    requires { l < blocks }
    ensures { (n : ℕ) → mask x < 2 ^ n → mask result ≡ product n (mask x) (at t.now l) }
{
    let [y]: [Row; 1] = times_each(x, |_, i| load(t, l, i));
    y
}
