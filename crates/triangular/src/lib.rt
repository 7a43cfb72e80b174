// A triangular basis over GF(2) in a lent slice: where q is a pivot, the row at place q has q as its highest bit. It tells whether a row is
// an xor of rows seen before; it keeps neither those rows nor which of them make one.
#![tactic(auto)]

ghost use Rattle.std.specs.Prelude.{◌≡◌, ◌+◌, ◌^◌, ◌≤◌, ◌<◌, length, get_or, set};
ghost use Rattle.rows.specs.Row.{width, mask};
ghost use Rattle.triangular.specs.Triangular.{Triangular, Inserted};

use rows::Row;

// Where the highest bit of x stands.
#[tactic(auto, unfolding(rows::specs::Row::mask))]
fn highest(x: Row) -> usize
    requires { 0 < mask x }
    ensures { (result < width) × (2 ^ result ≤ mask x) × (mask x < 2 ^ (result + 1)) }
{
    u64::ilog2(x.bits) as usize
}

// The row at place q.
#[tactic(auto, unfolding(rows::specs::Row::mask))]
fn get(e: &[u64], q: usize) -> Row
    requires { q < length e.now }
    ensures { mask result ≡ get_or e.now q 0 }
{
    Row { bits: e[q] }
}

// Writes the row at place q.
#[tactic(auto, unfolding(rows::specs::Row::mask))]
fn put(e: &mut [u64], q: usize, x: Row)
    requires { q < length e.old }
    ensures { e.new ≡ set e.old q (mask x) }
{
    e[q] = x.bits;
}

// The pivots of the basis with y. Basis rows are taken off y from its highest bit down. Where nothing is left, y is an xor of them, and the
// pivots are those that were; else what is left has a highest bit that is no pivot, and becomes its basis row.
pub fn insert(e: &mut [u64], p: Row, y: Row) -> Row
    requires { Triangular (mask p) e.old × (mask y < 2 ^ length e.old) }
    ensures { Inserted (mask p) e.old (mask y) (mask result) e.new }
{
    let mut x = y;
    while !rows::is_none(x) {
        let q = highest(x);
        if !rows::has(p, q) {
            put(e, q, x);
            return rows::or(p, rows::unit(q));
        }
        x = rows::xor(x, get(e, q));
    }
    p
}
