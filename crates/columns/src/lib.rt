// The columns of the basis rows at the pivots p of a basis, whose block 0 has the basis row of each pivot. The basis rows are laid one
// after another in a table, and the table is transposed: so a row of it names pivots by their rank.
#![tactic(auto)]

ghost use Rattle.std.specs.Prelude.{◌≡◌, true, ℕ, ◌^◌, ◌≤◌, ◌<◌, length};
ghost use Rattle.automata.specs.Mask.{bit_of};
ghost use Rattle.rows.specs.Row.{width, mask};
ghost use Rattle.rows.specs.Table.{size, at};
ghost use Rattle.basis.specs.Basis.{cell};
ghost use Rattle.observation.specs.Listed.{rank};
ghost use Rattle.columns.specs.Columns.{Columns};
ghost use Rattle.columns.specs.Laid.{Laid};

use basis::{Basis, WIDEST};
use rows::{Row, Table};

// Lays the basis rows of the pivots below n one after another in block 0 of c, and counts them.
fn lay(b: &Basis, p: Row, n: usize, c: &mut Table) -> usize
    requires { n ≤ width }
    ensures { Laid n (mask p) b.now result c.new }
{
    let mut z = rows::and(p, rows::below(n));
    let mut r: usize = 0;
    while !rows::is_none(z) {
        let k = rows::lowest(z);
        let x = basis::get(b, WIDEST, 0, k);
        rows::store(c, 0, r, x);
        r += 1;
        z = rows::clear_lowest(z);
    }
    r
}

// The columns of the basis rows at the pivots below n, in block 0 of c, and how many pivots there are.
pub fn columns(b: &Basis, p: Row, n: usize, c: &mut Table) -> usize
    requires { (n ≤ width) × ((k : ℕ) → k < n → bit_of (mask p) k ≡ true → cell width b.now 0 k < 2 ^ n) }
    ensures { (result ≡ rank (bit_of (mask p)) n) × Columns n (mask p) b.now result (at c.new 0) × (length c.new ≡ size) }
{
    let r = lay(b, p, n, c);
    transpose::clear(c, 0, r, n);
    transpose::transpose(c, 1, n);
    r
}
