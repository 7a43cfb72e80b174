// Two automata side by side in one table: the direct sum of their matrices.
#![tactic(auto)]

ghost use Rattle.std.specs.Prelude.{ℕ, ◌+◌, ◌^◌, ◌≤◌, ◌<◌};
ghost use Rattle.rows.specs.Row.{width};
ghost use Rattle.rows.specs.Table.{blocks, at};
ghost use Rattle.rows.specs.Beside.{beside};
ghost use Rattle.direct_sum.specs.Filled.{Joined, Filled};

use rows::Table;

// The rows of letter l of u after those of t: t has n states and u has k.
pub fn join_block(t: &mut Table, u: &Table, n: usize, k: usize, l: usize)
    requires { (n < width) × (n + k ≤ width) × (l < blocks) × ((j : ℕ) → j < k → at u.now l j < 2 ^ k) }
    ensures { Joined l n k u.now t.old t.new }
{
    for j in 0..k {
        let x = rows::load(u, l, j);
        let y = rows::moved(x, n);
        rows::store(t, l, n + j, y);
    }
}

// The rows of u beside those of t, in t.
pub fn join(t: &mut Table, u: &Table, a: usize, n: usize, k: usize)
    requires { (a ≤ blocks) × (n < width) × (n + k ≤ width) × ((l j : ℕ) → l < a → j < k → at u.now l j < 2 ^ k) }
    ensures { Filled a (n + k) (beside (at t.old) (at u.now) n) t.new }
{
    for l in 0..a {
        join_block(t, u, n, k, l);
    }
}
