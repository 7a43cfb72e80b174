// The rows of a table folded onto the pivots p of a basis, whose block 0 has the basis row of each pivot. The j-th pivot becomes state j, and
// bit j of a folded row says whether the row shares an odd number of bits with the basis row of that pivot.
#![tactic(auto)]

ghost use Rattle.std.specs.Prelude.{◌≡◌, ◌+◌, ◌≤◌, ◌<◌, length};
ghost use Rattle.rows.specs.Row.{width, mask};
ghost use Rattle.rows.specs.Table.{blocks, size};
ghost use Rattle.rows.specs.Machine.{automaton_in, Valid};
ghost use Rattle.folding.specs.Folding.{UnitAt, LowAt, FoldedTo, FoldedBlocks, Folds};

use basis::{Basis, WIDEST};
use lookup::Lookup;
use rows::{Machine, Row, Table};

// The rows of the pivots below n in block l, one after another, folded.
fn fold_rows(p: Row, tab: &Lookup, t: &mut Table, l: usize, n: usize)
    requires { (l < blocks) × (n ≤ width) }
    ensures { FoldedTo l n (mask p) tab.now.groups tab.now.entries t.old t.new }
{
    let mut z = rows::and(p, rows::below(n));
    let mut j: usize = 0;
    while !rows::is_none(z) {
        let k = rows::lowest(z);
        let x = rows::load(t, l, k);
        let y = tab.times(x);
        rows::store(t, l, j, y);
        j += 1;
        z = rows::clear_lowest(z);
    }
}

// The rows of the first a blocks folded.
fn fold_table(p: Row, tab: &Lookup, t: &mut Table, a: usize, n: usize)
    requires { (a ≤ blocks) × (n ≤ width) }
    ensures { FoldedBlocks a n (mask p) tab.now.groups tab.now.entries t.old t.new }
{
    for l in 0..a {
        fold_rows(p, tab, t, l, n);
    }
}

// The automaton of t and m folded, its rows in t: a state for each pivot. Where every state is a pivot nothing changes. The table c is for
// work.
pub fn fold(b: &Basis, p: Row, t: &mut Table, m: Machine, c: &mut Table) -> Machine
    requires { Valid t.old m × UnitAt m.states (mask p) b.now × LowAt m.states (mask p) b.now }
    ensures { (result.letters ≡ m.letters) × Folds m.letters (automaton_in t.old m) (mask p) b.now t.new result.states (mask result.initial) (mask result.finals) × (length c.new ≡ size) }
{
    let n = m.states;
    let a = m.letters;
    let all = rows::below(n);
    if p == all {
        return m;
    }
    let d = columns::columns(b, p, n, c);
    let mut tab = Lookup::empty();
    tab.fill(c, WIDEST, 0, all);
    fold_table(p, &tab, t, a, n);
    let i = tab.times(m.initial);
    let f = tab.times(rows::and(m.finals, p));
    Machine {
        states: d,
        letters: a,
        initial: i,
        finals: f,
    }
}
