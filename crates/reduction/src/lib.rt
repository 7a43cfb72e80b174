// The reduction of a xor automaton: its rows in the order of their words, and the automaton in those coordinates.
#![tactic(auto)]

ghost use Rattle.std.specs.Prelude.{◌≡◌, ℕ, ◌+◌, ◌^◌, ◌≤◌, ◌<◌};
ghost use Rattle.rows.specs.Row.{width, mask};
ghost use Rattle.rows.specs.Table.{blocks, at};
ghost use Rattle.basis.specs.Basis.{cell};
ghost use Rattle.kernels.specs.Products.{Products};
ghost use Rattle.reduction.specs.Tables.{Coefficients, Column, ReducesUpTo};

use basis::{Basis, WIDEST};
use elimination::Size;
use kernels::Line;
use lookup::Lookup;
use rows::{Machine, Row, Source, Table};

// The products of row k of the basis with the first a letters, in a line.
pub fn multiply(t: &Table, a: usize, b: &Basis, k: usize) -> Line
    requires { (a ≤ blocks) × (k < width) }
    ensures { (n : ℕ) → cell width b.now 1 k < 2 ^ n → Products a n (cell width b.now 1 k) (at t.now) result }
{
    let row = basis::get(b, WIDEST, 1, k);
    let mut y = [0u64; 8];
    kernels::times_all(t, a, row, &mut y);
    y
}

// How many products are worth a table.
const MANY: usize = 32;

// A reduction under way: the automaton, and the lent tables of the search for its rows. The basis has the rows found so far, and `out` has of
// each product done the rows found that make it.
#[derive(Drop)]
pub struct Reduction<'a> {
    pub source: Source<'a>,
    pub basis: &'a mut Basis,
    pub out: &'a mut Table,
    pub size: Size,
}

impl<'a> Reduction<'a> {
    ghost use Rattle.reduction.specs.Before.{Before, After, Product, Follows, Filled};

    // Row k times letter l, which is y, is placed in the basis; the rows that make it are kept.
    pub fn step(&mut self, y: Row, k: usize, l: usize)
        requires { Before self.old k l × (k < self.old.size.count) × (l < self.old.source.machine.letters) × Product self.old k l (mask y) }
        ensures { Before self.new k (l + 1) × Follows self.old self.new × (cell width self.new.basis.now 1 k ≡ cell width self.old.basis.now 1 k) }
    {
        let n = self.source.machine.states;
        let s = self.size;
        let q = elimination::place(self.basis, WIDEST, n, s, y);
        rows::store(self.out, l, k, q.row);
        self.size = q.size;
    }

    // Row k by every letter. Over one letter there is no line.
    pub fn expand(&mut self, k: usize)
        requires { Before self.old k 0 × (k < self.old.size.count) }
        ensures { Before self.new (k + 1) 0 × Follows self.old self.new }
    {
        if self.source.machine.letters == 1 {
            let row = basis::get(self.basis, WIDEST, 1, k);
            let z = rows::times(self.source.table, 0, row);
            self.step(z, k, 0);
            return;
        }
        let y = multiply(
            self.source.table,
            self.source.machine.letters,
            self.basis,
            k,
        );
        for l in 0..self.source.machine.letters {
            let z = kernels::pick(&y, l);
            self.step(z, k, l);
        }
    }

    // Row k by every letter, where as many rows are found as there are states: each product is an xor of them, and tab tells of which.
    // The loop is that of `expand`: with the step as a closure, what holds between two letters would have to be said of it.
    fn look_up_row(&mut self, tab: &Lookup, k: usize)
        requires { Before self.old k 0 × (k < self.old.size.count) × (self.old.size.count ≡ self.old.source.machine.states) × Coefficients tab.now.groups (mask self.old.size.pivots) self.old.basis.now tab.now.entries }
        ensures { Before self.new (k + 1) 0 × Filled self.old self.new }
    {
        let y = multiply(
            self.source.table,
            self.source.machine.letters,
            self.basis,
            k,
        );
        for l in 0..self.source.machine.letters {
            let z = kernels::pick(&y, l);
            let c = tab.times(z);
            rows::store(self.out, l, k, c);
        }
    }

    // The rows from `first` on by every letter, by a table of the coefficients.
    fn look_up_rows(&mut self, first: usize)
        requires { Before self.old first 0 × (first ≤ self.old.size.count) × (self.old.size.count ≡ self.old.source.machine.states) }
        ensures { Before self.new self.new.size.count 0 × Filled self.old self.new }
    {
        let mut tab = Lookup::empty();
        tab.fill(self.basis, WIDEST, 2, self.size.pivots);
        for k in first..self.size.count {
            self.look_up_row(&tab, k);
        }
    }

    // Every row by every letter, first in, first out. As many rows as there are states are all that there are: if that is more than `most`,
    // the products to come are left.
    pub fn search(&mut self, most: usize)
        requires { Before self.old 0 0 }
        ensures { After self.new most × Follows self.old self.new × (self.old.size.count ≡ 0 → self.new.size.count ≡ 0) }
    {
        let n = self.source.machine.states;
        let a = self.source.machine.letters;
        let mut k: usize = 0;
        // Rows are found on the way, so that the end moves: a `for` would keep the first one.
        while k < self.size.count {
            if self.size.count == n {
                if most < n {
                    return;
                }
                if MANY <= (n - k) * a {
                    self.look_up_rows(k);
                    return;
                }
            }
            self.expand(k);
            k += 1;
        }
    }
}

// Which of the first d rows of the basis b share an odd number of bits with f.
pub fn column(b: &Basis, n: usize, d: usize, f: Row) -> Row
    requires { (d ≤ width) × ((k : ℕ) → k < d → cell width b.now 1 k < 2 ^ n) }
    ensures { Column n b.now d (mask f) (mask result) × (mask result < 2 ^ d) }
{
    let mut y = rows::none();
    for i in 0..d {
        let x = basis::get(b, WIDEST, 1, i);
        let o = rows::parity(x, f);
        let u = rows::unit(i);
        let v = rows::when(o, u);
        y = rows::xor(y, v);
    }
    y
}

// The automaton of x on a basis of the rows that words lead to, in shortlex order. The basis is left in b, the rows in out. `most` states are
// of use: of more than that only their number is told.
pub fn reduce(x: Source, b: &mut Basis, out: &mut Table, most: usize) -> Machine
    ensures { (result.letters ≡ x.entry.machine.letters) × ReducesUpTo x.entry.machine.letters x.entry.table.now x.entry.machine.states (mask x.entry.machine.initial) (mask x.entry.machine.finals) b.new out.new most result.states (mask result.initial) (mask result.finals) }
{
    let m = x.machine;
    let q = elimination::place(b, WIDEST, m.states, Size::empty(), m.initial);
    let mut r = Reduction {
        source: x,
        basis: b,
        out: out,
        size: q.size,
    };
    r.search(most);
    let d = r.size.count;
    let c = column(r.basis, m.states, d, m.finals);
    Machine {
        states: d,
        letters: m.letters,
        initial: q.row,
        finals: c,
    }
}
