// The concatenation of two automata in tables: the first, and wherever a row of it ends a word the second as well.
#![tactic(auto)]

ghost use Rattle.std.specs.Prelude.{◌≡◌, ℕ, ◌+◌, ◌^◌, ◌≤◌, ◌<◌, length};
ghost use Rattle.automata.specs.Cuts.{concatenation};
ghost use Rattle.rows.specs.Row.{width, mask};
ghost use Rattle.rows.specs.Table.{blocks, at};
ghost use Rattle.rows.specs.Machine.{Valid};
ghost use Rattle.direct_sum.specs.Filled.{Filled, Changed};
ghost use Rattle.results.specs.Built.{held_words, Built};
ghost use Rattle.concatenation.specs.Opened.{opened, opened_rows};

use rows::{Machine, Row, Table};

// The row x, and where it ends a word, by the final column f, the row start as well; however many bits n x has.
fn opened(x: Row, f: Row, start: Row) -> Row
    ensures { (n : ℕ) → mask x < 2 ^ n → mask result ≡ opened n (mask f) (mask start) (mask x) }
{
    let b = rows::parity(x, f);
    let y = rows::when(b, start);
    rows::xor(x, y)
}

// The n rows of letter l opened.
fn open_block(t: &mut Table, l: usize, n: usize, f: Row, start: Row)
    requires { (l < blocks) × (n ≤ width) × ((k : ℕ) → k < n → at t.old l k < 2 ^ n) }
    ensures { Changed l n (opened_rows n (mask f) (mask start) (at t.old) l) t.old t.new }
{
    for k in 0..n {
        let x = rows::load(t, l, k);
        let y = opened(x, f, start);
        rows::store(t, l, k, y);
    }
}

// The n rows of each of a letters opened.
fn open_rows(t: &mut Table, a: usize, n: usize, f: Row, start: Row)
    requires { (a ≤ blocks) × (n ≤ width) × ((l k : ℕ) → l < a → k < n → at t.old l k < 2 ^ n) }
    ensures { Filled a n (opened_rows n (mask f) (mask start) (at t.old)) t.new }
{
    for l in 0..a {
        open_block(t, l, n, f, start);
    }
}

// The automaton of t and g, and wherever one of its rows ends a word the initial row of u and h beside it, over the same letters; its rows
// in t.
pub fn concatenate(t: &mut Table, g: Machine, u: &Table, h: Machine) -> Machine
    requires { Valid t.old g × Valid u.now h × (h.letters ≡ g.letters) × (g.states < width) × (g.states + h.states ≤ width) }
    ensures { Built g.letters (concatenation (held_words t.old g) (held_words u.now h)) t.new result }
{
    let n = g.states;
    let k = h.states;
    let a = g.letters;
    let i = g.initial;
    let f = g.finals;
    let start = rows::moved(h.initial, n);
    open_rows(t, a, n, f, start);
    direct_sum::join(t, u, a, n, k);
    let initial = opened(i, f, start);
    let finals = rows::moved(h.finals, n);
    Machine {
        states: n + k,
        letters: a,
        initial,
        finals,
    }
}
