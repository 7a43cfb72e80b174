// The meet of two records: the product automaton of their minimal automata, and the minimal record of its words.
#![tactic(auto)]

ghost use Rattle.std.specs.Prelude.{◌≡◌, ℕ, ◌+◌, ◌*◌, ◌^◌, ◌≤◌, ◌<◌, length};
ghost use Rattle.automata.specs.Language.{intersection};
ghost use Rattle.rows.specs.Row.{width, mask};
ghost use Rattle.rows.specs.Table.{blocks, at};
ghost use Rattle.rows.specs.Machine.{Valid};
ghost use Rattle.direct_sum.specs.Filled.{Filled};
ghost use Rattle.record.specs.Outcome.{answer_in, buffer_in};
ghost use Rattle.operands.specs.Meant.{as_meant};
ghost use Rattle.results.specs.Built.{held_words, Built};
ghost use Rattle.intersection.specs.Meet.{meet_outcome, Meets};
ghost use Rattle.intersection.specs.Kron.{kron, crossed};

use operands::BLANK;
use record::{Refusal, Rule};
use rows::{Machine, Row, Table};

const MAX_PRODUCT: usize = 64;

// The Kronecker product of the row x of n bits and the row y of m bits: bit p * m + q is bit p of x and bit q of y.
fn kron(x: Row, y: Row, n: usize, m: usize) -> Row
    requires { (n ≤ width) × (n * m ≤ width) × (mask y < 2 ^ m) }
    ensures { mask result ≡ kron n m (mask x) (mask y) }
{
    let mut r = rows::none();
    for p in 0..n {
        let z = rows::moved(y, p * m);
        let b = rows::has(x, p);
        let w = rows::when(b, z);
        r = rows::xor(r, w);
    }
    r
}

// The rows of letter l of the product automaton of t, with n states, and u, with m.
fn cross_block(t: &Table, u: &Table, out: &mut Table, n: usize, m: usize, l: usize)
    requires { (n ≤ width) × (n * m ≤ width) × (l < blocks) × ((j : ℕ) → j < m → at u.now l j < 2 ^ m) × Filled l (n * m) (crossed t.now u.now n m) out.old }
    ensures { Filled (l + 1) (n * m) (crossed t.now u.now n m) out.new }
{
    let d = n * m;
    for k in 0..d {
        let x = rows::load(t, l, k / m);
        let y = rows::load(u, l, k % m);
        let r = kron(x, y, n, m);
        rows::store(out, l, k, r);
    }
}

// The rows of the product automaton: the Kronecker products of the matrices of each letter.
fn cross(t: &Table, u: &Table, out: &mut Table, a: usize, n: usize, m: usize)
    requires { (a ≤ blocks) × (n ≤ width) × (n * m ≤ width) × ((l j : ℕ) → l < a → j < m → at u.now l j < 2 ^ m) }
    ensures { Filled a (n * m) (crossed t.now u.now n m) out.new }
{
    for l in 0..a {
        cross_block(t, u, out, n, m, l);
    }
}

// The product automaton of two automata over the same letters, its rows in s.
fn product(t: &Table, g: Machine, u: &Table, h: Machine, s: &mut Table) -> Machine
    requires { Valid t.now g × Valid u.now h × (h.letters ≡ g.letters) × (g.states * h.states ≤ width) }
    ensures { Built g.letters (intersection (held_words t.now g) (held_words u.now h)) s.new result }
{
    let n = g.states;
    let m = h.states;
    let a = g.letters;
    cross(t, u, s, a, n, m);
    let initial = kron(g.initial, h.initial, n, m);
    let finals = kron(g.finals, h.finals, n, m);
    Machine {
        states: n * m,
        letters: a,
        initial,
        finals,
    }
}

// Writes the minimal record of the words that both records accept; a second record of 0 bytes is a blank, the machine with no states over
// the first one's letters. `claims`: as for operations::sum; besides, refusal 10 comes exactly where the records pass and the product of
// their dimensions is over 64, its place the product, and refusal 11 only where that product is not.
pub fn meet(first: &[u8], second: &[u8], out: &mut [u8]) -> Result<usize, Refusal>
    ensures answer { result ≡ answer_in (as_meant meet_outcome first.now second.now) out.old }
    ensures buffer { out.new ≡ buffer_in (as_meant meet_outcome first.now second.now) out.old }
    ensures claims { as_meant Meets first.now second.now out.new result }
{
    let mut room = [0; BLANK];
    let right = operands::meant(first, second, &mut room);
    let pair = operands::lent::check_pair(first, right)?;
    let mut t = [0u64; 512];
    let mut u = [0u64; 512];
    let mut s = [0u64; 512];
    let g = minimal::minimal_form(pair.first.bytes, &mut t);
    let h = minimal::minimal_form(pair.second.bytes, &mut u);
    let d = g.states * h.states;
    if MAX_PRODUCT < d {
        return Err(Rule::Product.of(0, d));
    }
    let m = product(&t, g, &u, h, &mut s);
    results::finish(&mut s, m, &mut t, out)
}
